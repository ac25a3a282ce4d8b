//! Twins of calls of `Host`. The prover knows only the clauses of a call, so these must imply the clauses of its twin.
//! The edits in `must-fail/` are wrong bodies of twins.

ghost use Rattle.std.specs.Prelude.{◌≡◌, ◌↔◌, ◌<◌, ◌≤◌, [], Err, IfOk, length};
ghost use Rattle.dma_memory.specs.Layout.{size_of};
ghost use Rattle.driver.specs.HandlerSteps.{IfHandled};
ghost use Rattle.packet_socket.specs.CallEffects.{CallsBy, answer_in, call_request};
ghost use Rattle.packet_socket.specs.HostCalls.{HostServes, Returns, host_at};
ghost use Rattle.packet_socket.specs.HostState.{queue_at};
ghost use Rattle.packet_socket.specs.declared.receive.RecvError.TheVariants as RecvError;

use adapter::Bus;
use driver::{Handled, SendError};
use packet_socket::{Host, HostAnswer, HostCall, RecvError};

/// A twin of [`Host::recv`].
pub fn recv<B: Bus>(
    host: &mut Host,
    bus: &mut B,
    socket: usize,
    into: &mut [u8; 1518],
) -> Result<usize, RecvError>
    requires memory { size_of host.old.driver.layout ≤ B.extent bus.old }
    ensures empty { (result ≡ Err RecvError.Empty)
        ↔ ((socket < length host.old.kinds) × (queue_at host.old.queues socket ≡ [])) }
    ensures ok { IfOk result (Returns host.old host.new socket into.old into.new) }
{
    match host.recv(bus, socket, into) {
        Ok(size) => Ok(size),
        Err(error) => Err(error),
    }
}

/// A twin of [`Host::interrupt`].
pub fn interrupt<B: Bus>(host: &mut Host, bus: &mut B) -> Handled
    requires memory { size_of host.old.driver.layout ≤ B.extent bus.old }
    ensures serves { IfHandled result (HostServes host.old host.new) }
{
    match host.interrupt(bus) {
        Handled::NotMine => Handled::NotMine,
        Handled::Handled { taken } => Handled::Handled { taken },
    }
}

/// A twin of [`Host::call`].
pub fn call<B: Bus>(
    host: &mut Host,
    bus: &mut B,
    call: HostCall,
    into: &mut [u8; 1518],
) -> HostAnswer<usize>
    requires memory { size_of host.old.driver.layout ≤ B.extent bus.old }
    ensures does { CallsBy B.Bus (call_request call.entry) (answer_in into.new result)
        (host_at bus.old host.old) (host_at bus.new host.new) }
{
    host.call(bus, call, into)
}

/// A twin of [`Host::call`].
pub fn call_with_answers<B: Bus>(
    host: &mut Host,
    bus: &mut B,
    call: HostCall,
    into: &mut [u8; 1518],
) -> HostAnswer<usize>
    requires memory { size_of host.old.driver.layout ≤ B.extent bus.old }
    ensures does { CallsBy B.Bus (call_request call.entry) (answer_in into.new result)
        (host_at bus.old host.old) (host_at bus.new host.new) }
{
    match host.call(bus, call, into) {
        HostAnswer::Sent(sent) => HostAnswer::Sent(sent),
        HostAnswer::Received(received) => HostAnswer::Received(received),
        HostAnswer::Interrupted(handled) => HostAnswer::Interrupted(handled),
        HostAnswer::Joined(joined) => HostAnswer::Joined(joined),
        HostAnswer::Left(left) => HostAnswer::Left(left),
    }
}

/// A twin of [`Host::reset`].
pub fn reset<B: Bus>(host: &mut Host, bus: &mut B)
    requires memory { size_of host.old.driver.layout ≤ B.extent bus.old }
    ensures others { host.new ≡ record host.old { driver = host.new.driver } }
{
    host.reset(bus);
}
