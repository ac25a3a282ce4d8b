// A call of a host, as a value.

ghost use Rattle.std.specs.Prelude.{◌≤◌};
ghost use Rattle.dma_memory.specs.Layout.{size_of};
ghost use Rattle.adapter.specs.Keeping.{Keeps};
ghost use Rattle.packet_socket.specs.CallEffects.{CallsBy, IsLegalAnswer, KeepsRest, answer_in, call_request};
ghost use Rattle.packet_socket.specs.HostCalls.{host_at};

use crate::Host;
use crate::receive::RecvError;
use adapter::Bus;
use driver::{GroupError, Handled, SendError};

/// A call of a host, as a value.
#[derive(Clone, Copy, Debug, Drop)]
pub enum HostCall<'a> {
    /// Sends a frame ([`Host::send`]).
    Send(&'a [u8]),
    /// Returns the oldest frame of a socket ([`Host::recv`]).
    Recv(usize),
    /// Handles an interrupt ([`Host::interrupt`]).
    Interrupt,
    /// Joins a multicast group ([`Host::join`]).
    Join([u8; 6]),
    /// Leaves a multicast group ([`Host::leave`]).
    Leave([u8; 6]),
}

/// The answer of a call of a host. `F` is the type of a returned frame. For [`Host::call`], `F` is the frame's size in
/// bytes.
#[derive(Debug, Drop)]
pub enum HostAnswer<F> {
    /// The result of [`Host::send`].
    Sent(Result<(), SendError>),
    /// The result of [`Host::recv`].
    Received(Result<F, RecvError>),
    /// The result of [`Host::interrupt`].
    Interrupted(Handled),
    /// The result of [`Host::join`].
    Joined(Result<(), GroupError>),
    /// The result of [`Host::leave`].
    Left(Result<(), GroupError>),
}

impl Host {
    /// Makes the call `call`, and returns its answer. A frame that a socket returns is copied to the front of `into`.
    /// The bytes of `into` after the frame don't change; if no frame is returned, no byte changes. If the bus obeys the
    /// law, and the host is ready with its transmit side set up, the call has the effect of its answer (`EffectOf`).
    /// `bus` must have at least `layout().size()` bytes.
    #[inline(always)]
    pub fn call<B: Bus>(
        &mut self,
        bus: &mut B,
        call: HostCall,
        into: &mut [u8; 1518],
    ) -> HostAnswer<usize>
        requires memory { size_of self.old.driver.layout ≤ B.extent bus.old }
        ensures keeps { Keeps B.Bus bus.old bus.new }
        ensures legal { IsLegalAnswer result }
        ensures rest { KeepsRest result into.old into.new }
        ensures does { CallsBy B.Bus (call_request call.entry) (answer_in into.new result)
            (host_at bus.old self.old) (host_at bus.new self.new) }
    {
        match call {
            HostCall::Send(frame) => HostAnswer::Sent(self.send(bus, frame)),
            HostCall::Recv(socket) => HostAnswer::Received(self.recv(bus, socket, into)),
            HostCall::Interrupt => HostAnswer::Interrupted(self.interrupt(bus)),
            HostCall::Join(group) => HostAnswer::Joined(self.join(bus, group)),
            HostCall::Leave(group) => HostAnswer::Left(self.leave(bus, group)),
        }
    }
}
