//! Twins of calls of `Network`. The prover knows only the clauses of a call, so these must imply the clauses of its
//! twin. The edits in `must-fail/` are wrong bodies of twins.

ghost use Rattle.std.specs.Prelude.{◌≤◌, ◌<◌, length};
ghost use Rattle.adapter.specs.State.{IsAdapter};
ghost use Rattle.stations.specs.Stations.{world_at};
ghost use Rattle.packet_socket.specs.CallEffects.{answer_in, call_request};
ghost use Rattle.packet_socket.specs.HostCalls.{HostReady};
ghost use Rattle.host_calls.specs.BeforeReset.{IsBeforeReset};
ghost use Rattle.host_calls.specs.CallsInSteps.{MakesCall};
ghost use Rattle.host_calls.specs.ConnectedHosts.{played_call};
ghost use Rattle.host_calls.specs.Networks.{connected_at, nth_host};
ghost use Rattle.host_calls.specs.ResetsInSteps.{MakesReset};

use host_calls::{Called, GivenUp, Network, WasReset};
use packet_socket::HostCall;
use stations::Observer;
use wire::Tick;

/// A twin of [`Network::call`].
pub fn call_in_network<O: Observer>(
    network: &mut Network,
    number: usize,
    call: HostCall,
    ticks: &[Tick],
    observer: &mut O,
    into: &mut [u8; 1518],
) -> Called
    requires there { number < length network.old.hosts }
    requires ready { HostReady (nth_host network.old number) (world_at network.old.stations number) }
    requires room { length ticks.now ≤ O.room_left observer.old }
    ensures does { MakesCall
        (played_call number ticks.now (O.heard observer.old observer.new) result.accesses)
        (call_request call.entry) (answer_in into.new result.answer)
        (connected_at network.old number) (connected_at network.new number) }
{
    let called = network.call(number, call, ticks, observer, into);
    Called {
        answer: called.answer,
        accesses: called.accesses,
    }
}

/// A twin of [`Network::reset`].
pub fn reset_in_network<O: Observer>(
    network: &mut Network,
    number: usize,
    ticks: &[Tick],
    observer: &mut O,
    found: GivenUp,
) -> WasReset
    requires there { number < length network.old.hosts }
    requires ready { HostReady (nth_host network.old number) (world_at network.old.stations number) }
    requires adapter { IsAdapter (world_at network.old.stations number).adapter }
    requires ticks { length ticks.now ≤ O.room_left observer.old }
    requires found { IsBeforeReset (nth_host network.old number) (world_at network.old.stations number) found }
    ensures resets { MakesReset
        (played_call number ticks.now (O.heard observer.old observer.new) result.accesses)
        result.given_up.sending.items result.given_up.holding.items result.on_after
        (connected_at network.old number) (connected_at network.new number) }
{
    let reset = network.reset(number, ticks, observer, found);
    WasReset {
        given_up: reset.given_up,
        on_after: reset.on_after,
        accesses: reset.accesses,
    }
}
