//! Twins of calls of `Lan`. The prover knows only the clauses of a call, so these must imply the clauses of its twin.
//! The edits in `must-fail/` are wrong bodies of twins.

ghost use Rattle.std.specs.Prelude.{◌<◌, ◌≤◌, ◌+◌, IfErr, OnOk, length, slice_get, take};
ghost use Rattle.host_calls.specs.Networks.{IsHost};
ghost use Rattle.packet_socket.specs.HostState.{HostState};
ghost use Rattle.wire.specs.DrainedNetworks.{NetworkDrains};
ghost use Rattle.wire.specs.Runs.{RunTold, RunsTo, StopsAt};

use rx_engine::MOST_FRAMES;
use std::alloc::Global;
use wire::{Event, Lan, Outlet, Reply, RunObserver, Stopped};

/// A twin of [`Lan::play`], with the clause for errors.
pub fn play<O: RunObserver>(
    lan: &mut Lan,
    events: &[Event<'_>],
    observer: &mut O,
) -> Result<(), Stopped>
    ensures refused { IfErr result (λ stopped. StopsAt O.refuses (length lan.old.hosts)
        (slice_get events.now stopped.done)
        (RunTold O.ran (take stopped.done events.now) lan.old lan.new observer.old)) }
{
    // An edit changes one arm.
    match lan.play(events, observer) {
        Ok(all) => Ok(all),
        Err(early) => Err(early),
    }
}

/// A twin of [`Lan::run`].
pub fn run(
    lan: &mut Lan,
    alloc: Global,
    events: &[Event<'_>],
    replies: &mut Vec<Reply>,
) -> Result<(), Stopped>
    ensures ok { OnOk result (RunsTo lan.old events.now replies.old.items replies.new.items lan.new) }
    ensures stopped { IfErr result (λ stopped. (stopped.done < length events.now)
        × RunsTo lan.old (take stopped.done events.now) replies.old.items replies.new.items lan.new) }
{
    // An edit changes one arm.
    match lan.run(alloc, events, replies) {
        Ok(()) => Ok(()),
        Err(stopped) => Err(stopped),
    }
}

/// A twin of [`Lan::drain`].
pub fn drain<S: Outlet>(lan: &mut Lan, host: usize, sink: &mut S) -> u64
    requires room { (state : HostState) → IsHost lan.old host state
        → state.driver.layout.buffers + MOST_FRAMES ≤ S.room_left sink.old }
    ensures drains { NetworkDrains lan.old host result (S.frames sink.old) (S.frames sink.new) lan.new }
{
    lan.drain(host, sink)
}
