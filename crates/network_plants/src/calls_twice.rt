//! Calls that are made twice, from equal states. The prover knows only the clauses of a call, so the clauses exclude
//! every body whose outcome differs in what the function compares. Whether memory is refused isn't compared: no clause
//! states when memory is refused.

ghost use Rattle.std.specs.Prelude.{◌≡◌, ◌≤◌, ◌+◌, [], ℕ, length};
ghost use Rattle.bring_up.specs.declared.init_error.InitError.{InitError};
ghost use Rattle.host_calls.specs.Networks.{IsHost, NetworkState};
ghost use Rattle.network_plan.specs.declared.plan_error.PlanError.{PlanError};
ghost use Rattle.network_plan.specs.declared.plan_error.PlanError.TheVariants.{Init};
ghost use Rattle.packet_socket.specs.HostState.{HostState};
ghost use Rattle.stations.specs.Stations.{backlog_at};
ghost use Rattle.stations.specs.WireLogs.{last_of_others};
ghost use Rattle.network_plants.specs.Alike.{DrainsAreAlike, IsOfPlan, IsSameFailure};
ghost use Rattle.network_plants.specs.Alike.{LinksAreClear, NetworksAreAlike};
ghost use Rattle.network_plants.specs.AlikeTexts.{ReadAlike, RefusedAlike};

use descriptors::Frame;
use rx_engine::MOST_FRAMES;
use scenario::{Refusal, Scenario};
use std::alloc::Global;
use wire::{Counts, Lan, Outlet, Plan, PlanError};

/// [`Scenario::read`] twice: if both calls read the text, the hosts, commands and traces are the same. If the first
/// call refuses the text for a line, the second call refuses the text for the same line and fault, or because memory is
/// refused.
pub fn read_twice(
    alloc: Global,
    text: &[u8],
) -> (Result<Scenario, Refusal>, Result<Scenario, Refusal>)
    ensures read { ReadAlike result.0 result.1 }
    ensures refused { RefusedAlike result.0 result.1 }
{
    // A law, for the proof of `refused`.
    scenario::texts_are_read_or_refused();
    (Scenario::read(alloc, text), Scenario::read(alloc, text))
}

/// [`Lan::new`] twice, for one plan.
/// - `refused`: if the first call returns an error of an invalid plan, the second call returns the same error.
/// - `made`: if both calls make networks, the networks are alike.
/// - `failed`: if the first call fails to initialize a host, the second call fails at the same host for the same
///   reason, or because memory is refused. Each link must be up within 2,000 PHY ticks, or never.
pub fn new_twice(alloc: Global, plan: &Plan) -> (Result<Lan, PlanError>, Result<Lan, PlanError>)
    ensures refused { (error : PlanError) → result.0 ≡ Err error → IsOfPlan error → result.1 ≡ Err error }
    ensures made { (one other : NetworkState) → result.0 ≡ Ok one → result.1 ≡ Ok other → NetworksAreAlike one other }
    ensures failed { LinksAreClear plan.now.hosts.items → (host : ℕ) (error : InitError)
        → result.0 ≡ Err (Init host error) → IsSameFailure host error result.1 }
{
    (Lan::new(alloc, plan), Lan::new(alloc, plan))
}

/// [`Lan::counts`] twice: all counts of a host are the same, or both results are `None`.
pub fn counts_twice(lan: &Lan, host: usize) -> (Option<Counts>, Option<Counts>)
    ensures { result.0 ≡ result.1 }
{
    (lan.counts(host), lan.counts(host))
}

/// [`Lan::log`] twice: the entries of the frames that wait at a host's end are the same. If there is no host of this
/// number, the log is empty.
pub fn log_twice<'a>(lan: &'a Lan, host: usize) -> (&'a [(usize, Frame)], &'a [(usize, Frame)])
    ensures waits { last_of_others host (length (backlog_at lan.now.stations host)) result.0.now
        ≡ last_of_others host (length (backlog_at lan.now.stations host)) result.1.now }
    ensures absent { length lan.now.hosts ≤ host → result.0.now ≡ [] }
{
    (lan.log(host), lan.log(host))
}

/// [`Lan::drain_room`] twice: the room is the same.
pub fn drain_room_twice(lan: &Lan, host: usize) -> (usize, usize)
    ensures { result.0 ≡ result.1 }
{
    (lan.drain_room(host), lan.drain_room(host))
}

/// [`Lan::drain`] twice: in two drains of one host, from equal networks, each socket returns the same frames. The
/// networks after the drains are equal in the parts that `DrainsAreAlike` lists.
pub fn drain_twice<S: Outlet>(
    one: &mut Lan,
    other: &mut Lan,
    host: usize,
    sink: &mut S,
    second: &mut S,
)
    requires same { one.old ≡ other.old }
    requires room { (state : HostState) → IsHost one.old host state
        → state.driver.layout.buffers + MOST_FRAMES ≤ S.room_left sink.old }
    requires more_room { (state : HostState) → IsHost one.old host state
        → state.driver.layout.buffers + MOST_FRAMES ≤ S.room_left second.old }
    ensures { DrainsAreAlike host
        (record { before = S.frames sink.old; after = S.frames sink.new })
        (record { before = S.frames second.old; after = S.frames second.new }) one.new other.new }
{
    one.drain(host, sink);
    other.drain(host, second);
}
