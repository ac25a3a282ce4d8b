//! Draws by probabilistic concurrency testing (PCT): the group with the highest priority goes first.
//!
//! The first priorities are random. At up to `depth` - 1 random events of a run, the group of the event gets a priority
//! below all first priorities. Group 0 is the driver; its events are the places of a run. At places of a handler that has
//! cut in, the handler's group runs in the driver's place.

ghost use Rattle.std.specs.Prelude.{◌≡◌, ◌≢◌, ◌<◌, ◌≤◌, ℕ, true};
ghost use Rattle.search.specs.Draws.{GoesBefore, GoesNext, group_of, is_waiting, running, takes_over};

use crate::actions::{Action, ENGINE, NONE, action_at, numbers};
use crate::generator::{Generator, draw_below};
use crate::masks::is_in;

/// The number of groups that have priorities, with the driver's.
pub const MOST_GROUPS: usize = 64;
/// The greatest depth. A greater one counts as this one.
pub const MOST_DEPTH: u32 = 16;
/// A driver that polls doesn't starve the groups: before each read of this number in a row of one place, a group whose
/// priority is lower may go.
const PATIENCE: u32 = 4;

/// The priorities of a run, and how far it is.
#[repr(C)]
#[derive(Clone, Copy)]
pub struct Priorities {
    /// The priority of each group.
    pub groups: [u32; 64],
    /// The events, counted from 1, at which the group of the event gets a new priority: 1 + the index of the change. An
    /// unused change is 0.
    pub changes: [u32; 16],
    /// The number of events so far.
    pub event: u32,
    /// The number of reads in a row of one place, modulo 4.
    pub reads: u32,
    /// What was read last, or 0.
    pub poll: u64,
    /// Whether a group must go before the one that runs.
    pub must_wait: bool,
    /// The group that runs at this place.
    pub runs: u32,
}

/// Returns the priorities of a run by another drawing.
pub(crate) fn no_priorities() -> Priorities {
    Priorities {
        groups: [0; 64],
        changes: [0; 16],
        event: 0,
        reads: 0,
        poll: 0,
        must_wait: false,
        runs: 0,
    }
}

/// Draws the first priorities of `count` groups, and the events among the first `events` at which they change.
pub(crate) fn draw_priorities(
    generator: &mut Generator,
    depth: u32,
    events: u32,
    count: u32,
) -> Priorities {
    let depth = depth.min(MOST_DEPTH);
    let mut drawn = no_priorities();
    for group in 0..count.min(MOST_GROUPS as u32) {
        let other = draw_below(generator, group + 1);
        drawn.groups[group as usize] = drawn.groups[other as usize];
        drawn.groups[other as usize] = depth + group;
    }
    for change in 1..depth {
        drawn.changes[change as usize - 1] = 1 + draw_below(generator, events);
    }
    drawn
}

/// Counts a place, at which the group `runs` runs. Before each fourth read in a row of one place, another group must go.
/// `poll` is 0 if the place is no read, and otherwise equal for reads of one place.
pub(crate) fn see_place(priorities: &mut Priorities, poll: u64, runs: u32) {
    priorities.runs = runs;
    priorities.reads = if poll == 0 {
        0
    } else if poll == priorities.poll {
        priorities.reads.wrapping_add(1) % PATIENCE
    } else {
        1
    };
    priorities.must_wait = poll != 0 && priorities.reads == 0;
    priorities.poll = poll;
}

/// Counts an event of a group. At a change, the group gets a priority below all first priorities.
fn count_event(priorities: &mut Priorities, group: usize)
    requires { group < 64 }
{
    priorities.event = priorities.event.saturating_add(1);
    for change in 0..16 {
        if priorities.changes[change] == priorities.event {
            priorities.groups[group] = change as u32 + 1;
        }
    }
}

/// Returns the group of an action, or 0 if it has none that has a priority.
fn group_at(actions: &[Action], number: u32) -> usize
    ensures within { result < 64 }
    ensures group { result ≡ group_of actions.now number }
{
    let group = action_at(actions, number).group;
    if group < MOST_GROUPS as u32 {
        group as usize
    } else {
        0
    }
}

/// Returns the group that runs: the driver's, if the place names none that has a priority.
fn running_group(priorities: &Priorities) -> usize
    ensures within { result < 64 }
    ensures group { result ≡ running priorities.now }
{
    if priorities.runs < MOST_GROUPS as u32 {
        priorities.runs as usize
    } else {
        0
    }
}

/// Returns whether an action of a group would do something.
fn is_ready(actions: &[Action], possible: u64, count: u32, number: u32) -> bool
    ensures { result ≡ is_waiting actions.now possible count number }
{
    let group = group_at(actions, number);
    is_in(possible, number)
        && action_at(actions, number).drawn == ENGINE
        && 0 < group
        && group < count as usize
}

/// Returns whether an action goes before `first`, which has a smaller number or is [`NONE`].
fn takes_over(
    priorities: &Priorities,
    actions: &[Action],
    possible: u64,
    count: u32,
    first: u32,
    number: u32,
) -> bool
    ensures { result ≡ takes_over priorities.now actions.now possible count first number }
{
    is_ready(actions, possible, count, number)
        && (first == NONE
            || priorities.groups[group_at(actions, first)]
                <= priorities.groups[group_at(actions, number)])
}

/// Returns the action that goes first: of the group with the highest priority, the action with the highest number. If
/// none would do something, returns [`NONE`].
fn first_ready(priorities: &Priorities, actions: &[Action], possible: u64, count: u32) -> u32
    ensures found { result ≢ NONE → is_waiting actions.now possible count result ≡ true }
    ensures highest { (other : ℕ) → is_waiting actions.now possible count other ≡ true
        → (result ≢ NONE) × GoesBefore priorities.now actions.now other result }
{
    let mut first = NONE;
    for number in 0..numbers(actions) {
        if takes_over(priorities, actions, possible, count, first, number) {
            first = number;
        }
    }
    first
}

/// Returns the action that goes next at this place, or [`NONE`] if the group that runs goes on.
pub(crate) fn next_ready(
    priorities: &mut Priorities,
    actions: &[Action],
    possible: u64,
    count: u32,
) -> u32
    ensures found { result ≢ NONE → is_waiting actions.now possible count result ≡ true }
    ensures highest { result ≢ NONE → GoesNext priorities.old actions.now possible count result }
{
    let runs = running_group(priorities);
    let first = first_ready(priorities, actions, possible, count);
    if first == NONE {
        count_event(priorities, runs);
        return NONE;
    }
    let group = group_at(actions, first);
    if !priorities.must_wait && priorities.groups[group] <= priorities.groups[runs] {
        count_event(priorities, runs);
        return NONE;
    }
    priorities.must_wait = false;
    count_event(priorities, group);
    first
}
