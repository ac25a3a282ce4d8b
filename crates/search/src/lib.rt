//! The search of schedules of a test, as a library for C: which deviation to take next, which states are known, what is
//! drawn, and how a schedule that fails is made smaller.
//!
//! `bindings/c/explore/schedule_search.h` declares the calls. A search has no loop over runs. The caller plays the
//! runs: it calls [`meet`] at each place, and [`back`] after each run. The path of choices and the table of known
//! states are slices that the caller keeps.
#![tactic(auto)]

mod actions;
mod calls;
mod deviations;
mod drawing_calls;
mod draws;
mod generator;
mod known;
mod masks;
mod options;
mod path;
mod priorities;
mod search;
mod shrinking;
mod shrinking_calls;

ghost use Rattle.search.specs.Orders.{AllAreTried, ListsAll};
ghost use Rattle.search.specs.Searches.{RunsPass};

pub use actions::{ANSWER, Action, ENGINE, FREE, HALF, MOST_ACTIONS, NONE, QUARTER};
pub use calls::{
    ANOTHER, ENDED, FULL, GOES, PASSES, REMOVED, schedule_search_back, schedule_search_begin,
    schedule_search_fail, schedule_search_find, schedule_search_grow, schedule_search_meet,
    schedule_search_options,
};
pub use deviations::Deviation;
pub use drawing_calls::{
    schedule_search_draw, schedule_search_draw_next, schedule_search_draw_place,
};
pub use draws::{
    BURSTS, Draw, Drawing, MOST_IN_BURST, PCT, Site, UNIFORM, begin_draw, draw_next, draw_place,
};
pub use generator::Generator;
pub use known::{find, grow};
pub use options::{nothing_is_left_out, write_options};
pub use path::{Choice, Key, Known, Place};
pub use priorities::{MOST_DEPTH, MOST_GROUPS, Priorities};
pub use search::{Met, Search, Step, back, begin, fail, meet};
pub use shrinking::{
    NO_SCHEDULE, Shrink, begin_shrink, next_smaller, smaller_is_shorter, tried_fails,
};
pub use shrinking_calls::{
    schedule_search_shrink, schedule_search_shrink_fails, schedule_search_shrink_next,
};

/// Law of the order in which a search tries the schedules of a test, if no state is known. It holds for each bound on
/// the number of places, after which runs are cut.
///
/// The first run takes the first choice at each place. After each run, the next path takes the next number at the
/// newest place that has one. The next run takes this path, and then the first choice at each later place. These runs,
/// until there is no next path, are exactly the list `schedules`, in order.
pub fn all_are_tried()
    ensures { AllAreTried }
{}

/// Law of the list `schedules`, for each test and each bound `room` on the number of places. The list contains each
/// schedule with at most `room` places. Its other members are longer runs, each cut after `room` places. It contains no
/// run twice.
pub fn lists_all()
    ensures { ListsAll }
{}

/// Law of ended runs. If a run has ended and passes, all schedules that begin with this run pass: the run itself is the
/// only one.
pub fn runs_pass()
    ensures { RunsPass }
{}
