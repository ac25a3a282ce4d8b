// The calls of C that shrink schedules. Each makes one call of this crate.

ghost use Rattle.std.specs.Prelude.{◌≡◌, ◌≢◌, ◌<◌, ◌≤◌, length, take};
ghost use Rattle.search.specs.Shrinking.{IsSmaller, left_to_try};

use crate::actions::Action;
use crate::deviations::Deviation;
use crate::shrinking::{NO_SCHEDULE, Shrink};

/// Begins to shrink a failing schedule of `count` deviations.
#[unsafe(no_mangle)]
pub extern "C" fn schedule_search_shrink(shrink: &mut Shrink, count: usize)
    ensures { (shrink.new.phase ≡ 0) × (shrink.new.at ≡ 0) }
{
    *shrink = crate::begin_shrink(count);
}

/// Returns the next schedule to play, which is written into `into`, as its number of deviations. `kept` is the failing
/// schedule of which a smaller one is searched. If none is left to try, or `into` is shorter than `kept`, returns
/// [`NO_SCHEDULE`].
#[unsafe(no_mangle)]
pub extern "C" fn schedule_search_shrink_next(
    shrink: &mut Shrink,
    actions: &[Action],
    kept: &[Deviation],
    into: &mut [Deviation],
) -> usize
    ensures smaller { result ≢ NO_SCHEDULE → IsSmaller actions.now kept.now (take result into.new) }
    ensures room { result ≢ NO_SCHEDULE → result ≤ length into.old }

    // As long as no tried schedule fails, less and less is left to try.
    ensures ends { result ≢ NO_SCHEDULE → left_to_try shrink.new < left_to_try shrink.old }
    ensures settles { length kept.now ≤ length into.old → result ≡ NO_SCHEDULE → 3 ≤ shrink.new.phase }
    ensures settled { 3 ≤ shrink.old.phase → (result ≡ NO_SCHEDULE) × (shrink.new ≡ shrink.old) }
{
    crate::next_smaller(shrink, actions, kept, into)
}

/// Notes that the schedule that was tried fails, and that the caller keeps it. `count` of its deviations did something.
#[unsafe(no_mangle)]
pub extern "C" fn schedule_search_shrink_fails(shrink: &mut Shrink, count: usize) {
    crate::tried_fails(shrink, count);
}
