//! Shrinking: which schedules are tried in place of one that fails.

ghost use Rattle.std.specs.Prelude.{◌≡◌, ◌≢◌, ◌<◌, ◌≤◌, ◌+◌, ◌-◌, ◌*◌, ◌++◌};
ghost use Rattle.std.specs.Prelude.{◌∷◌, [], ℕ, false, if◌then◌else◌, length, slice_range, take, true};
ghost use Rattle.search.specs.Actions.{action_in, is_of_kind};
ghost use Rattle.search.specs.Shrinking.{IsLower, IsSmaller, LacksRun, SmallerIsShorter, deviation_at, left_to_try};
ghost use Rattle.search.specs.Shrinking.{with_action};

use crate::actions::{ANSWER, Action, NONE, action_at, numbers};
use crate::deviations::{Deviation, append, push};

/// What the calls return if no schedule is left to try.
pub const NO_SCHEDULE: usize = usize::MAX;

/// The phases, in their order.
const LEAVE_OUT: u32 = 0;

const LOWER: u32 = 1;

const JOIN: u32 = 2;

const DONE: u32 = 3;

/// The steps of [`LOWER`] at an answer: the lowest one, the one half as high, and the next lower one.
const LOWERED: u32 = 3;
/// The steps of [`JOIN`] at a deviation: the pair at the place of the first deviation, or of the second one.
const JOINED: u32 = 2;

/// How far the shrinking of a schedule is.
#[repr(C)]
#[derive(Clone, Copy)]
pub struct Shrink {
    /// The number of deviations that are left out at once.
    pub part: usize,
    /// The index of the first deviation of the present try.
    pub at: usize,
    pub phase: u32,
    pub step: u32,
    /// Whether a schedule of the present pass has failed.
    pub is_changed: bool,
    /// Whether the present try was returned to the caller.
    pub is_asked: bool,
}

/// Begins to shrink a failing schedule of `count` deviations.
pub fn begin_shrink(count: usize) -> Shrink
    ensures { (result.phase ≡ 0) × (result.at ≡ 0) }
{
    Shrink {
        part: (count / 2).max(1),
        at: 0,
        phase: LEAVE_OUT,
        step: 0,
        is_changed: false,
        is_asked: false,
    }
}

/// Returns the beginning of a phase.
fn at_phase(phase: u32) -> Shrink
    ensures { result ≡ record { part = 1; at = 0; phase = phase; step = 0; is_changed = false; is_asked = false } }
{
    Shrink {
        part: 1,
        at: 0,
        phase,
        step: 0,
        is_changed: false,
        is_asked: false,
    }
}

/// Notes that the schedule that was tried fails, and that the caller keeps it. `count` of its deviations did something.
pub fn tried_fails(shrink: &mut Shrink, count: usize) {
    if shrink.phase == JOIN {
        *shrink = begin_shrink(count);
        return;
    }
    shrink.is_changed = true;
    shrink.is_asked = false;
    shrink.step = 0;
}

/// Moves on to the next run of deviations that is left out. Returns whether there is one.
fn seek_run(shrink: &mut Shrink, count: usize) -> bool
    requires { shrink.old.phase ≡ 0 }
    ensures found { result ≡ true → (shrink.new.at < count) × (0 < shrink.new.part) }
    ensures ends { left_to_try shrink.new < left_to_try shrink.old }
    ensures next { result ≡ false → (shrink.new.phase ≡ 1) × (shrink.new.is_changed ≡ false) }
{
    let at = if shrink.is_asked {
        shrink.at.saturating_add(shrink.part)
    } else {
        shrink.at
    };
    if at < count && 0 < shrink.part {
        shrink.at = at;
        shrink.is_asked = true;
        return true;
    }
    if 0 < count && 1 < shrink.part {
        shrink.part /= 2;
        shrink.at = 0;
        shrink.is_changed = false;
        shrink.is_asked = true;
        return true;
    }
    if 0 < count && shrink.is_changed {
        shrink.part = 1;
        shrink.at = 0;
        shrink.is_changed = false;
        shrink.is_asked = true;
        return true;
    }
    *shrink = at_phase(LOWER);
    false
}

/// Writes a schedule without `part` deviations from `at` on, or without all of these if there are fewer. Returns the
/// number of deviations.
fn write_without(kept: &[Deviation], at: usize, part: usize, into: &mut [Deviation]) -> usize
    requires within { at < length kept.now }
    requires some { 0 < part }
    requires room { length kept.now ≤ length into.old }
    ensures without { LacksRun kept.now (take result into.new) }
    ensures count { result < length kept.now }
{
    let end = if part < kept.len() - at {
        at + part
    } else {
        kept.len()
    };
    append(into, 0, kept, 0, at);
    append(into, at, kept, end, kept.len());
    at + (kept.len() - end)
}

/// Returns whether an action is an answer.
fn is_answer(actions: &[Action], number: u32) -> bool
    ensures { result ≡ is_of_kind actions.now 3 number }
{
    action_at(actions, number).drawn == ANSWER
}

/// Returns the lowest answer below `end`, or else `end`.
fn lowest_answer(actions: &[Action], end: u32) -> u32
    ensures { result ≤ end }
{
    for number in 0..numbers(actions) {
        if number < end && is_answer(actions, number) {
            return number;
        }
    }
    end
}

/// Returns the answer that `step` tries in place of an answer, or [`NONE`] if there is none.
fn lower_answer(actions: &[Action], number: u32, step: u32) -> u32
    ensures { result ≢ NONE → IsLower actions.now number result }
{
    if number == NONE || !is_answer(actions, number) {
        return NONE;
    }
    let lowest = lowest_answer(actions, number);
    if lowest == number {
        return NONE;
    }
    let half = lowest + (number - lowest) / 2;
    let lower = if step == 0 {
        lowest
    } else if step == 1 {
        half
    } else {
        number - 1
    };
    // One of two steps with the same answer is enough.
    let is_again = (step == 1 && half == lowest) || (1 < step && number - 1 == half);
    if is_again || !is_answer(actions, lower) {
        return NONE;
    }
    lower
}

/// Returns the first step from `step` on that tries a lower answer, or [`LOWERED`] if there is none.
fn lowering_step(actions: &[Action], number: u32, step: u32) -> u32
    ensures found { result < LOWERED → step ≤ result }
    ensures most { result ≤ LOWERED }
{
    for next in step..LOWERED {
        if lower_answer(actions, number, next) != NONE {
            return next;
        }
    }
    LOWERED
}

/// Returns the first step of the next try at the present deviation.
fn first_step(shrink: &Shrink) -> u32
    ensures { result < 3 → (3 - result) * 2 < (3 - shrink.now.step) * 2 + (if shrink.now.is_asked then 0 else 1) }
{
    if shrink.is_asked {
        shrink.step.saturating_add(1)
    } else {
        shrink.step
    }
}

/// Moves on to the next answer that is lowered. Returns whether there is one.
fn seek_lower(shrink: &mut Shrink, actions: &[Action], kept: &[Deviation]) -> bool
    ensures found { result ≡ true → shrink.new.at < length kept.now }
    ensures ends { result ≡ true → left_to_try shrink.new < left_to_try shrink.old }
    ensures same { result ≡ false → shrink.new ≡ shrink.old }
{
    let first = first_step(shrink);
    let mut step = first;
    for at in shrink.at..kept.len() {
        let next = lowering_step(actions, kept[at].action, step);
        if next < LOWERED {
            shrink.at = at;
            shrink.step = next;
            shrink.is_asked = true;
            return true;
        }
        step = 0;
    }
    false
}

/// Writes a schedule with another action of the deviation `at`. Returns the number of deviations.
fn write_changed(kept: &[Deviation], at: usize, action: u32, into: &mut [Deviation]) -> usize
    requires within { at < length kept.now }
    requires room { length kept.now ≤ length into.old }
    ensures count { result ≡ length kept.now }
    ensures written { take result into.new ≡ slice_range kept.now 0 at
        ++ with_action (deviation_at kept.now at) action ∷ []
        ++ slice_range kept.now (at + 1) (length kept.now) }
{
    append(into, 0, kept, 0, at);
    push(into, at, Deviation { action, ..kept[at] });
    append(into, at + 1, kept, at + 1, kept.len());
    kept.len()
}

/// Returns the pair of the table that begins with an action, or [`NONE`] if there is none.
fn pair_from(actions: &[Action], first: u32) -> u32
    ensures { result ≢ NONE → (result < length actions.now) × ((action_in actions.now result).first ≡ first) }
{
    if first == NONE {
        return NONE;
    }
    for pair in 0..numbers(actions) {
        if action_at(actions, pair).first == first {
            return pair;
        }
    }
    NONE
}

/// Returns the index of the next deviation after `at` that completes a pair, of which `at` has the first action. If there
/// is none, returns the number of deviations.
fn second_of(actions: &[Action], pair: u32, kept: &[Deviation], at: usize) -> usize
    requires { at < length kept.now }
    ensures most { result ≤ length kept.now }
    ensures found { result < length kept.now → (at < result)
        × ((action_in actions.now pair).second ≡ (deviation_at kept.now result).action) }
{
    if pair == NONE {
        return kept.len();
    }
    let wanted = action_at(actions, pair).second;
    for second in at + 1..kept.len() {
        if kept[second].action == wanted {
            return second;
        }
    }
    kept.len()
}

/// Moves on to the next two deviations that are joined. Returns whether there are such.
fn seek_join(shrink: &mut Shrink, actions: &[Action], kept: &[Deviation]) -> bool
    ensures found { result ≡ true → shrink.new.at < length kept.now }
    ensures ends { result ≡ true → left_to_try shrink.new < left_to_try shrink.old }
    ensures same { result ≡ false → shrink.new ≡ shrink.old }
{
    let first = first_step(shrink);
    let mut step = first;
    for at in shrink.at..kept.len() {
        let pair = pair_from(actions, kept[at].action);
        if step < JOINED && second_of(actions, pair, kept, at) < kept.len() {
            shrink.at = at;
            shrink.step = step;
            shrink.is_asked = true;
            return true;
        }
        step = 0;
    }
    false
}

/// Writes a schedule without the deviation `second`, and with another action of the deviation `first` before it.
fn write_early(
    kept: &[Deviation],
    first: usize,
    second: usize,
    pair: u32,
    into: &mut [Deviation],
) -> usize
    requires order { first < second }
    requires within { second < length kept.now }
    requires room { length kept.now ≤ length into.old }
    ensures count { result + 1 ≡ length kept.now }
    ensures written { take result into.new ≡ slice_range kept.now 0 first
        ++ with_action (deviation_at kept.now first) pair ∷ [] ++ slice_range kept.now (first + 1) second
        ++ slice_range kept.now (second + 1) (length kept.now) }
{
    append(into, 0, kept, 0, first);
    push(
        into,
        first,
        Deviation {
            action: pair,
            ..kept[first]
        },
    );
    append(into, first + 1, kept, first + 1, second);
    append(into, second, kept, second + 1, kept.len());
    kept.len() - 1
}

/// Writes a schedule without the deviation `first`, and with another action of the deviation `second` after it.
fn write_late(
    kept: &[Deviation],
    first: usize,
    second: usize,
    pair: u32,
    into: &mut [Deviation],
) -> usize
    requires order { first < second }
    requires within { second < length kept.now }
    requires room { length kept.now ≤ length into.old }
    ensures count { result + 1 ≡ length kept.now }
    ensures written { take result into.new ≡ slice_range kept.now 0 first
        ++ slice_range kept.now (first + 1) second ++ with_action (deviation_at kept.now second) pair ∷ []
        ++ slice_range kept.now (second + 1) (length kept.now) }
{
    append(into, 0, kept, 0, first);
    append(into, first, kept, first + 1, second);
    push(
        into,
        second - 1,
        Deviation {
            action: pair,
            ..kept[second]
        },
    );
    append(into, second, kept, second + 1, kept.len());
    kept.len() - 1
}

/// Writes the schedule of the present try, in which two deviations are joined. Returns the number of deviations, or
/// [`NO_SCHEDULE`] if there are no such two.
fn write_joined(
    shrink: &Shrink,
    actions: &[Action],
    kept: &[Deviation],
    into: &mut [Deviation],
) -> usize
    requires within { shrink.now.at < length kept.now }
    requires room { length kept.now ≤ length into.old }
    ensures joined { result ≢ NO_SCHEDULE → IsSmaller actions.now kept.now (take result into.new) }
    ensures room { result ≢ NO_SCHEDULE → result ≤ length into.old }
{
    let pair = pair_from(actions, kept[shrink.at].action);
    let second = second_of(actions, pair, kept, shrink.at);
    if pair == NONE || kept.len() <= second {
        return NO_SCHEDULE;
    }
    if shrink.step == 0 {
        write_early(kept, shrink.at, second, pair, into)
    } else {
        write_late(kept, shrink.at, second, pair, into)
    }
}

/// Writes the schedule of the present try, in which an answer is lower. Returns the number of deviations, or
/// [`NO_SCHEDULE`] if there is no such answer.
fn write_lowered(
    shrink: &Shrink,
    actions: &[Action],
    kept: &[Deviation],
    into: &mut [Deviation],
) -> usize
    requires within { shrink.now.at < length kept.now }
    requires room { length kept.now ≤ length into.old }
    ensures lowered { result ≢ NO_SCHEDULE → IsSmaller actions.now kept.now (take result into.new) }
    ensures room { result ≢ NO_SCHEDULE → result ≤ length into.old }
{
    let lower = lower_answer(actions, kept[shrink.at].action, shrink.step);
    if lower == NONE {
        return NO_SCHEDULE;
    }
    write_changed(kept, shrink.at, lower, into)
}

/// Returns the next schedule in which two deviations are joined.
fn next_joined(
    shrink: &mut Shrink,
    actions: &[Action],
    kept: &[Deviation],
    into: &mut [Deviation],
) -> usize
    requires room { length kept.now ≤ length into.old }
    ensures smaller { result ≢ NO_SCHEDULE → IsSmaller actions.now kept.now (take result into.new) }
    ensures room { result ≢ NO_SCHEDULE → result ≤ length into.old }
    ensures ends { result ≢ NO_SCHEDULE → left_to_try shrink.new < left_to_try shrink.old }
    ensures settles { result ≡ NO_SCHEDULE → shrink.new.phase ≡ 3 }
{
    if !seek_join(shrink, actions, kept) {
        shrink.phase = DONE;
        return NO_SCHEDULE;
    }
    let count = write_joined(shrink, actions, kept, into);
    if count == NO_SCHEDULE {
        shrink.phase = DONE;
    }
    count
}

/// Returns the next schedule with a lower answer, or the first one after those.
fn next_lower(
    shrink: &mut Shrink,
    actions: &[Action],
    kept: &[Deviation],
    into: &mut [Deviation],
) -> usize
    requires phase { shrink.old.phase ≡ 1 }
    requires room { length kept.now ≤ length into.old }
    ensures smaller { result ≢ NO_SCHEDULE → IsSmaller actions.now kept.now (take result into.new) }
    ensures room { result ≢ NO_SCHEDULE → result ≤ length into.old }
    ensures ends { result ≢ NO_SCHEDULE → left_to_try shrink.new < left_to_try shrink.old }
    ensures settles { result ≡ NO_SCHEDULE → shrink.new.phase ≡ 3 }
{
    if seek_lower(shrink, actions, kept) {
        let count = write_lowered(shrink, actions, kept, into);
        if count == NO_SCHEDULE {
            shrink.phase = DONE;
        }
        return count;
    }
    if !shrink.is_changed {
        *shrink = at_phase(JOIN);
        return next_joined(shrink, actions, kept, into);
    }
    *shrink = at_phase(LEAVE_OUT);
    if !seek_run(shrink, kept.len()) {
        shrink.phase = DONE;
        return NO_SCHEDULE;
    }
    write_without(kept, shrink.at, shrink.part, into)
}

/// Returns the next schedule to play, which is written into `into`, as its number of deviations. `kept` is the failing
/// schedule of which a smaller one is searched. If none is left to try, or `into` is shorter than `kept`, returns
/// [`NO_SCHEDULE`].
///
/// First, runs of neighbors are left out: halves, then quarters, and so on, and single deviations until none can be left
/// out. Then answers are lowered, and then a deviation and the next one that completes a pair are joined.
pub fn next_smaller(
    shrink: &mut Shrink,
    actions: &[Action],
    kept: &[Deviation],
    into: &mut [Deviation],
) -> usize
    ensures smaller { result ≢ NO_SCHEDULE → IsSmaller actions.now kept.now (take result into.new) }
    ensures room { result ≢ NO_SCHEDULE → result ≤ length into.old }

    // As long as no tried schedule fails, less and less is left to try.
    ensures ends { result ≢ NO_SCHEDULE → left_to_try shrink.new < left_to_try shrink.old }
    ensures settles { length kept.now ≤ length into.old → result ≡ NO_SCHEDULE → 3 ≤ shrink.new.phase }
    ensures settled { 3 ≤ shrink.old.phase → (result ≡ NO_SCHEDULE) × (shrink.new ≡ shrink.old) }
{
    if shrink.phase >= DONE || into.len() < kept.len() {
        return NO_SCHEDULE;
    }
    if shrink.phase == JOIN {
        return next_joined(shrink, actions, kept, into);
    }
    if shrink.phase == LOWER {
        return next_lower(shrink, actions, kept, into);
    }
    if seek_run(shrink, kept.len()) {
        return write_without(kept, shrink.at, shrink.part, into);
    }
    next_lower(shrink, actions, kept, into)
}

/// Law of the schedules that are tried: each has fewer deviations, or as many, of which one is a lower answer.
pub fn smaller_is_shorter()
    ensures { SmallerIsShorter }
{}
