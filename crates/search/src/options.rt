//! The options at a place: which actions are tried there.

ghost use Rattle.std.specs.Prelude.{◌≡◌, ◌++◌, drop, length, slice_set, take};
ghost use Rattle.search.specs.Actions.{are_pair};
ghost use Rattle.search.specs.Options.{NothingIsLeftOut, is_option, is_tried_after, options};

use crate::actions::{Action, FREE, NONE, action_at, numbers};
use crate::masks::is_in;

/// Returns whether two actions, one after the other, are a pair of the table.
fn are_a_pair(actions: &[Action], first: u32, second: u32) -> bool
    ensures { result ≡ are_pair actions.now first second }
{
    actions
        .iter()
        .any(|pair| pair.first == first && pair.second == second)
}

/// Returns whether an action is tried after `last` at the same place: whether it commutes with no action, or follows
/// an action that doesn't, or its actor isn't smaller and both aren't a pair.
fn is_after(actions: &[Action], last: u32, number: u32) -> bool
    ensures { result ≡ is_tried_after actions.now last number }
{
    let before = action_at(actions, last).actor;
    let here = action_at(actions, number).actor;
    before == FREE || here == FREE || (before <= here && !are_a_pair(actions, last, number))
}

/// Returns whether an action is an option after the action `last` at the same place, or after [`NONE`].
fn is_tried(actions: &[Action], possible: u64, last: u32, is_every: bool, number: u32) -> bool
    ensures { result ≡ is_option actions.now possible last is_every number }
{
    if !is_in(possible, number) {
        return false;
    }
    if is_every {
        return action_at(actions, number).first == NONE;
    }
    last == NONE || is_after(actions, last, number)
}

/// Writes a byte into a slice, if the slice is long enough.
fn put(into: &mut [u8], at: usize, byte: u8)
    ensures { into.new ≡ slice_set into.old at byte }
{
    if at < into.len() {
        into[at] = byte;
    }
}

/// Writes the options at a place into `into`, in ascending order, as far as there is room. Returns their number, at
/// most 64.
///
/// `possible` is the mask of the actions that would do something, and `last` is the last action at this place, or
/// [`NONE`]. If every schedule is searched (`is_every`), all possible actions but pairs are options.
pub fn write_options(
    actions: &[Action],
    possible: u64,
    last: u32,
    is_every: bool,
    into: &mut [u8],
) -> usize
    ensures count { result ≡ length (options actions.now possible last is_every) }
    ensures written { into.new
        ≡ take (length into.old) (options actions.now possible last is_every) ++ drop result into.old }
{
    let mut count = 0;
    for number in 0..numbers(actions) {
        if is_tried(actions, possible, last, is_every, number) {
            put(into, count, number as u8);
            count += 1;
        }
    }
    count
}

/// Law of the options. Each sequence of actions at a place becomes, by exchanges of neighbors of different actors and by
/// joining neighbors to their pair, a sequence that isn't longer, and in which each action is tried after the one before
/// it.
pub fn nothing_is_left_out()
    ensures { NothingIsLeftOut }
{}
