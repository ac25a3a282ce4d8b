//! Masks of actions: action `n` is bit `n`.

ghost use Rattle.std.specs.Prelude.{◌≡◌, ◌≢◌, ◌==◌, ◌&&◌, ◌||◌, ◌<◌, ℕ, not, false, true};
ghost use Rattle.search.specs.Actions.{action_in, is_of_kind, is_possible};

use crate::actions::{Action, MOST_ACTIONS, NONE, action_at, numbers};
use crate::generator::{Generator, draw_below};

/// Returns whether an action is in a mask.
pub(crate) fn is_in(mask: u64, number: u32) -> bool
    ensures { result ≡ is_possible mask number }
{
    number < MOST_ACTIONS && (mask >> number) & 1 == 1
}

/// Returns a mask with one more action.
pub(crate) fn with(mask: u64, number: u32) -> u64
    requires { number < 64 }
    ensures { (other : ℕ) → is_possible result other ≡ (other == number || is_possible mask other) }
{
    mask | (1 << number)
}

/// Returns a mask without an action.
pub(crate) fn without(mask: u64, number: u32) -> u64
    requires { number < 64 }
    ensures { (other : ℕ) → is_possible result other ≡ (not (other == number) && is_possible mask other) }
{
    mask & !(1 << number)
}

/// Returns the actions that are in both masks.
pub(crate) fn both(one: u64, other: u64) -> u64
    ensures { (number : ℕ) → is_possible result number ≡ (is_possible one number && is_possible other number) }
{
    one & other
}

/// Returns whether an action is in a mask, and is drawn in the way `kind`.
fn is_one(actions: &[Action], mask: u64, kind: u32, number: u32) -> bool
    ensures { result ≡ (is_possible mask number && is_of_kind actions.now kind number) }
{
    is_in(mask, number) && action_at(actions, number).drawn == kind
}

/// Returns the actions of a mask that are drawn in the way `kind`.
pub(crate) fn of_kind(actions: &[Action], mask: u64, kind: u32) -> u64
    requires { kind < 4 }
    ensures { (number : ℕ) → is_possible result number ≡ (is_possible mask number && is_of_kind actions.now kind number) }
{
    let mut found = 0;
    for number in 0..numbers(actions) {
        if is_one(actions, mask, kind, number) {
            found = with(found, number);
        }
    }
    found
}

/// Returns the actions of a mask whose group is in a mask of groups.
pub(crate) fn of_groups(actions: &[Action], mask: u64, groups: u64) -> u64
    ensures { (number : ℕ) → is_possible result number ≡ true
        → (is_possible mask number ≡ true) × (is_possible groups (action_in actions.now number).group ≡ true) }
{
    let mut found = 0;
    for number in 0..numbers(actions) {
        if is_in(mask, number) && is_in(groups, action_at(actions, number).group) {
            found = with(found, number);
        }
    }
    found
}

/// Returns the action of a mask that `index` smaller ones precede. If there are fewer, returns the greatest action, and
/// of an empty mask [`NONE`].
pub(crate) fn at_index(mask: u64, index: u32) -> u32
    ensures found { result ≢ NONE → is_possible mask result ≡ true }
    ensures none { result ≡ NONE → (number : ℕ) → is_possible mask number ≡ false }
{
    let mut found = NONE;
    let mut skipped = 0;
    for number in 0..MOST_ACTIONS {
        if is_in(mask, number) {
            found = number;
            if skipped == index {
                return found;
            }
            skipped += 1;
        }
    }
    found
}

/// Draws an action of a mask, each with the same probability. Of an empty mask, returns [`NONE`].
pub(crate) fn draw_from(generator: &mut Generator, mask: u64) -> u32
    ensures found { result ≢ NONE → is_possible mask result ≡ true }
    ensures none { result ≡ NONE → (number : ℕ) → is_possible mask number ≡ false }
{
    let index = draw_below(generator, mask.count_ones());
    at_index(mask, index)
}
