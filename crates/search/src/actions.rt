//! Actions: what may be done at a place, and the table in which a caller describes them.

ghost use Rattle.std.specs.Prelude.{◌≡◌, length, min};
ghost use Rattle.search.specs.Actions.{action_in};

/// No action, no part of a pair, or no group.
pub const NONE: u32 = u32::MAX;
/// The actor of an action that commutes with no other.
pub const FREE: u32 = u32::MAX;
/// The number of actions in a mask. Actions from this number on are never possible.
pub const MOST_ACTIONS: u32 = 64;

/// How an action is drawn: like the steps of an engine, by the mode of the drawing.
pub const ENGINE: u32 = 0;
/// How an action is drawn: once a place with probability 1/2.
pub const HALF: u32 = 1;
/// How an action is drawn: once a place with probability 1/4.
pub const QUARTER: u32 = 2;
/// How an action is drawn: all possible actions of this kind are answers, of which a place has one or none.
pub const ANSWER: u32 = 3;

/// An action: what may be done before an access or a request of a test. In a table of actions, its index is its number.
#[repr(C)]
#[derive(Clone, Copy)]
pub struct Action {
    /// Whose action it is. At one place, actions of two actors commute. An action of [`FREE`] commutes with no other.
    pub actor: u32,
    /// Of a pair, the number of its first action; otherwise [`NONE`].
    pub first: u32,
    /// Of a pair, the number of its second action; otherwise [`NONE`].
    pub second: u32,
    /// How it is drawn: [`ENGINE`], [`HALF`], [`QUARTER`], [`ANSWER`], or any other number if it isn't drawn.
    pub drawn: u32,
    /// The group to which it belongs in bursts and priorities, from 1 on; otherwise [`NONE`].
    pub group: u32,
}

/// The action outside of a table.
const NO_ACTION: Action = Action {
    actor: FREE,
    first: NONE,
    second: NONE,
    drawn: NONE,
    group: NONE,
};

/// Returns the action with this number, or one of [`FREE`] that is no pair if the table has no such number.
pub(crate) fn action_at(actions: &[Action], number: u32) -> Action
    ensures { result ≡ action_in actions.now number }
{
    if (number as usize) < actions.len() {
        actions[number as usize]
    } else {
        NO_ACTION
    }
}

/// Returns the number of actions in a table, but at most [`MOST_ACTIONS`].
pub(crate) fn numbers(actions: &[Action]) -> u32
    ensures { result ≡ min (length actions.now) 64 }
{
    if actions.len() < MOST_ACTIONS as usize {
        actions.len() as u32
    } else {
        MOST_ACTIONS
    }
}
