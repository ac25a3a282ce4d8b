//! Choices, and the path that consists of choices.

ghost use Rattle.std.specs.Prelude.{◌≡◌, ◌+◌, ◌-◌, ◌<◌, ◌≤◌, length};
ghost use Rattle.search.specs.Searches.{first_choice, left_of, next_choice, path_of};
ghost use Rattle.search.specs.Tests.{left_after};

/// The digest of a state, of 128 bits. If `one` is 0, the state never counts as known.
#[repr(C)]
#[derive(Clone, Copy)]
pub struct Key {
    /// The first half of the digest.
    pub one: u64,
    /// The second half.
    pub two: u64,
}

/// A place of a run: its state, and the number of deviations that are possible there.
#[repr(C)]
#[derive(Clone, Copy)]
pub struct Place {
    pub key: Key,
    pub possible: u32,
}

/// A choice: the number that a run takes at a place. In a slice with a path, the oldest choice is first.
#[repr(C)]
#[derive(Clone, Copy)]
pub struct Choice {
    pub place: Place,
    /// The maximum total cost of the deviations at this place and after it.
    pub left: u32,
    /// The number of the deviation, or `possible` for no deviation.
    pub taken: u32,
}

/// An entry: each schedule from the state with this key passes if its deviations cost at most `left`. If `key.one` is
/// 0, the entry is empty.
#[repr(C)]
#[derive(Clone, Copy)]
pub struct Known {
    pub key: Key,
    pub left: u32,
}

/// Returns the maximum total cost of the deviations after a choice: `choice.left` if the choice is no deviation. After
/// a deviation, this is `choice.left` minus `cost`, or 0 if `cost` is greater.
pub(crate) fn after(cost: u32, choice: Choice) -> u32
    ensures { result ≡ left_after cost choice.left choice.place.possible choice.taken }
{
    if choice.taken >= choice.place.possible {
        return choice.left;
    }
    if choice.left < cost {
        return 0;
    }
    choice.left - cost
}

/// Returns the maximum total cost of the deviations after the first `count` choices of a path: before the first choice,
/// `depth`. The path must have at least `count` choices.
pub(crate) fn left(depth: u32, cost: u32, path: &[Choice], count: usize) -> u32
    requires { count ≤ length path.now }
    ensures { result ≡ left_of cost depth (path_of count path.now) }
{
    if count == 0 {
        return depth;
    }
    after(cost, path[count - 1])
}

/// Returns the first choice at a place. If a deviation costs at most `left`, the choice is number 0: the first
/// deviation, or no deviation if none is possible. Otherwise the choice is no deviation.
pub(crate) fn first(cost: u32, left: u32, place: Place) -> Choice
    ensures { result ≡ first_choice cost left place }
{
    Choice {
        place,
        left,
        taken: if left < cost { place.possible } else { 0 },
    }
}

/// Returns the choice of the next number at the same place: another deviation, or no deviation. The argument must be
/// the choice of a deviation, because no number follows that of no deviation.
pub(crate) fn next(choice: Choice) -> Choice
    requires { choice.taken < choice.place.possible }
    ensures { result ≡ next_choice choice }
{
    Choice {
        taken: choice.taken + 1,
        ..choice
    }
}
