//! Schedules as lists of deviations, and the writing of changed ones.

ghost use Rattle.std.specs.Prelude.{◌≡◌, ◌<◌, ◌≤◌, ◌+◌, ◌-◌, ◌++◌, ◌∷◌, [], length, slice_range, take};
ghost use Rattle.search.specs.declared.deviations.Deviation.{Deviation};

/// A deviation: an action before an access or a request of a test.
#[repr(C)]
#[derive(Clone, Copy)]
pub struct Deviation {
    pub round: u32,
    /// The number of the access in the round, or 0 for the request that begins the round.
    pub access: u32,
    /// The number of the place after this access, if such places have no number of their own.
    pub sub: u32,
    pub action: u32,
}

/// Writes a deviation after the first `count` ones.
pub(crate) fn push(into: &mut [Deviation], count: usize, deviation: Deviation)
    requires { count < length into.old }
    ensures { take (count + 1) into.new ≡ take count into.old ++ deviation ∷ [] }
{
    into[count] = deviation;
}

/// Writes the deviations `from` .. `to` of a schedule after the first `count` ones.
pub(crate) fn append(
    into: &mut [Deviation],
    count: usize,
    kept: &[Deviation],
    from: usize,
    to: usize,
)
    requires order { from ≤ to }
    requires within { to ≤ length kept.now }
    requires room { count + (to - from) ≤ length into.old }
    ensures { take (count + (to - from)) into.new ≡ take count into.old ++ slice_range kept.now from to }
{
    for n in 0..to - from {
        into[count + n] = kept[from + n];
    }
}
