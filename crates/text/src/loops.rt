// The loops whose number of turns only their input limits.

ghost use Rattle.std.specs.Prelude.{◌≡◌};

use std::ops::Range;

/// Returns the numbers of the turns of a loop that only its input ends, such as a loop over the lines of a stream.
///
/// Each function is proved to return, so each loop needs a bound, here 2^64 - 1 turns. At 10^9 turns a second, they
/// take 584 years. After the last turn, a loop over a stream fails as if the stream had failed, and any other loop
/// ends.
pub fn turns() -> Range<u64>
    ensures { result ≡ record { start = 0; end = u64.MAX } }
{
    0..u64::MAX
}
