// The law of accesses before which no step is played.

ghost use Rattle.played_adapter.specs.Playing.{QuietAccessesAreExact};

/// Suppose that ticks are off, no steps are drawn, and no scheduled step is due. Then an access is counted, and nothing
/// but the access happens.
pub fn quiet_accesses_are_exact()
    ensures { QuietAccessesAreExact }
{}
