// A link that is up remains up.

ghost use Rattle.bus.specs.Link.{AccessesKeepLink, HappeningsKeepLink, LinkIntervalsJoin};

/// If the PHY's link is up and no command of MDIC is pending, both facts remain true:
/// - `happenings`: whatever happens between two accesses.
/// - `accesses`: after each access except a write of CTRL or MDIC.
/// - `joins`: over two consecutive intervals without a write of CTRL or MDIC, if both facts remain true over each.
pub fn links_stay_up()
    ensures happenings { HappeningsKeepLink }
    ensures accesses { AccessesKeepLink }
    ensures joins { LinkIntervalsJoin }
{}
