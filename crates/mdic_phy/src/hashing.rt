// How the parts of a state that have variants feed a hasher: a tag for the variant, and then the variant's numbers.

ghost use Rattle.std.specs.Prelude.{◌≡◌, fold};
ghost use Rattle.mdic_phy.specs.Hashed.{link_writes, negotiation_writes, pending_tag};
ghost use Rattle.std.specs.Hash.{u8};

use crate::{Link, Negotiation, Operation};
use std::hash::Hasher;

/// Feeds a tag for the pending command of MDIC: 0 if no command is pending.
pub(crate) fn feed_command<H: Hasher>(pending: Option<Operation>, hasher: &mut H)
    ensures { hasher.new ≡ fold H.write hasher.old (u8 (pending_tag pending)) }
{
    hasher.write_u8(match pending {
        None => 0,
        Some(Operation::Write) => 1,
        Some(Operation::Read) => 2,
    });
}

/// Feeds the setting of the link: a tag of the variant, and then the number of ticks of `After`.
pub(crate) fn feed_link<H: Hasher>(link: Link, hasher: &mut H)
    ensures { hasher.new ≡ fold H.write hasher.old (link_writes link) }
{
    match link {
        Link::After(ticks) => {
            hasher.write_u8(0);
            hasher.write_u16(ticks);
        }
        Link::Never => hasher.write_u8(1),
    }
}

/// Feeds the state of negotiation: a tag of the variant, and then the remaining ticks of `Running`.
pub(crate) fn feed_negotiation<H: Hasher>(negotiation: Negotiation, hasher: &mut H)
    ensures { hasher.new ≡ fold H.write hasher.old (negotiation_writes negotiation) }
{
    match negotiation {
        Negotiation::NotStarted => hasher.write_u8(0),
        Negotiation::Running(ticks) => {
            hasher.write_u8(1);
            hasher.write_u16(ticks);
        }
        Negotiation::Complete => hasher.write_u8(2),
    }
}
