// How the parts of a state that have variants feed a hasher: a tag for the variant, and then the variant's numbers.

ghost use Rattle.std.specs.Prelude.{◌≡◌, fold};
ghost use Rattle.eeprom.specs.Hashed.{eerd_writes};

use crate::ReadState;
use std::hash::Hasher;

/// Feeds the state of an EEPROM read: a tag of the variant, and then its address and word, if any.
pub(crate) fn feed_read_state<H: Hasher>(state: ReadState, hasher: &mut H)
    ensures { hasher.new ≡ fold H.write hasher.old (eerd_writes state) }
{
    match state {
        ReadState::Idle => hasher.write_u8(0),
        ReadState::Pending(address) => {
            hasher.write_u8(1);
            hasher.write_u8(address);
        }
        ReadState::Done(address, word) => {
            hasher.write_u8(2);
            hasher.write_u8(address);
            hasher.write_u16(word);
        }
    }
}
