// The fields of two bits in RCTL.

ghost use Rattle.std.specs.Prelude.{◌≡◌};
ghost use Rattle.registers.specs.Bits.{field};
ghost use Rattle.registers.specs.Places.{rctl_bsize, rctl_mo};

use crate::Rctl;
use crate::fields::two_bit_field;

/// Which 12 bits of a group address are its number in the group table (RCTL.MO). An address has bits 47:0; its last
/// byte is bits 47:40.
#[derive(Clone, Copy, PartialEq, Eq, Debug)]
pub enum GroupOffset {
    /// MO 00.
    Bits47To36,
    /// MO 01.
    Bits46To35,
    /// MO 10.
    Bits45To34,
    /// MO 11.
    Bits43To32,
}

impl GroupOffset {
    ghost use Rattle.registers.specs.ReceiveControl.{shift_of};

    /// Returns the number of places by which bits 47:32 of the address are shifted down. The group's number is then in
    /// the low 12 bits.
    pub fn shift(self) -> u32
        ensures { result ≡ shift_of self }
    {
        match self {
            GroupOffset::Bits47To36 => 4,
            GroupOffset::Bits46To35 => 3,
            GroupOffset::Bits45To34 => 2,
            GroupOffset::Bits43To32 => 0,
        }
    }
}

impl Rctl {
    ghost use Rattle.registers.specs.ReceiveControl.{group_offset_of, buffer_size_of};

    /// Returns which bits of a group address are its number, by MO (bits 13:12).
    pub fn group_offset(self) -> GroupOffset
        ensures { result ≡ group_offset_of (field self.0 rctl_mo 2) }
    {
        match two_bit_field(self.0, 12) {
            0 => GroupOffset::Bits47To36,
            1 => GroupOffset::Bits46To35,
            2 => GroupOffset::Bits45To34,
            _ => GroupOffset::Bits43To32,
        }
    }

    /// Returns the size of a receive buffer in bytes that BSIZE (bits 17:16) selects while BSEX is clear.
    pub fn buffer_size(self) -> u16
        ensures { result ≡ buffer_size_of (field self.0 rctl_bsize 2) }
    {
        match two_bit_field(self.0, 16) {
            0 => 2048,
            1 => 1024,
            2 => 512,
            _ => 256,
        }
    }
}
