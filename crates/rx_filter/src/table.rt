// Tables with one bit for each number.

ghost use Rattle.std.specs.Prelude.{◌≡◌, ◌<◌, ◌/◌, ◌%◌, ◌^◌, ◌↔◌, IsTrue};
ghost use Rattle.registers.specs.Bits.{HasBit};
ghost use Rattle.rx_filter.specs.Registers.{HasTableBit};

use crate::filter::TABLE_WORDS;

/// The number of bits of the group table, and of the VLAN table: one for each number of 12 bits.
pub(crate) const NUMBERS: u16 = 4096;

/// The number of bits of a word of a table.
const WORD_NUMBERS: u16 = 32;

/// The place of a number's bit in MTA or VFTA.
#[derive(Clone, Copy)]
pub struct TableBit {
    /// The index of the word in the table, 0 to 127.
    pub word: u8,
    /// A word in which only this bit is 1.
    pub mask: u32,
}

impl TableBit {
    /// Returns the place of a number's bit (13.5.1, 13.5.4). The number is below 4,096.
    pub fn of(number: u16) -> TableBit
        requires { number < 4096 }
        ensures word { result.word ≡ number / 32 }
        ensures mask { result.mask ≡ 2 ^ (number % 32) }
    {
        TableBit {
            word: (number / WORD_NUMBERS) as u8,
            mask: 1 << (number % WORD_NUMBERS),
        }
    }
}

/// Returns whether the bit at this place of a word is 1. The place is below 32.
pub(crate) fn has_bit(word: u32, place: u32) -> bool
    requires { place < 32 }
    ensures { IsTrue result ↔ HasBit word place }
{
    (word >> place) % 2 == 1
}

/// Returns whether the bit of this number, which is below 4,096, is 1 in MTA or VFTA.
#[tactic(auto, using(registers::specs::Laws::contains_bit))]
pub(crate) fn has_table_bit(table: &[u32; TABLE_WORDS], number: u16) -> bool
    requires { number < 4096 }
    ensures { IsTrue result ↔ HasTableBit table.now number }
{
    let place = TableBit::of(number);
    table[usize::from(place.word)] & place.mask == place.mask
}
