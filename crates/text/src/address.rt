// Ethernet addresses.

ghost use Rattle.std.specs.Prelude.{ℕ, List, IfNone, IfSome};
ghost use Rattle.std.specs.Option.{SomeIff};
ghost use Rattle.text.specs.Addresses.{IsHexadecimalDigit, SpellsAddress, SpellsByte, hexadecimal_value};

use crate::number::HEXADECIMAL;

/// The number of bytes of an Ethernet address (IEEE 802.3 3.2.3).
const ADDRESS_BYTES: usize = 6;

/// The number of characters of an address's text: six pairs of digits and five colons.
const ADDRESS_TEXT_LENGTH: usize = 17;

/// Returns the value of a hexadecimal digit in either case. Returns `None` for any other character.
#[tactic(auto, unfolding(crate::specs::Addresses::hexadecimal_value))]
fn hexadecimal_digit(digit: u8) -> Option<u8>
    ensures { SomeIff result (IsHexadecimalDigit digit) (hexadecimal_value digit) }
{
    // The value is below 16, so the cast keeps it.
    let value = char::from(digit).to_digit(HEXADECIMAL)?;
    Some(value as u8)
}

/// Returns the byte that two hexadecimal digits spell, the upper half first. Returns `None` if a character isn't a
/// hexadecimal digit.
fn byte_of(high: u8, low: u8) -> Option<u8>
    ensures spelled { IfSome result (SpellsByte high low) }
    ensures refused { IfNone result ((byte : ℕ) → ¬ SpellsByte high low byte) }
{
    let high = hexadecimal_digit(high)?;
    let low = hexadecimal_digit(low)?;
    Some(high * HEXADECIMAL as u8 + low)
}

/// Returns the address that a text spells: six pairs of hexadecimal digits in either case, joined by colons, such as
/// `02:00:00:00:00:01`. Returns `None` for any other text.
pub fn address_of(text: &str) -> Option<[u8; 6]>
    ensures spelled { IfSome result (SpellsAddress text.now) }
    ensures refused { IfNone result ((address : List ℕ) → ¬ SpellsAddress text.now address) }
{
    let text = text.as_bytes();
    if text.len() != ADDRESS_TEXT_LENGTH {
        return None;
    }
    let mut address = [0; ADDRESS_BYTES];
    for k in 0..ADDRESS_BYTES {
        // Pair `k` begins at character `3 * k`. A colon follows each pair except the last.
        if k + 1 < ADDRESS_BYTES && text[3 * k + 2] != b':' {
            return None;
        }
        address[k] = byte_of(text[3 * k], text[3 * k + 1])?;
    }
    Some(address)
}
