//! The texts of groups, numbers and links in options.
ghost use Rattle.std.specs.Prelude.{◌≤◌, ℕ, List, IfSome, IfNone};
ghost use Rattle.command_line.specs.Spelling.{SpellsDecimal, SpellsGroup, SpellsKilobytes, SpellsLink, SpellsNumber};
ghost use Rattle.command_line.specs.declared.job.ServeLink.{ServeLink};

use crate::{ServeLink, ValueOption};
use text::number_in_radix;

/// The base of decimal numbers.
const DECIMAL: u32 = 10;

/// The bit of an address's first byte that makes it a group address (IEEE 802.3 3.2.3).
const GROUP_BIT: u8 = 1;

/// The highest VLAN identifier of 12 bits (IEEE 802.1Q 9.6).
pub(crate) const HIGHEST_VLAN: u64 = 4095;

/// The smallest receive part of a packet buffer in kilobytes (manual 13.4.16, RXA).
pub(crate) const LEAST_KILOBYTES: u64 = 2;

/// The greatest receive part, in kilobytes.
pub(crate) const MOST_KILOBYTES: u64 = 48;

/// Returns the group address that a text spells: an address whose first byte is odd, such as `01:00:5e:00:00:01`.
/// Returns `None` for any other text, such as an individual address.
pub(crate) fn group_of(text: &str) -> Option<[u8; 6]>
    ensures spelled { IfSome result (SpellsGroup text.now) }
    ensures refused { IfNone result ((address : List ℕ) → ¬ SpellsGroup text.now address) }
{
    let address = text::address_of(text)?;
    if address[0] & GROUP_BIT == 0 {
        return None;
    }
    Some(address)
}

/// Returns the number up to `most` that a text spells: only decimal digits, with or without leading zeros. Returns
/// `None` for any other text, such as a number with a sign.
fn decimal_of(text: &str, most: u64) -> Option<u64>
    ensures spelled { IfSome result (λ n. SpellsDecimal text.now n × (n ≤ most)) }
    ensures refused { IfNone result ((n : ℕ) → SpellsDecimal text.now n → ¬ (n ≤ most)) }
{
    let number = number_in_radix(text, DECIMAL)?;
    if number > most {
        return None;
    }
    Some(number)
}

/// Returns the kilobytes of a receive packet buffer that a text spells: an even number from 2 to 48, in decimal digits.
/// Returns `None` for any other text.
fn kilobytes_of(text: &str) -> Option<u64>
    ensures spelled { IfSome result (SpellsKilobytes text.now) }
    ensures refused { IfNone result ((kilobytes : ℕ) → ¬ SpellsKilobytes text.now kilobytes) }
{
    let kilobytes = number_in_radix(text, DECIMAL)?;
    if kilobytes < LEAST_KILOBYTES || kilobytes > MOST_KILOBYTES || kilobytes % 2 != 0 {
        return None;
    }
    Some(kilobytes)
}

/// Returns the number that a text spells as a value of this option. Returns `None` if the text isn't valid for the
/// option, or if the option's value isn't a number.
///
/// The numbers of `--memory` and `--registers` are decimal, or hexadecimal after `0x`; other numbers are decimal.
pub(crate) fn number_of(text: &str, option: ValueOption) -> Option<u64>
    ensures spelled { IfSome result (SpellsNumber option text.now) }
    ensures refused { IfNone result ((n : ℕ) → ¬ SpellsNumber option text.now n) }
{
    match option {
        ValueOption::Memory | ValueOption::Registers => text::number_of(text),
        ValueOption::Vlan => decimal_of(text, HIGHEST_VLAN),
        ValueOption::Rxa => kilobytes_of(text),
        ValueOption::Seed | ValueOption::Expect | ValueOption::Idle => number_in_radix(
            text, DECIMAL,
        ),
        ValueOption::Missed => decimal_of(text, u32::MAX as u64),
        ValueOption::Rx | ValueOption::Tx | ValueOption::Buffers => decimal_of(
            text,
            u16::MAX as u64,
        ),
        ValueOption::Address | ValueOption::Group | ValueOption::Image | ValueOption::Link => None,
    }
}

/// Returns when a link is up, as a text spells it: `never`, or after 1 to 65,535 ticks, in decimal digits. Returns
/// `None` for any other text.
pub(crate) fn link_of(text: &str) -> Option<ServeLink>
    ensures spelled { IfSome result (SpellsLink text.now) }
    ensures refused { IfNone result ((link : ServeLink) → ¬ SpellsLink text.now link) }
{
    if text == "never" {
        return Some(ServeLink::Never);
    }
    let ticks = decimal_of(text, u16::MAX as u64)?;
    if ticks == 0 {
        return None;
    }
    // The number is at most 65,535, so the cast doesn't change it.
    Some(ServeLink::After(ticks as u16))
}
