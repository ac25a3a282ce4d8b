// Numbers in decimal and hexadecimal digits.

ghost use Rattle.std.specs.Prelude.{◌≡◌, ◌≤◌};
ghost use Rattle.text.specs.Numbers.{number_in, number_spelled};

/// The radix of decimal numbers.
pub const DECIMAL: u32 = 10;

/// The radix of hexadecimal numbers.
pub const HEXADECIMAL: u32 = 16;

/// Returns the number that a text spells in this radix, if the text is one or more digits and the number is below 2^64.
/// Otherwise returns `None`. Digits above 9 are letters of either case. Leading zeros are allowed, a sign isn't. The
/// radix must be from 2 to 36.
#[tactic(auto, using(crate::proofs::Numbers::bad_digit, crate::proofs::Numbers::overflows))]
pub fn number_in_radix(text: &str, radix: u32) -> Option<u64>
    requires low { 2 ≤ radix }
    requires high { radix ≤ 36 }
    ensures { result ≡ number_in radix 64 text.now }
{
    let bytes = text.as_bytes();
    let mut value: u64 = 0;
    for byte in bytes {
        let digit = char::from(*byte).to_digit(radix)?;
        value = value
            .checked_mul(u64::from(radix))?
            .checked_add(u64::from(digit))?;
    }
    if bytes.is_empty() { None } else { Some(value) }
}

/// Returns the number below 2^64 that a text spells: decimal digits, or hexadecimal digits after `0x`. Returns `None`
/// for any other text.
pub fn number_of(text: &str) -> Option<u64>
    ensures { result ≡ number_spelled text.now }
{
    // `x` is no decimal digit, so only a hexadecimal number contains one.
    match text.split_once('x') {
        Some((front, digits)) => if front == "0" {
            number_in_radix(digits, HEXADECIMAL)
        } else {
            None
        },
        None => number_in_radix(text, DECIMAL),
    }
}
