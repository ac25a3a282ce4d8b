// Numbers and places that words spell.

ghost use Rattle.std.specs.Prelude.{◌≡◌};
ghost use Rattle.step_schedules.specs.Spellings as spec;

use crate::deviation::Place;
use text::number_in_radix;

/// The maximum number of digits of a number (our choice).
const MOST_DIGITS: usize = 9;

const DECIMAL: u32 = 10;

/// Returns the number that one to nine decimal digits spell, or `None` if the text is anything else.
pub(crate) fn number_of(text: &str) -> Option<u32>
    ensures { result ≡ spec.digits_in text.now }
{
    if text.len() > MOST_DIGITS {
        return None;
    }
    // Nine digits fit in a `u32`, so the conversion doesn't fail.
    u32::try_from(number_in_radix(text, DECIMAL)?).ok()
}

/// Returns the place with these numbers, or `None` for `0.0`, which isn't a place, because no request begins round 0.
fn place_with(round: u32, access: u32) -> Option<Place>
    ensures { result ≡ spec.place_of_numbers round access }
{
    if round == 0 && access == 0 {
        return None;
    }
    Some(Place { round, access })
}

/// Returns the place that a word such as `4.6` spells, or `None` if the word isn't a place.
pub(crate) fn place_of(word: &str) -> Option<Place>
    ensures { result ≡ spec.place_spelled word.now }
{
    let (round, access) = word.split_once('.')?;
    place_with(number_of(round)?, number_of(access)?)
}
