//! The texts and values of options, flags and paths, from clap's matches for them.
ghost use Rattle.std.specs.Prelude.{◌≡◌, ℕ, IfErr, IfOk, IsSome, List, Some};
ghost use Rattle.clap.specs.Words.{Row, Text, found_of, rows_of};
ghost use Rattle.command_line.specs.Jobs.{IsFlagOf, IsInvalidIn, IsMisspelled, IsMisspelledAs, IsSpelled, IsTextOf};
ghost use Rattle.command_line.specs.Jobs.{IsValueOf, IsValueOr, name_of, text_in};
ghost use Rattle.command_line.specs.Spelling.{SpellsAddressOf, SpellsNumber};

use crate::spelling::{group_of, number_of};
use crate::{InvalidValue, ValueOption};
use clap::ArgMatches;
use text::address_of;

/// Returns the name of an option, without the hyphens.
pub(crate) fn name_of(option: ValueOption) -> &'static str
    ensures { result.now ≡ name_of option }
{
    match option {
        ValueOption::Address => "address",
        ValueOption::Group => "group",
        ValueOption::Vlan => "vlan",
        ValueOption::Memory => "memory",
        ValueOption::Registers => "registers",
        ValueOption::Image => "image",
        ValueOption::Link => "link",
        ValueOption::Rxa => "rxa",
        ValueOption::Seed => "seed",
        ValueOption::Missed => "missed",
        ValueOption::Rx => "rx",
        ValueOption::Tx => "tx",
        ValueOption::Buffers => "buffers",
        ValueOption::Expect => "expect",
        ValueOption::Idle => "idle",
    }
}

/// Returns clap's text for the option, the flag or the path with this name, if there is a text.
pub(crate) fn text<'a>(matches: &ArgMatches<'a>, name: &str) -> Option<&'a str>
    ensures { IsTextOf (text_in matches.now name.now) result }
{
    matches.get_str(name)
}

/// Returns whether the flag with this name is given: then clap's text for the flag is `true`.
pub(crate) fn flag(matches: &ArgMatches<'_>, name: &str) -> bool
    ensures { IsFlagOf (text_in matches.now name.now) result }
{
    text(matches, name) == Some("true")
}

/// Returns the path of a file or a folder, which is the text of the argument with this name. The path must be given.
pub(crate) fn path<'a>(matches: &ArgMatches<'a>, name: &str) -> &'a str
    requires { IsSome (text_in matches.now name.now) }
    ensures { text_in matches.now name.now ≡ Some result.now }
{
    text(matches, name).unwrap()
}

/// Returns an option with its text. The option must be given, and must be refused: its text is invalid for the option,
/// or the option excludes another option that is given.
pub(crate) fn invalid<'a>(matches: &ArgMatches<'a>, option: ValueOption) -> InvalidValue<'a>
    requires { IsMisspelled (rows_of (found_of matches.now)) option }
    ensures option { result.option ≡ option }
    ensures invalid { IsInvalidIn (rows_of (found_of matches.now)) result }
{
    let text = text(matches, name_of(option)).unwrap();
    InvalidValue { option, text }
}

/// Returns the address in the text of an option, or `None` if the option isn't given. Fails with the option if its text
/// doesn't have the option's form. The option must be `--address` or `--group`, whose values are addresses.
pub(crate) fn address(
    matches: &ArgMatches<'_>,
    option: ValueOption,
) -> Result<Option<[u8; 6]>, ValueOption>
    // Each valid text of the option spells an address.
    requires { (rows : List Row) (text : Text) → IsSpelled rows option text
        → (address : List ℕ) × SpellsAddressOf option text address }
    ensures value { IfOk result (IsValueOf (SpellsAddressOf option) (text_in matches.now (name_of option))) }
    ensures refused { IfErr result (IsMisspelledAs option (rows_of (found_of matches.now))) }
{
    let Some(text) = text(matches, name_of(option)) else {
        return Ok(None);
    };
    let address = match option {
        ValueOption::Group => group_of(text),
        _ => address_of(text),
    };
    match address {
        Some(address) => Ok(Some(address)),
        None => Err(option),
    }
}

/// Returns the number in the text of an option, or `None` if the option isn't given. Fails with the option if its text
/// doesn't have the option's form. The option's values must be numbers. So the option isn't `--address`, `--group`,
/// `--image` or `--link`.
pub(crate) fn number(
    matches: &ArgMatches<'_>,
    option: ValueOption,
) -> Result<Option<u64>, ValueOption>
    // Each valid text of the option spells a number.
    requires { (rows : List Row) (text : Text) → IsSpelled rows option text → (n : ℕ) × SpellsNumber option text n }
    ensures value { IfOk result (IsValueOf (SpellsNumber option) (text_in matches.now (name_of option))) }
    ensures refused { IfErr result (IsMisspelledAs option (rows_of (found_of matches.now))) }
{
    let Some(text) = text(matches, name_of(option)) else {
        return Ok(None);
    };
    match number_of(text, option) {
        Some(number) => Ok(Some(number)),
        None => Err(option),
    }
}

/// Returns the number in the text of an option, or `default` if the option isn't given. Fails like [`number`], and has
/// the same precondition.
pub(crate) fn number_or(
    matches: &ArgMatches<'_>,
    option: ValueOption,
    default: u64,
) -> Result<u64, ValueOption>
    // Each valid text of the option spells a number.
    requires { (rows : List Row) (text : Text) → IsSpelled rows option text → (n : ℕ) × SpellsNumber option text n }
    ensures value { IfOk result (IsValueOr (SpellsNumber option) default (text_in matches.now (name_of option))) }
    ensures refused { IfErr result (IsMisspelledAs option (rows_of (found_of matches.now))) }
{
    Ok(number(matches, option)?.unwrap_or(default))
}
