//! Why words were refused, with the text for the user.
ghost use Rattle.std.specs.Prelude.{◌≡◌};
ghost use Rattle.command_line.specs.Errors.{IsFromClap};
ghost use Rattle.command_line.specs.Statuses.{line_status};
ghost use Rattle.command_line.specs.declared.error.LineError.TheVariants.{Memory};

use crate::ValueOption;
use crate::values::name_of;
use clap::error::ErrorKind;
use std::alloc::AllocError;
use thiserror::Error;

/// The last line of the texts that aren't clap's own, as clap writes it.
const FOR_MORE: &str = "For more information, try '--help'.\n";

/// Why words were refused. The text of each variant but `Memory` is the text for standard error, with its last line
/// feed.
#[derive(Debug, Drop, Error)]
pub enum LineError<'a> {
    /// clap refused the words, or the words ask for help or the version. The text is clap's.
    #[error(transparent)]
    Words(clap::Error),
    /// clap accepted the words, but the value of an option doesn't have the option's form, or can't be used with
    /// another option.
    #[error(transparent)]
    Value(InvalidValue<'a>),
    /// A word isn't UTF-8. Only the caller that takes the words from the system returns this, never
    /// [`line`](crate::line). The text has the form of clap's texts.
    #[error("error: invalid UTF-8 was detected in one or more arguments\n\nUsage: nicbench <COMMAND>\n\n{}", FOR_MORE)]
    NotUnicode,
    /// Memory was refused.
    #[error("E57 Memory")]
    Memory,
}

impl LineError<'_> {
    /// Returns the program's exit status for this error.
    pub fn status(&self) -> u8
        ensures { result ≡ line_status self.now }
    {
        match self {
            LineError::Words(_) | LineError::Value(_) | LineError::NotUnicode => 2,
            LineError::Memory => 4,
        }
    }
}

/// A value that doesn't have its option's form, or can't be used with another option. `form_of` contains the quotation
/// mark that closes the option and its value.
#[derive(Clone, Copy, Debug, Error)]
#[error("error: invalid value '{text}' for '--{} {}\n\n{}", name_of(*.option), form_of(*.option), FOR_MORE)]
pub struct InvalidValue<'a> {
    /// The option that the value was given for.
    pub option: ValueOption,
    /// The value as it was given.
    pub text: &'a str,
}

impl<'a> From<clap::Error> for LineError<'a> {
    ghost from_gives = { IsFromClap };

    fn from(error: clap::Error) -> LineError<'a> {
        match error.kind() {
            ErrorKind::OutOfMemory => LineError::Memory,
            _ => LineError::Words(error),
        }
    }
}

impl<'a> From<AllocError> for LineError<'a> {
    ghost from_gives = { λ _ error. error ≡ Memory };

    fn from(_error: AllocError) -> LineError<'a> {
        LineError::Memory
    }
}

/// Returns the end of an error's first line, after the option's name: the name of the option's value in help, and which
/// values are valid. For `--image`, the line ends with the reason why the option was refused. clap itself refuses most
/// numbers of [`Form::Number`](crate::command::Form), but not one with a plus sign, nor an odd number for `--rxa`.
fn form_of(option: ValueOption) -> &'static str {
    match option {
        ValueOption::Address =>
            "<A>': an address is six pairs of hexadecimal digits joined by colons, such as 02:00:00:00:00:01",
        ValueOption::Group =>
            "<G>': a group is an address whose first byte is odd, such as 01:00:5e:00:00:01",
        ValueOption::Memory =>
            "<BYTES>': bytes are a decimal number below 2^64, or a hexadecimal one after 0x, such as 0x100000",
        ValueOption::Registers =>
            "<ADDRESS>': an address is a decimal number below 2^64, or a hexadecimal one after 0x, such as 0xFEB00000",
        ValueOption::Image =>
            "<FILE>': the file contains the address, so --address can't be used with it",
        ValueOption::Link =>
            "<N|never>': ticks are a decimal number from 1 to 65535, such as 1, or 'never'",
        ValueOption::Rxa => "<N>': kilobytes are an even number in decimal digits, such as 48",
        ValueOption::Vlan
        | ValueOption::Seed
        | ValueOption::Missed
        | ValueOption::Rx
        | ValueOption::Tx
        | ValueOption::Buffers
        | ValueOption::Expect
        | ValueOption::Idle => "<N>': a number has only decimal digits, such as 5",
    }
}
