//! Why a text was refused.

ghost use Rattle.std.specs.Prelude.{◌≡◌};
ghost use Rattle.scenario.specs.Statuses.{refusal_status};
ghost use Rattle.scenario.specs.declared.refusal.Stop.TheVariants as stop;

use std::alloc::{AllocError, AllocFailed};
use thiserror::Error;

/// The fault of a line. If a line has several faults, the first in this order is reported: [`Long`](Fault::Long),
/// [`Text`](Fault::Text), then the others in their order below.
#[derive(Clone, Copy, Debug, PartialEq, Eq, Error)]
pub enum Fault {
    /// The line's first word isn't in the lists above. Correct it, or put # before it
    #[error("E50 Word")]
    Word,
    /// There are too few or too many words, or an option twice. Compare with the list above
    ///
    /// An option without its value is one word too few.
    #[error("E51 Count")]
    Count,
    /// A word doesn't have its form: a decimal number, an address, an even number of up to 8000 hexadecimal digits, a
    /// tick, an option. Compare with the list above
    #[error("E52 Value")]
    Value,
    /// No host above has this name; or the name of a new host is taken; or a host already has 8 sockets, 32 groups or
    /// 32 VLANs. Use the name of a host above, or remove lines
    #[error("E53 Name")]
    Name,
    /// An event comes before this line. Move the line up
    ///
    /// The line is a `host`, `group`, `vlan` or `socket` line.
    #[error("E54 Order")]
    Order,
    /// The line has more than 8192 bytes. Split it
    #[error("E55 Long")]
    Long,
    /// The line isn't UTF-8. Save the scenario as UTF-8
    #[error("E56 Text")]
    Text,
}

/// Why a text was refused.
#[derive(Clone, Copy, Debug, PartialEq, Eq, Error)]
pub enum Refusal {
    /// This line, numbered from 1, is the first faulty line.
    #[error("line {line}: {fault}")]
    Line {
        /// The number of the line.
        line: usize,
        /// The fault of the line.
        fault: Fault,
    },
    /// Memory was refused.
    #[error("E57 Memory")]
    Memory,
}

impl Refusal {
    /// Returns the program's exit status for this refusal.
    pub fn status(&self) -> u8
        ensures { result ≡ refusal_status self.now }
    {
        match self {
            Refusal::Line { line: _, fault: _ } => 1,
            Refusal::Memory => 4,
        }
    }
}

/// Why a line wasn't read.
#[derive(Clone, Copy)]
pub(crate) enum Stop {
    /// The line is faulty.
    Fault(Fault),
    /// Memory was refused.
    Memory,
}

impl Stop {
    ghost use Rattle.scenario.specs.Stops.{refusal_at};

    /// Returns the refusal of a text in which the line with this number wasn't read for this reason. If memory was
    /// refused, the refusal contains no number.
    pub(crate) fn at(self, line: usize) -> Refusal
        ensures { result ≡ refusal_at line self }
    {
        match self {
            Stop::Fault(fault) => Refusal::Line { line, fault },
            Stop::Memory => Refusal::Memory,
        }
    }
}

impl From<Fault> for Stop {
    ghost from_gives = { λ fault stopped. stopped ≡ stop.Fault fault };

    fn from(fault: Fault) -> Stop {
        Stop::Fault(fault)
    }
}

impl From<AllocError> for Stop {
    ghost from_gives = { λ _ stopped. stopped ≡ stop.Memory };

    fn from(_error: AllocError) -> Stop {
        Stop::Memory
    }
}

// An `AllocFailed` contains the value that wasn't stored, such as the item of a `push`. The conversion drops this
// value.
impl<T: Drop> From<AllocFailed<T>> for Stop {
    ghost from_gives = { λ _ stopped. stopped ≡ stop.Memory };

    fn from(_error: AllocFailed<T>) -> Stop {
        Stop::Memory
    }
}
