// Why a text isn't a schedule.

ghost use Rattle.std.specs.Prelude.{◌≡◌};
ghost use Rattle.step_schedules.specs.declared.schedule_error.Stop.TheVariants as stops;

use std::alloc::AllocError;
use thiserror::Error;

/// The fault of a line. If several apply, the first one in this order is reported.
#[derive(Clone, Copy, Debug, PartialEq, Eq, Error)]
pub enum Fault {
    /// The line begins with `options`, but isn't the first line with words.
    #[error("'options' must be the first line, and given once")]
    Options,
    /// The first word is neither a place nor the first word of an action.
    #[error("no place: use ROUND.ACCESS, such as 4.6, or ROUND.0 with a round from 1")]
    Place,
    /// The words before `before` (after the place, if there is one) aren't an action.
    #[error("no deviation: use txtake, txput, rxdata, rxdone, tx, rx, arrive, eeprom, phy, hold eeprom|phy, choose K")]
    Action,
    /// The words after `before` aren't an access, a request that begins a round, or `choose`. Or the last word has no
    /// name, or has a `#` without a number of one to nine digits after it.
    #[error("no access or request is named: end the line with one, such as 'before read ICR' or 'before settle'")]
    Access,
    /// The action `choose K` is before an access or another request, or another action is before `choose`.
    #[error("only 'choose K' is for 'choose', and it is for nothing else: write 'choose 2 before choose'")]
    Choice,
    /// The line has both a place and a number after `#`.
    #[error("use either ROUND.ACCESS or a number after #")]
    PlaceAndNumber,
    /// The place is ROUND.0 before an access or `choose`, or another place before a request that begins a round.
    #[error("before arrive, offer, step or settle, use ROUND.0; before an access or choose, count from 1")]
    RequestPlace,
    /// The line has no place, and no number of at least 1 after `#`.
    #[error("no place and no number: begin the line with ROUND.ACCESS, or end it with a number from 1 after #")]
    NoNumber,
    /// The place is before the place of an earlier line.
    #[error("sort the lines by place")]
    Order,
}

/// Why a text can't be read as a schedule.
#[derive(Clone, Copy, Debug, PartialEq, Eq, Error)]
pub enum ScheduleError {
    /// A line is faulty.
    #[error("line {line}: {fault}")]
    Line {
        /// The number of the first faulty line, from 1.
        line: usize,
        /// The fault of this line.
        fault: Fault,
    },
    /// The text isn't UTF-8.
    #[error("the text isn't UTF-8")]
    Text,
    /// Memory was refused.
    #[error("memory was refused")]
    Memory,
}

/// Why a line can't be read.
#[derive(Clone, Copy)]
pub(crate) enum Stop {
    /// The line is faulty.
    Fault(Fault),
    /// Memory was refused.
    Memory,
}

impl Stop {
    ghost use Rattle.step_schedules.specs.Results.{error_at};

    /// Returns the error of a text in which the line with this number can't be read.
    pub(crate) fn at(self, line: usize) -> ScheduleError
        ensures { result ≡ error_at line self }
    {
        match self {
            Stop::Fault(fault) => ScheduleError::Line { line, fault },
            Stop::Memory => ScheduleError::Memory,
        }
    }
}

impl From<AllocError> for Stop {
    ghost from_gives = { λ _ stopped. stopped ≡ stops.Memory };

    fn from(_error: AllocError) -> Stop {
        Stop::Memory
    }
}
