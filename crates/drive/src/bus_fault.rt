// Why a bus stopped.

ghost use Rattle.std.specs.Prelude.{◌≡◌};
ghost use Rattle.drive.specs.Statuses.{bus_status};
ghost use Rattle.drive.specs.declared.bus_fault.BusFault.TheVariants as faults;

use pcap_trace::{ReadError, WriteError};
use std::alloc::AllocError;
use std::io;
use std::io::ErrorKind;
use thiserror::Error;

/// Why a bus stopped: the fault of the first access that failed.
#[derive(Clone, Copy, Debug, PartialEq, Eq, Error)]
pub enum BusFault {
    /// Memory for a request or an answer was refused.
    #[error("E57 Memory")]
    Memory,
    /// A line isn't the answer to a request of drive. Check the program that answers
    #[error("E59 Answer")]
    Answer,
    /// Before the end of the answer's line, the input ended or a read failed.
    #[error("{}", ReadError::Read)]
    Read,
    /// Writing a request failed.
    #[error("{}", WriteError::Write)]
    Write,
}

impl BusFault {
    /// Returns the exit status of a program that this fault ends.
    pub fn status(&self) -> u8
        ensures { result ≡ bus_status self.now }
    {
        match self {
            BusFault::Memory => 4,
            BusFault::Answer => 1,
            BusFault::Read => ReadError::Read.status(),
            BusFault::Write => WriteError::Write.status(),
        }
    }

    /// Returns the fault for an error of reading a line: `Memory` if memory was refused, or else `Read`.
    pub(crate) fn of_reading(error: io::Error) -> BusFault {
        if error.kind() == ErrorKind::OutOfMemory {
            BusFault::Memory
        } else {
            BusFault::Read
        }
    }
}

impl From<AllocError> for BusFault {
    ghost from_gives = { λ _ fault. fault ≡ faults.Memory };

    fn from(_error: AllocError) -> BusFault {
        BusFault::Memory
    }
}
