// Why a drive failed.

ghost use Rattle.std.specs.Prelude.{◌≡◌};
ghost use Rattle.drive.specs.Statuses.{drive_status};
ghost use Rattle.drive.specs.declared.drive_error.DriveError.TheVariants as errors;

use crate::BusFault;
use driver::InitError;
use pcap_trace::WriteError;
use std::alloc::AllocError;
use thiserror::Error;

/// Why a drive failed.
#[derive(Clone, Copy, Debug, PartialEq, Eq, Error)]
pub enum DriveError {
    /// Memory was refused.
    #[error("E57 Memory")]
    Memory,
    /// The adapter wasn't initialized, for this reason. Memory wasn't refused, and the bus didn't stop.
    #[error("E46 Init: {0}")]
    Init(InitError),
    /// The bus stopped.
    #[error(transparent)]
    Bus(BusFault),
    /// The sink for received frames failed.
    #[error("{}", WriteError::Write)]
    Write,
}

impl DriveError {
    /// Returns the exit status of a program that this error ends.
    pub fn status(&self) -> u8
        ensures { result ≡ drive_status self.now }
    {
        match self {
            DriveError::Memory => 4,
            DriveError::Init(_) => 1,
            DriveError::Bus(fault) => fault.status(),
            DriveError::Write => WriteError::Write.status(),
        }
    }
}

impl From<AllocError> for DriveError {
    ghost from_gives = { λ _ e. e ≡ errors.Memory };

    fn from(_error: AllocError) -> DriveError {
        DriveError::Memory
    }
}

impl From<WriteError> for DriveError {
    ghost from_gives = { λ _ e. e ≡ errors.Write };

    fn from(_error: WriteError) -> DriveError {
        DriveError::Write
    }
}
