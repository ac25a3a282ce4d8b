//! Why an input or an output can't be used.
ghost use Rattle.std.specs.Prelude.{◌≡◌};
ghost use Rattle.program_files.specs.FileErrors.{file_status, refused_schedule};
ghost use Rattle.program_files.specs.declared.file_error.FileError.TheVariants as errors;

use pcap_trace::{ReadError, WriteError};
use std::alloc::{AllocError, AllocFailed, Global};
use step_schedules::ScheduleError;
use thiserror::Error;

/// Why an input or an output can't be used.
#[derive(Debug, Drop, Error)]
pub enum FileError {
    /// The file at this path can't be opened or created, or the program doesn't accept it, such as a device as an
    /// input.
    #[error("E68 Open")]
    Open(String),
    /// The input at this path isn't a trace, or can't be read.
    #[error("{0}")]
    Input(ReadError, String),
    /// Memory was refused while a trace was read.
    #[error("{}", ReadError::Memory)]
    TraceMemory,
    /// Standard input or a pipe has more than 1 GiB. Copy it to a file first, and name the file
    #[error("E72 Pipe")]
    Pipe,
    /// The file of --schedule of serve isn't a schedule, or is for other options. Correct it, or use the options in its
    /// first line
    ///
    /// It isn't a schedule for this reason, which isn't refused memory.
    #[error("E70 Schedule")]
    Schedule(ScheduleError),
    /// The schedule is for an adapter with other options.
    #[error("E70 Schedule")]
    OtherOptions,
    /// An output can't be written.
    #[error("{}", WriteError::Write)]
    Write,
    /// Memory was refused, but not while a trace was read.
    #[error("E57 Memory")]
    Memory,
}

impl FileError {
    /// Returns the error for a path whose file can't be opened or created. The error is `Memory` if there is no memory
    /// for the path.
    pub fn open(alloc: Global, path: &str) -> FileError {
        match String::from_str(alloc, path) {
            Ok(path) => FileError::Open(path),
            Err(_) => FileError::Memory,
        }
    }

    /// Returns the error for a path whose input isn't a trace, or can't be read. The error is `TraceMemory` if memory
    /// was refused while the trace was read, and `Memory` if there is no memory for the path.
    pub(crate) fn input(alloc: Global, error: ReadError, path: &str) -> FileError {
        if let ReadError::Memory = error {
            return FileError::TraceMemory;
        }
        match String::from_str(alloc, path) {
            Ok(path) => FileError::Input(error, path),
            Err(_) => FileError::Memory,
        }
    }

    /// Returns the exit status of a program that this error ends.
    pub fn status(&self) -> u8
        ensures { result ≡ file_status self.now }
    {
        match self {
            FileError::Input(error, _) => error.status(),
            FileError::TraceMemory => ReadError::Memory.status(),
            FileError::Open(_) | FileError::Pipe => 3,
            FileError::Schedule(_) | FileError::OtherOptions => 1,
            FileError::Write => WriteError::Write.status(),
            FileError::Memory => 4,
        }
    }
}

impl From<ScheduleError> for FileError {
    ghost from_gives = { λ error e. e ≡ refused_schedule error };

    fn from(error: ScheduleError) -> FileError {
        match error {
            ScheduleError::Memory => FileError::Memory,
            ScheduleError::Line { .. } | ScheduleError::Text => FileError::Schedule(error),
        }
    }
}

impl From<AllocError> for FileError {
    ghost from_gives = { λ _ e. e ≡ errors.Memory };

    fn from(_error: AllocError) -> FileError {
        FileError::Memory
    }
}

impl<T: Drop> From<AllocFailed<T>> for FileError {
    ghost from_gives = { λ _ e. e ≡ errors.Memory };

    fn from(_error: AllocFailed<T>) -> FileError {
        FileError::Memory
    }
}
