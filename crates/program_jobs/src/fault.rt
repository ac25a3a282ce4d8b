//! Why the program ended.
ghost use Rattle.std.specs.Prelude.{◌≡◌};
ghost use Rattle.program_jobs.specs.Faults.{IsUsed, fault_status};
ghost use Rattle.scenario.specs.Statuses.{refusal_status};
ghost use Rattle.program_jobs.specs.declared.fault.Fault.TheVariants as faults;

use crate::first_word::first_word;
use adapter_server::ServeError;
use drive::{BusFault, DriveCounts, DriveError};
use pcap_bench::{BenchError, Refusal, WriteError};
use program_files::FileError;
use scenario::Fault as LineFault;
use std::alloc::{AllocError, Global};
use thiserror::Error;

/// Why the program ended. The message is the text that follows `nicbench: ` on the first line of standard error.
#[derive(Debug, Drop, Error)]
pub enum Fault {
    /// An input or an output can't be used.
    #[error(transparent)]
    File(FileError),
    /// SCENARIO is invalid.
    #[error(transparent)]
    Scenario(Refusal),
    /// SCENARIO is invalid: the text is the first word of a line, which no kind of line begins with.
    #[error("{0}")]
    Word(Refusal, String),
    /// The frames of a trace couldn't be passed, or a scenario couldn't be played.
    #[error(transparent)]
    Bench(BenchError),
    /// Standard output can't be written, or an output can't be replaced.
    #[error(transparent)]
    Write(WriteError),
    /// A server ended before the end of its input.
    #[error(transparent)]
    Serve(ServeError),
    /// A drive failed.
    #[error(transparent)]
    Drive(DriveError),
    /// The file of --image of serve doesn't have 128 bytes. Name another file
    #[error("E58 Image")]
    Image,
    /// drive ended before all frames of IN were sent and N were received. Check the adapter, or use a larger --idle
    ///
    /// These are the counts of the drive.
    #[error("E69 Fewer")]
    Fewer(DriveCounts),
    /// Deviations of the schedule of serve weren't met. Standard error lists them
    ///
    /// Each line of the text is a deviation that wasn't met.
    #[error("E71 Unmet")]
    Unmet(String),
    /// The file at this path is an output, and also another file of the run.
    #[error("E73 SameFile")]
    SameFile(String),
    /// Memory was refused for anything else.
    #[error("E57 Memory")]
    Memory,
}

impl Fault {
    /// Returns the fault of a scenario with this text, which was refused. If a line begins with a wrong word, the fault
    /// contains the word, unless there is no memory for it.
    pub(crate) fn refused(alloc: Global, text: &[u8], refusal: Refusal) -> Fault
        ensures { fault_status result ≡ refusal_status refusal }
    {
        let Refusal::Line {
            line,
            fault: LineFault::Word,
        } = refusal
        else {
            return Fault::Scenario(refusal);
        };
        match first_word(alloc, text, line) {
            Ok(Some(word)) => Fault::Word(refusal, word),
            Ok(None) | Err(_) => Fault::Scenario(refusal),
        }
    }

    /// Returns the fault of an output that is also another file of a run, at this path. The fault is `Memory` if there
    /// is no memory for the path.
    pub(crate) fn used(alloc: Global, path: &str) -> Fault
        ensures { IsUsed path.now result }
    {
        match String::from_str(alloc, path) {
            Ok(path) => Fault::SameFile(path),
            Err(_) => Fault::Memory,
        }
    }

    /// Returns the exit status of the program: 4 if memory was refused, 3 if a file or a stream can't be used, and 1
    /// for every other fault.
    pub fn status(&self) -> u8
        ensures { result ≡ fault_status self.now }
    {
        match self {
            Fault::File(error) => error.status(),
            Fault::Scenario(refusal) | Fault::Word(refusal, _) => refusal.status(),
            Fault::Bench(error) => error.status(),
            Fault::Write(error) => error.status(),
            Fault::Serve(error) => error.status(),
            Fault::Drive(error) => error.status(),
            Fault::Image | Fault::Fewer(_) | Fault::Unmet(_) => 1,
            Fault::SameFile(_) => 3,
            Fault::Memory => 4,
        }
    }

    /// Returns whether existing files in OUTDIR are certainly unchanged after a run that ended with this fault. A run
    /// writes these files after its last event, so they can change only if the fault is a failed write.
    pub fn keeps_old_files(&self) -> bool {
        !matches!(
            self,
            Fault::Write(_)
                | Fault::Bench(BenchError::Write(_))
                | Fault::File(FileError::Write)
                | Fault::Serve(ServeError::Write)
                | Fault::Drive(DriveError::Write | DriveError::Bus(BusFault::Write))
        )
    }
}

impl From<FileError> for Fault {
    ghost from_gives = { λ e f. f ≡ faults.File e };

    fn from(error: FileError) -> Fault {
        Fault::File(error)
    }
}

impl From<Refusal> for Fault {
    ghost from_gives = { λ e f. f ≡ faults.Scenario e };

    fn from(refusal: Refusal) -> Fault {
        Fault::Scenario(refusal)
    }
}

impl From<BenchError> for Fault {
    ghost from_gives = { λ e f. f ≡ faults.Bench e };

    fn from(error: BenchError) -> Fault {
        Fault::Bench(error)
    }
}

impl From<WriteError> for Fault {
    ghost from_gives = { λ e f. f ≡ faults.Write e };

    fn from(error: WriteError) -> Fault {
        Fault::Write(error)
    }
}

impl From<ServeError> for Fault {
    ghost from_gives = { λ e f. f ≡ faults.Serve e };

    fn from(error: ServeError) -> Fault {
        Fault::Serve(error)
    }
}

impl From<DriveError> for Fault {
    ghost from_gives = { λ e f. f ≡ faults.Drive e };

    fn from(error: DriveError) -> Fault {
        Fault::Drive(error)
    }
}

impl From<AllocError> for Fault {
    ghost from_gives = { λ _ f. f ≡ faults.Memory };

    fn from(_error: AllocError) -> Fault {
        Fault::Memory
    }
}
