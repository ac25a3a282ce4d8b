// Why a server ended before the end of its input.

ghost use Rattle.std.specs.Prelude.{◌≡◌};
ghost use Rattle.adapter_server.specs.declared.serve_error.ServeError.TheVariants as errors;
ghost use Rattle.adapter_server.specs.Causes.{ended_by};
ghost use Rattle.adapter_server.specs.Statuses.{serve_status};

use server_output::AnswerError;
use server_requests::ReadFailed;
use std::alloc::AllocError;
use thiserror::Error;

/// Why a server ended before the end of its input.
#[derive(Clone, Copy, Debug, PartialEq, Eq, Error)]
pub enum ServeError {
    /// Memory was refused.
    #[error("E57 Memory")]
    Memory,
    /// Reading from the input failed, or there were too many lines, or too many reads of one line.
    #[error("E66 Read")]
    Read,
    /// Writing to the output failed, or the writer took no byte, or there were too many writes of one text.
    #[error("E67 Write")]
    Write,
}

impl ServeError {
    /// Returns the exit status of a program that this error ends.
    pub fn status(&self) -> u8
        ensures { result ≡ serve_status self.now }
    {
        match self {
            ServeError::Memory => 4,
            ServeError::Read | ServeError::Write => 3,
        }
    }
}

impl From<AllocError> for ServeError {
    ghost from_gives = { λ _ e. e ≡ errors.Memory };

    fn from(_error: AllocError) -> ServeError {
        ServeError::Memory
    }
}

impl From<ReadFailed> for ServeError {
    ghost from_gives = { λ _ e. e ≡ errors.Read };

    fn from(_error: ReadFailed) -> ServeError {
        ServeError::Read
    }
}

impl From<AnswerError> for ServeError {
    ghost from_gives = { λ cause e. e ≡ ended_by cause };

    fn from(cause: AnswerError) -> ServeError {
        match cause {
            AnswerError::Memory => ServeError::Memory,
            AnswerError::Write => ServeError::Write,
        }
    }
}
