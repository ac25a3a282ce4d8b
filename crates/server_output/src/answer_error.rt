// Why answering a line stopped.

ghost use Rattle.std.specs.Prelude.{◌≡◌};
ghost use Rattle.server_output.specs.declared.answer_error.AnswerError.TheVariants as causes;

use std::alloc::AllocError;

/// Why answering a line stopped. Answering reads no input, so there is no error of reading.
#[derive(Clone, Copy)]
pub enum AnswerError {
    /// Memory was refused.
    Memory,
    /// Writing to the output failed, or the writer took no byte, or there were too many writes of one text.
    Write,
}

impl From<AllocError> for AnswerError {
    ghost from_gives = { λ _ cause. cause ≡ causes.Memory };

    fn from(_error: AllocError) -> AnswerError {
        AnswerError::Memory
    }
}
