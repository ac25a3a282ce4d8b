//! The lines that the server writes, and the calls that write them.
//!
//! Answers have the form of QEMU's `qtest`. The words for events are our choice. [`Lines`] writes what happens to an
//! adapter that is played. [`say`] writes a text. The other calls write the line of one kind of answer, or make a text.
#![tactic(auto)]

mod answer_error;
mod answers;
mod faults;
mod kept;
mod lines;
mod looking;
mod output;
mod telling;

pub use answer_error::AnswerError;
pub use answers::{Answer, say_answer};
pub use faults::Faults;
pub use kept::Kept;
pub use lines::{fate_word, joined, outcome_word, restored_text};
pub use looking::{EnabledSteps, say_enabled, say_rings};
pub use output::{refuse, say, say_faults, say_frames, say_number, say_word, send};
pub use telling::Lines;
