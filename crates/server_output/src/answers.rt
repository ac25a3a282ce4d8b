// The answers to requests that aren't refused, and their lines. `Says` states that the line was written, or at an error
// a beginning of the line.

ghost use Rattle.std.specs.Prelude.{◌≡◌, ◌≤◌, length};
ghost use Rattle.server_output.specs.Answers.{IsSized, line_of, number_of_bytes};
ghost use Rattle.server_output.specs.Order.{Says};

use crate::answer_error::AnswerError;
use crate::output::{say, say_base64, say_bytes, say_decimal, say_number, say_word};
use server_requests::Wanted;
use std::alloc::Global;
use std::io::Write;

/// The maximum number of bytes of a number in an answer.
const MOST_NUMBER_BYTES: usize = 8;

/// An answer without a value, or with a word, a number or bytes.
#[derive(Clone, Copy)]
pub enum Answer<'a> {
    /// No value: only `OK`.
    Done,
    /// A word.
    Word(&'a [u8]),
    /// A number, in 16 hexadecimal digits.
    Number(u64),
    /// A number, in decimal digits.
    Decimal(u64),
    /// Bytes that were read, in the form that the request asks for.
    Bytes(Wanted, &'a [u8]),
}

/// Returns the number with these bytes, at most 8, the lowest first. Missing bytes are 0.
#[tactic(auto, unfolding(crate::specs::Answers::number_of_bytes))]
fn number_of(bytes: &[u8]) -> u64
    requires { length bytes.now ≤ 8 }
    ensures { result ≡ number_of_bytes bytes.now }
{
    let mut all = [0; MOST_NUMBER_BYTES];
    all[..bytes.len()].copy_from_slice(bytes);
    u64::from_le_bytes(all)
}

/// Writes the line of an answer. An answer `Bytes` must contain the number of bytes that its request asks for
/// (`IsSized`). So the bytes of a number are at most 8.
pub fn say_answer<W: Write>(
    alloc: Global,
    out: &mut W,
    answer: Answer<'_>,
) -> Result<(), AnswerError>
    requires { IsSized answer }
    ensures { Says result (W.contents out.old) (W.contents out.new) (line_of answer.entry) }
{
    match answer {
        Answer::Done => say(out, b"OK\n"),
        Answer::Word(word) => say_word(alloc, out, word),
        Answer::Number(number) => say_number(out, number),
        Answer::Decimal(number) => say_decimal(alloc, out, number),
        Answer::Bytes(Wanted::Number(_), bytes) => say_number(out, number_of(bytes)),
        Answer::Bytes(Wanted::Bytes(_), bytes) => say_bytes(alloc, out, bytes),
        Answer::Bytes(Wanted::Base64(_), bytes) => say_base64(alloc, out, bytes),
    }
}
