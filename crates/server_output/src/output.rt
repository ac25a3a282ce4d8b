// Writes texts, and the lines of answers. `Says` states that the text was written, or at an error a beginning of the
// text.

ghost use Rattle.std.specs.Prelude.{◌≡◌, ◌≤◌, [], IfOk, IsOk, OnErr, OnOk, length, take};
ghost use Rattle.std.specs.Io.KnownBytes.{Appends, Keeps};
ghost use Rattle.server_output.specs.Order.{Says};
ghost use Rattle.server_output.specs.Texts as texts;
ghost use Rattle.server_output.specs.Texts.{Text};
ghost use Rattle.server_requests.specs.Refusals.{refusal_line};

use crate::answer_error::AnswerError;
use crate::faults::Faults;
use crate::lines::{frames_line, joined, number_line};
use base64::engine::general_purpose::STANDARD;
use itoa::Buffer;
use played_adapter::Frames;
use server_requests::Refusal;
use std::alloc::{AllocError, Global};
use std::io::{ErrorKind, Write};
use text::turns;

/// Writes a beginning of a text, with one call of the writer. Returns the number of bytes written, or 0 if the call was
/// interrupted. Fails at any other error of the writer, and if the writer takes no byte, such as of an empty text.
/// Then nothing was written.
fn write_some<W: Write>(out: &mut W, text: &[u8]) -> Result<usize, AnswerError>
    ensures ok { IfOk result (λ count. Appends (W.contents out.old) (W.contents out.new) (take count text.now)) }
    ensures few { IfOk result (λ count. count ≤ length text.now) }
    ensures err { OnErr result (Keeps (W.contents out.old) (W.contents out.new)) }
{
    match out.write(text) {
        Ok(0) => Err(AnswerError::Write),
        Ok(count) => Ok(count),
        Err(error) => if error.kind() == ErrorKind::Interrupted {
            Ok(0)
        } else {
            Err(AnswerError::Write)
        },
    }
}

/// Writes all of a text. At an error, a beginning of the text was written, or nothing.
pub fn say<W: Write>(out: &mut W, text: &[u8]) -> Result<(), AnswerError>
    ensures { Says result (W.contents out.old) (W.contents out.new) text.now }
{
    let mut written = 0;
    for _turn in turns() {
        if written == text.len() {
            return Ok(());
        }
        written += write_some(out, &text[written..])?;
    }
    // The text needed more than 2^64 - 1 turns.
    Err(AnswerError::Write)
}

/// Writes all of a text, or fails and writes nothing if memory for the text was refused. At another error, a beginning
/// of the text was written, or nothing.
pub(crate) fn say_made<W: Write>(
    out: &mut W,
    text: Result<Vec<u8>, AllocError>,
) -> Result<(), AnswerError>
    ensures text { (whole : Text) → IfOk text (λ made. made.items ≡ whole)
        → Says result (W.contents out.old) (W.contents out.new) whole }
    ensures made { OnOk result (IsOk text) }
{
    let text = text?;
    say(out, text.as_slice())
}

/// Writes the parts of a text, in order. At an error, a beginning of the text was written, or nothing.
pub(crate) fn say_parts<W: Write>(
    alloc: Global,
    out: &mut W,
    parts: &[&[u8]],
) -> Result<(), AnswerError>
    ensures { Says result (W.contents out.old) (W.contents out.new) (texts.joined_parts parts.now) }
{
    say_made(out, joined(alloc, parts))
}

/// Writes the line of a refusal.
pub fn refuse<W: Write>(out: &mut W, refusal: Refusal) -> Result<(), AnswerError>
    ensures { Says result (W.contents out.old) (W.contents out.new) (refusal_line refusal) }
{
    say(out, refusal.text())
}

/// Writes the line of an answer with bytes, in hexadecimal digits.
#[tactic(auto, unfolding(crate::specs::Texts::bytes_line))]
pub(crate) fn say_bytes<W: Write>(
    alloc: Global,
    out: &mut W,
    bytes: &[u8],
) -> Result<(), AnswerError>
    ensures { Says result (W.contents out.old) (W.contents out.new) (texts.bytes_line bytes.now) }
{
    let digits = hex::encode(alloc, bytes)?;
    say_parts(alloc, out, &[b"OK 0x", digits.as_bytes(), b"\n"])
}

/// Writes the line of an answer with a number, in 16 hexadecimal digits.
pub fn say_number<W: Write>(out: &mut W, number: u64) -> Result<(), AnswerError>
    ensures { Says result (W.contents out.old) (W.contents out.new) (texts.number_line number) }
{
    say(out, &number_line(number))
}

/// Writes the line of an answer with a word.
#[tactic(auto, unfolding(crate::specs::Texts::word_line))]
pub fn say_word<W: Write>(alloc: Global, out: &mut W, word: &[u8]) -> Result<(), AnswerError>
    ensures { Says result (W.contents out.old) (W.contents out.new) (texts.word_line word.now) }
{
    say_parts(alloc, out, &[b"OK ", word, b"\n"])
}

/// Writes the line of an answer with bytes in base64.
pub(crate) fn say_base64<W: Write>(
    alloc: Global,
    out: &mut W,
    bytes: &[u8],
) -> Result<(), AnswerError>
    ensures { Says result (W.contents out.old) (W.contents out.new) (texts.base64_line bytes.now) }
{
    let word = STANDARD.encode(alloc, bytes)?;
    say_word(alloc, out, word.as_bytes())
}

/// Writes the line of an answer with a decimal number.
pub(crate) fn say_decimal<W: Write>(
    alloc: Global,
    out: &mut W,
    number: u64,
) -> Result<(), AnswerError>
    ensures { Says result (W.contents out.old) (W.contents out.new) (texts.decimal_line number) }
{
    let mut digits = Buffer::new();
    say_word(alloc, out, digits.format(number).as_bytes())
}

/// Writes the line of an answer with frames, the oldest first, and removes the frames. At an error, some or all frames
/// may be lost.
pub fn say_frames<W: Write>(
    alloc: Global,
    out: &mut W,
    frames: &mut Frames,
) -> Result<(), AnswerError>
    ensures text { Says result (W.contents out.old) (W.contents out.new) (texts.frames_line frames.old) }
    ensures none { OnOk result (frames.new ≡ []) }
{
    say_made(out, frames_line(alloc, frames))
}

/// Writes the line of an answer with faults, the oldest first.
pub fn say_faults<W: Write>(alloc: Global, out: &mut W, faults: &Faults) -> Result<(), AnswerError>
    ensures { Says result (W.contents out.old) (W.contents out.new) (texts.faults_line faults.now) }
{
    let words = faults.words(alloc)?;
    say_parts(alloc, out, &[b"OK", words.as_slice(), b"\n"])
}

/// Flushes the output. The bytes that were written don't change, even at an error.
pub fn send<W: Write>(out: &mut W) -> Result<(), AnswerError>
    ensures { Keeps (W.contents out.old) (W.contents out.new) }
{
    match out.flush() {
        Ok(()) => Ok(()),
        Err(_) => Err(AnswerError::Write),
    }
}
