// Reads lines from any reader.

ghost use Rattle.std.specs.Prelude.{◌≡◌, ◌≢◌, ◌<◌, ◌≤◌, All, IfOk, OnErr, OnOk, length, slice_index, take};
ghost use Rattle.std.specs.Prelude.{vec_capacity};
ghost use Rattle.std.specs.Io.KnownBytes.{Keeps};
ghost use Rattle.server_requests.specs.LinesRead.{Adds, BothKnown, IsNextLine, TakesPart, whole_or_long};

use std::io;
use std::io::{BufRead, ErrorKind};
use text::turns;

/// The maximum number of bytes of a line without its LF (our choice): room for a `write` of 65,536 bytes.
pub const MOST_LINE_BYTES: usize = 131_200;

/// The byte that ends a line.
const LINE_FEED: u8 = 0x0A;

/// A read of the input failed, or too many reads didn't reach the end of a line.
#[derive(Clone, Copy)]
pub struct ReadFailed;

/// The result of reading a line.
#[derive(Clone, Copy)]
pub enum NextLine {
    /// The input is at its end: there is no further line.
    End,
    /// A line of at most [`MOST_LINE_BYTES`] bytes.
    Whole,
    /// A line of more than [`MOST_LINE_BYTES`] bytes. Only its first [`MOST_LINE_BYTES`] bytes are kept.
    Long,
}

/// Returns the result of reading a line: `Long` if `is_long` is true, else `Whole`.
fn whole_or_long(is_long: bool) -> NextLine
    ensures { result ≡ whole_or_long is_long }
{
    if is_long {
        NextLine::Long
    } else {
        NextLine::Whole
    }
}

/// The result of reading the next part of a line from a reader's buffer.
#[derive(Clone, Copy)]
enum Part {
    /// The input is at its end: there is no further part.
    None,
    /// Bytes that don't end the line. `is_long` is true if the line had no room for all of them.
    More { is_long: bool },
    /// The last bytes of the line. `is_long` is true if the line had no room for all of them.
    Last { is_long: bool },
}

/// Appends bytes to a line, as far as there is room for them. Returns `true` if there wasn't room for all bytes.
///
/// The line must have at most [`MOST_LINE_BYTES`] bytes, and capacity for this number. So nothing is allocated, and the
/// `unwrap` can't fail.
fn push_bytes(line: &mut Vec<u8>, bytes: &[u8]) -> bool
    requires room { MOST_LINE_BYTES ≤ vec_capacity line.old }
    requires fits { length line.old.items ≤ MOST_LINE_BYTES }
    ensures added { Adds result bytes.now line.old.items line.new.items }
    ensures room { MOST_LINE_BYTES ≤ vec_capacity line.new }
    ensures fits { length line.new.items ≤ MOST_LINE_BYTES }
{
    let room = MOST_LINE_BYTES - line.len();
    let is_long = room < bytes.len();
    let front = &bytes[..room.min(bytes.len())];
    line.extend_from_slice(front).unwrap();
    is_long
}

/// Returns the number of bytes before the first line feed, or of all bytes if there is no line feed.
fn length_before_feed(bytes: &[u8]) -> usize
    ensures bound { result ≤ length bytes.now }
    ensures before { All (λ byte. byte ≢ LINE_FEED) (take result bytes.now) }
    ensures feed { result < length bytes.now → slice_index bytes.now result ≡ LINE_FEED }
{
    let mut count = 0;
    while count < bytes.len() {
        if bytes[count] == LINE_FEED {
            return count;
        }
        count += 1;
    }
    count
}

/// Reads the next part of a line from the reader's buffer, and appends the part as far as there is room. The part ends
/// before the first line feed, or else at the end of the buffer. The line feed is read, too, but not appended.
///
/// At an error of the reader, nothing is read or appended. The line must be as for [`push_bytes`].
fn take_part<R: BufRead>(reader: &mut R, line: &mut Vec<u8>) -> io::Result<Part>
    requires room { MOST_LINE_BYTES ≤ vec_capacity line.old }
    requires fits { length line.old.items ≤ MOST_LINE_BYTES }
    ensures ok { IfOk result (λ part. BothKnown (R.remaining reader.old) (R.remaining reader.new)
        (TakesPart part line.old.items line.new.items)) }
    ensures err { OnErr result (Keeps (R.remaining reader.old) (R.remaining reader.new)) }
    ensures unchanged { OnErr result (line.new.items ≡ line.old.items) }
    ensures room { MOST_LINE_BYTES ≤ vec_capacity line.new }
    ensures fits { length line.new.items ≤ MOST_LINE_BYTES }
{
    let held = match reader.fill_buf() {
        Ok(held) => held,
        Err(error) => return Err(error),
    };
    if held.is_empty() {
        return Ok(Part::None);
    }
    let count = length_before_feed(held);
    let is_long = push_bytes(line, &held[..count]);
    // Without a line feed, `count` is the number of all bytes in the buffer.
    if count == held.len() {
        reader.consume(count);
        return Ok(Part::More { is_long });
    }
    reader.consume(count + 1);
    Ok(Part::Last { is_long })
}

/// Replaces `line` by the next line, without its line feed. At the end of the input, `line` becomes empty.
///
/// Keeps the first [`MOST_LINE_BYTES`] bytes of a longer line, and skips the rest. `line` must have room for
/// [`MOST_LINE_BYTES`] bytes; then no memory is allocated.
///
/// # Errors
///
/// A read failed, except by an interruption; or too many reads (2^64 - 1) didn't reach the end of the line.
pub fn next_line<R: BufRead>(reader: &mut R, line: &mut Vec<u8>) -> Result<NextLine, ReadFailed>
    requires { MOST_LINE_BYTES ≤ vec_capacity line.old }
    ensures next { IfOk result
        (λ next. IsNextLine next line.new.items (R.remaining reader.old) (R.remaining reader.new)) }
    ensures room { OnOk result (MOST_LINE_BYTES ≤ vec_capacity line.new) }
{
    line.clear();
    let mut is_long = false;
    for _turn in turns() {
        match take_part(reader, line) {
            // The last line of the input may have no line feed.
            Ok(Part::None) => return Ok(if line.is_empty() {
                NextLine::End
            } else {
                whole_or_long(is_long)
            }),
            Ok(Part::More { is_long: more }) => is_long |= more,
            Ok(Part::Last { is_long: more }) => return Ok(whole_or_long(is_long | more)),
            // An interrupted read is made again in the next turn.
            Err(error) => if error.kind() != ErrorKind::Interrupted {
                return Err(ReadFailed);
            },
        }
    }
    Err(ReadFailed)
}
