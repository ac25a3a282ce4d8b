//! The word that begins no kind of line.

use std::alloc::{AllocError, Global};
use std::str;
use text::words_in;

/// Returns the line of a text with this number, from 1, without its line ending: a line feed, and a carriage return
/// before it. Returns `None` if there is no such line.
fn line_at(text: &[u8], line: usize) -> Option<&[u8]> {
    let earlier = line.checked_sub(1)?;
    let mut lines = text.split(|byte| *byte == b'\n').skip(earlier);
    let found = lines.next()?;
    // At the end of the text, a carriage return is part of the line.
    let is_ended = lines.next().is_some();
    match found.strip_suffix(b"\r") {
        Some(rest) if is_ended => Some(rest),
        _ => Some(found),
    }
}

/// Returns the first word of the line of a text with this number, from 1; `None` if the line isn't UTF-8, or has no
/// word. Fails only if memory is refused.
pub(crate) fn first_word(
    alloc: Global,
    text: &[u8],
    line: usize,
) -> Result<Option<String>, AllocError> {
    let Some(line) = line_at(text, line) else {
        return Ok(None);
    };
    let Ok(line) = str::from_utf8(line) else {
        return Ok(None);
    };
    match words_in(alloc, line)?.first() {
        Some(word) => String::from_str(alloc, word).map(Some),
        None => Ok(None),
    }
}
