// The words of a line.

ghost use Rattle.std.specs.Prelude.{◌≡◌, ◌++◌, ◌∷◌, ◌<◌, [], IfSome, filter, length, position, take};
ghost use Rattle.text.specs.Words.{is_word};
ghost use Rattle.std.specs.List.{slice_split};
ghost use Rattle.server_requests.specs.Reading.{request_in};
ghost use Rattle.server_requests.specs.Words.{is_blank, parts_after, texts, words_of};

use arrayvec::ArrayVec;

/// The maximum number of words that are read from a line. A request has at most four words, so a fifth shows that there
/// are too many.
const READ_WORDS: usize = 5;

/// Returns whether a byte is a space or a tab, which separate words.
fn is_blank(byte: u8) -> bool
    ensures { result ≡ is_blank byte }
{
    byte == b' ' || byte == b'\t'
}

/// Returns the position of the first space or tab, or `None` if there is neither.
fn first_blank(line: &[u8]) -> Option<usize>
    ensures { result ≡ position is_blank line.now }
{
    line.iter().position(|byte| is_blank(*byte))
}

/// Returns the text before the first space or tab, and the text after this byte. Returns the whole line and `None` if
/// there is neither.
fn cut(line: &str) -> (&str, Option<&str>)
    ensures parts { slice_split is_blank line.entry.now ≡ result.0.now ∷ parts_after result.1 }
    ensures shorter { IfSome result.1 (λ later. length later.now < length line.entry.now) }
{
    // A space or a tab is one byte of UTF-8, so both parts are UTF-8.
    match first_blank(line.as_bytes()) {
        Some(end) => (&line[..end], Some(&line[end + 1..])),
        None => (line, None),
    }
}

/// Appends a part of a line to the words, unless the part is empty. There must be room for another word.
fn push_part<'a>(words: &mut ArrayVec<&'a str, READ_WORDS>, part: &'a str)
    requires { length words.old.items < READ_WORDS }
    ensures { texts words.new.items ≡ texts words.old.items ++ filter is_word (part.now ∷ []) }
{
    if !part.is_empty() {
        words.push(part);
    }
}

/// Returns the first five words of a line, or all words if the line has fewer. Spaces and tabs separate words. No
/// request has five words, so these words have the same request, or the same refusal, as all words of the line.
pub(crate) fn words_in(line: &str) -> ArrayVec<&str, READ_WORDS>
    ensures words { texts result.items ≡ take READ_WORDS (words_of line.entry.now) }
    ensures asked { request_in (texts result.items) ≡ request_in (words_of line.entry.now) }
{
    let mut words = ArrayVec::new();
    let mut rest = line;
    while !words.is_full() {
        let (part, later) = cut(rest);
        push_part(&mut words, part);
        match later {
            Some(later) => rest = later,
            None => return words,
        }
    }
    words
}
