// The lines of a text, and the words of a line.

ghost use Rattle.std.specs.Prelude.{◌≡◌, IfOk, map, string_bytes};
ghost use Rattle.std.specs.List.{prefix_len};
ghost use Rattle.std.specs.Str.Lines.{lines};
ghost use Rattle.step_schedules.specs.Words as spec;

use std::alloc::{AllocError, Global};

/// Returns the lines of a text. Fails only if memory was refused.
pub(crate) fn lines_in<'a>(alloc: Global, text: &'a str) -> Result<Vec<&'a str>, AllocError>
    ensures { IfOk result (λ found. spec.texts found.items ≡ lines text.entry.now) }
{
    text.lines().collect(alloc)
}

/// Returns whether a word doesn't begin a comment: its first character isn't `#`.
fn is_no_comment(word: &str) -> bool
    ensures { result ≡ spec.is_no_comment word.now }
{
    !word.starts_with('#')
}

/// Returns the number of words before the comment of a line, or of all words if there is no comment.
#[tactic(auto, using(std::proofs::lemmas::List::Sums::prefix_len_is))]
fn words_before_comment(words: &[&str]) -> usize
    ensures { result ≡ prefix_len spec.is_no_comment (spec.texts words.now) }
{
    let mut count = 0;
    while count < words.len() && is_no_comment(words[count]) {
        count += 1;
    }
    count
}

/// Returns the words of a line that are before its comment, or all words if there is no comment. Fails only if memory
/// was refused.
pub(crate) fn words_in<'a>(alloc: Global, line: &'a str) -> Result<Vec<&'a str>, AllocError>
    ensures { IfOk result (λ words. spec.texts words.items ≡ spec.words_before_comment line.entry.now) }
{
    let mut words = text::words_in(alloc, line)?;
    words.truncate(words_before_comment(words.as_slice()));
    Ok(words)
}

/// Returns copies of these words, in order. Fails only if memory was refused.
pub(crate) fn strings_of(alloc: Global, words: &[&str]) -> Result<Vec<String>, AllocError>
    ensures { IfOk result (λ copies. map string_bytes copies.items ≡ spec.texts words.now) }
{
    let mut copies = Vec::new(alloc);
    for word in words {
        copies.push(String::from_str(alloc, word)?)?;
    }
    Ok(copies)
}
