// The words of a line.

ghost use Rattle.std.specs.Prelude.{◌≡◌, ◌<◌, IfOk, IfSome, length, position};
ghost use Rattle.text.specs.Words.{is_same, texts, word, words_after, words_before, words_of};

use std::alloc::{AllocError, Global};

/// Returns the words of a line, which spaces and tabs separate. Returns an error only if an allocation fails.
pub fn words_in<'a>(alloc: Global, line: &'a str) -> Result<Vec<&'a str>, AllocError>
    ensures { IfOk result (λ words. texts words.items ≡ words_of line.entry.now) }
{
    // A part between two neighbouring separators is empty, and isn't a word.
    line.split(' ')
        .flat_map(|part| part.split('\t'))
        .filter(|word| !word.is_empty())
        .collect(alloc)
}

/// Returns the word at this index, counted from 0. The index must be below the number of words.
#[tactic(auto, using(crate::proofs::Slices::at_texts))]
pub fn word_at<'a>(words: &[&'a str], index: usize) -> &'a str
    requires { index < length words.now }
    ensures { result.now ≡ word index (texts words.entry.now) }
{
    words[index]
}

/// Returns the index of the first word that is `mark`. Returns `None` if no word is `mark`.
fn place_of(words: &[&str], mark: &str) -> Option<usize>
    ensures place { result ≡ position (is_same mark.now) (texts words.now) }
    ensures within { IfSome result (λ place. place < length words.now) }
{
    words.iter().position(|word| *word == mark)
}

/// Returns the words before the first word that is `mark`, such as `/`, and the words after this word. If no word is
/// `mark`, the first slice contains all words, and the second is empty.
pub fn split_at_word<'a, 'b>(words: &'b [&'a str], mark: &str) -> (&'b [&'a str], &'b [&'a str])
    ensures before { texts result.0.now ≡ words_before mark.now (texts words.entry.now) }
    ensures after { texts result.1.now ≡ words_after mark.now (texts words.entry.now) }
{
    match place_of(words, mark) {
        Some(place) => (&words[..place], &words[place + 1..]),
        None => words.split_at(words.len()),
    }
}
