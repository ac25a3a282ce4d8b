//! The words of `serve` that are options of the adapter.
ghost use Rattle.std.specs.Prelude.{◌≡◌, IfOk, false, map, string_bytes};
ghost use Rattle.program_files.specs.Words as spec;

use std::alloc::{AllocError, Global};

/// Returns whether a word is one of the options of `serve` that aren't options of the adapter. Then the next word is
/// the option's value.
fn is_run_option(word: &str) -> bool
    ensures { result ≡ spec.is_run_option word.now }
{
    matches!(word, "--schedule" | "--record" | "--seed")
}

/// Returns whether a word contains both an option and its value, joined by `=`, and the option is one of `serve` that
/// isn't an option of the adapter.
fn has_run_option(word: &str) -> bool
    ensures { result ≡ spec.has_run_option word.now }
{
    match word.split_once('=') {
        Some((name, _)) => is_run_option(name),
        None => false,
    }
}

/// Returns the words that are options of the adapter or their values. The first word is no value of an option.
fn options_in(alloc: Global, words: &[String]) -> Result<Vec<String>, AllocError>
    ensures { IfOk result (λ options. map string_bytes options.items
        ≡ spec.options_in false (map string_bytes words.now)) }
{
    let mut options = Vec::new(alloc);
    // Whether the word is the value of an option that isn't one of the adapter.
    let mut is_value = false;
    for word in words {
        let word = word.as_str();
        if is_value {
            is_value = false;
        } else if is_run_option(word) {
            is_value = true;
        } else if !has_run_option(word) {
            options.push(String::from_str(alloc, word)?)?;
        }
    }
    Ok(options)
}

/// Returns the words that are options of the adapter or their values, in order. The first two words are the program and
/// `serve`. Returns no words if there are fewer than two.
pub fn adapter_options(alloc: Global, words: &[String]) -> Result<Vec<String>, AllocError>
    ensures { IfOk result (λ options. map string_bytes options.items
        ≡ spec.adapter_options (map string_bytes words.now)) }
{
    if words.len() < 2 {
        return Ok(Vec::new(alloc));
    }
    let (_, given) = words.split_at(2);
    options_in(alloc, given)
}
