//! Whether two jobs of `serve` have the same adapter.
ghost use Rattle.std.specs.Prelude.{◌≡◌, ◌≢◌, ◌↔◌, IfOk, IsTrue, false, map, string_bytes};
ghost use Rattle.command_line.specs.declared.error.LineError.TheVariants.{Memory};
ghost use Rattle.program_files.specs.Adapters as spec;
ghost use Rattle.text.specs.Words.{texts};

use command_line::{Job, LineError, ServeJob, line};
use std::alloc::{AllocError, Global};

/// Returns whether two jobs have the same adapter: all options are equal, except that `--seed`, `--schedule` and
/// `--record` may differ.
fn is_same_adapter(job: &ServeJob<'_>, other: &ServeJob<'_>) -> bool
    ensures { IsTrue result ↔ spec.HaveSameAdapter job.now other.now }
{
    job.memory == other.memory
        && job.registers == other.registers
        && job.image == other.image
        && job.link == other.link
        && job.receive_kilobytes == other.receive_kilobytes
        && job.missed == other.missed
}

/// Returns whether `asked` is a job of `serve` with the adapter of `job`.
fn has_adapter_of(asked: &Job<'_>, job: &ServeJob<'_>) -> bool
    ensures { IsTrue result ↔ spec.HasAdapterOf job.now asked.now }
{
    match asked {
        Job::Serve(asked) => is_same_adapter(asked, job),
        Job::Pass(_) | Job::Run(_) | Job::Show(_) | Job::Drive(_) => false,
    }
}

/// Returns the words of the program that run `serve` with these options.
fn serve_words<'a>(alloc: Global, options: &'a [String]) -> Result<Vec<&'a str>, AllocError>
    ensures { IfOk result (λ words. texts words.items ≡ spec.serve_words (map string_bytes options.entry.now)) }
{
    let mut words = vec![in alloc; "nicbench", "serve"]?;
    for option in options {
        words.push(option.as_str())?;
    }
    Ok(words)
}

/// Returns the answer of [`is_for`] if [`line`] refuses the words with this error: `false`, because the options are
/// invalid. Fails if memory was refused, because then the answer isn't known.
fn answer_to(error: &LineError<'_>) -> Result<bool, AllocError>
    ensures { IfOk result (λ answer. (answer ≡ false) × (error.now ≢ Memory)) }
{
    match error {
        LineError::Memory => Err(AllocError),
        LineError::Words(_) | LineError::Value(_) | LineError::NotUnicode => Ok(false),
    }
}

/// Returns whether these options are for the adapter of this job; `false` if the options are invalid. Fails only if
/// memory was refused.
pub fn is_for(alloc: Global, options: &[String], job: &ServeJob<'_>) -> Result<bool, AllocError>
    ensures { IfOk result (spec.IsSameAdapterAnswer (spec.serve_words (map string_bytes options.now)) job.now) }
{
    let words = serve_words(alloc, options)?;
    match line(alloc, words.as_slice()) {
        Ok(asked) => Ok(has_adapter_of(&asked, job)),
        Err(error) => answer_to(&error),
    }
}
