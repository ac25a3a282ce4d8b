//! The call of `program_files` that compares adapters, for one job and for two.

ghost use Rattle.std.specs.Prelude.{◌≡◌, IfOk, IsTrue};
ghost use Rattle.program_files.specs.Adapters.{HaveSameAdapter};

use command_line::ServeJob;
use std::alloc::{AllocError, Global};

/// Calls [`program_files::is_for`] twice, for two jobs: options are for both jobs only if both jobs have the same
/// adapter.
pub fn is_for(
    alloc: Global,
    options: &[String],
    job: &ServeJob<'_>,
    other: &ServeJob<'_>,
) -> (Result<bool, AllocError>, Result<bool, AllocError>)
    ensures { IfOk result.0 (λ is. IfOk result.1 (λ also. IsTrue is → IsTrue also
        → HaveSameAdapter job.now other.now)) }
{
    (
        program_files::is_for(alloc, options, job),
        program_files::is_for(alloc, options, other),
    )
}

/// Calls [`program_files::is_for`] twice for one job.
#[tactic(auto, using(crate::proofs::WrongValues::answer_one))]
pub fn is_for_one_job(
    alloc: Global,
    options: &[String],
    job: &ServeJob<'_>,
) -> (Result<bool, AllocError>, Result<bool, AllocError>)
    ensures { IfOk result.0 (λ is. IfOk result.1 (λ also. is ≡ also)) }
{
    (
        program_files::is_for(alloc, options, job),
        program_files::is_for(alloc, options, job),
    )
}
