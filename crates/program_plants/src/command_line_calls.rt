//! The call of `command_line`, made twice. The prover knows only the clauses of a call, so these determine what is
//! compared. The contract leaves open when memory is refused, and which of several wrong values an error names.

ghost use Rattle.std.specs.Prelude.{IfErr, IfOk, OnOk};
ghost use Rattle.command_line.specs.Errors.{IfValue, IfWords};
ghost use Rattle.program_plants.specs.SameJobs.{AreSameJobs};

use command_line::{Job, LineError};
use std::alloc::Global;
use std::convert::AsStr;

/// Calls [`command_line::line`] twice: words request only one job, and words that request a job are refused neither by
/// clap nor for the value of an option.
#[tactic(auto, using(crate::proofs::OneJob::asked_one, crate::proofs::OneJob::asked_not_refused))]
pub fn line<'a, S: AsStr>(
    alloc: Global,
    words: &'a [S],
) -> (
    Result<Job<'a>, LineError<'a>>,
    Result<Job<'a>, LineError<'a>>,
)
    ensures job { IfOk result.0 (λ job. IfOk result.1 (λ other. AreSameJobs job other)) }
    ensures refused { OnOk result.0 (IfErr result.1 (λ error. IfWords error (λ _. ⊥))) }
    ensures value { OnOk result.0 (IfErr result.1 (λ error. IfValue error (λ _. ⊥))) }
{
    (
        command_line::line(alloc, words),
        command_line::line(alloc, words),
    )
}
