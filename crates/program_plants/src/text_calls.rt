//! The calls that find faults, name targets and write answers, each made twice, and a twin of `read_line`. The prover
//! knows only the clauses of a call, so these determine what is compared. The contracts leave open when memory is
//! refused, and when a write fails.

ghost use Rattle.std.specs.Prelude.{◌≡◌, IfOk, IfSome, OnOk, string_bytes};
ghost use Rattle.server_output.specs.Answers.{IsSized};
ghost use Rattle.server_requests.specs.Reading as reading;

use access_names::{EngineFault, Target};
use adapter::{Machine, StepKind};
use server_output::{Answer, AnswerError};
use server_requests::{Request, Stop};
use std::alloc::{AllocError, Global};
use std::io::Write;

/// Calls [`access_names::fault_of`] twice, with two equal machines.
pub fn fault_of(
    one: &Machine,
    other: &Machine,
    kind: StepKind,
) -> (Option<EngineFault>, Option<EngineFault>)
    requires { one.now ≡ other.now }
    ensures { result.0 ≡ result.1 }
{
    (
        access_names::fault_of(one, kind),
        access_names::fault_of(other, kind),
    )
}

/// Calls [`access_names::memory_target`] twice, with two equal machines.
pub fn memory_target(one: &Machine, other: &Machine, address: u64) -> (Target, Target)
    requires { one.now ≡ other.now }
    ensures { result.0 ≡ result.1 }
{
    (
        access_names::memory_target(one, address),
        access_names::memory_target(other, address),
    )
}

/// Calls `to_string` of a target twice.
pub fn name_of(
    alloc: Global,
    target: Target,
) -> (Result<String, AllocError>, Result<String, AllocError>)
    ensures { IfOk result.0 (λ text. IfOk result.1 (λ same. string_bytes text ≡ string_bytes same)) }
{
    (target.to_string(alloc), target.to_string(alloc))
}

/// A twin of [`server_requests::read_line`]: makes this call once, and returns its result.
pub fn read_line(alloc: Global, line: &[u8]) -> Result<Request, Stop>
    ensures { reading.IsRequestRead line.now result }
{
    match server_requests::read_line(alloc, line) {
        Ok(request) => Ok(request),
        Err(stop) => Err(stop),
    }
}

/// Calls [`server_output::say`] twice, with two writers of the same bytes.
pub fn say<W: Write>(
    one: &mut W,
    other: &mut W,
    text: &[u8],
) -> (Result<(), AnswerError>, Result<(), AnswerError>)
    requires { W.contents one.old ≡ W.contents other.old }
    ensures { IfSome (W.contents one.old)
        (λ _. OnOk result.0 (OnOk result.1 (W.contents one.new ≡ W.contents other.new))) }
{
    (
        server_output::say(one, text),
        server_output::say(other, text),
    )
}

/// Calls [`server_output::say_answer`] twice, with two writers of the same bytes.
pub fn say_answer<W: Write>(
    alloc: Global,
    one: &mut W,
    other: &mut W,
    answer: Answer<'_>,
) -> (Result<(), AnswerError>, Result<(), AnswerError>)
    requires size { IsSized answer }
    requires contents { W.contents one.old ≡ W.contents other.old }
    ensures { IfSome (W.contents one.old)
        (λ _. OnOk result.0 (OnOk result.1 (W.contents one.new ≡ W.contents other.new))) }
{
    (
        server_output::say_answer(alloc, one, answer),
        server_output::say_answer(alloc, other, answer),
    )
}
