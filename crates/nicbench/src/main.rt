//! The program `nicbench`: does the job that a command line asks for, and reports a fault by its code.
#![tactic(auto)]

ghost use Rattle.command_line.specs.Jobs.{HasBounds};

use pcap_bench::{Job, LineError, WriteError, line};
use program_files::{STANDARD_STREAM, StackShortage, find_stack, is_input_piped};
use program_jobs::{Fault, run_drive, run_pass, run_scenario, run_serve, run_show};
use std::env;
use std::io::ErrorKind;
use std::process::ExitCode;

/// Returns whether the words, of which the first is the program's name, ask for `show` and nothing else.
fn asks_for_show_alone(words: &[String]) -> bool {
    words.len() == 2 && words[1].as_str() == "show"
}

/// Adds `-` to the words if they ask for `show` without a trace, and standard input is a pipe.
fn with_piped_trace(
    rt: &HostRuntime,
    mut words: Vec<String>,
) -> Result<Vec<String>, LineError<'static>> {
    if asks_for_show_alone(words.as_slice()) && is_input_piped(rt) {
        let stream = String::from_str(rt.alloc(), STANDARD_STREAM)?;
        if words.push(stream).is_err() {
            return Err(LineError::Memory);
        }
    }
    Ok(words)
}

/// Returns the words that the program was called with, as [`with_piped_trace`] completes them. Fails with `NotUnicode`
/// if a word isn't Unicode. Each other error counts as refused memory.
fn words(rt: &HostRuntime) -> Result<Vec<String>, LineError<'static>> {
    match env::args(rt) {
        Ok(args) => with_piped_trace(rt, args.collect(rt.alloc())?),
        Err(error) if error.kind() == ErrorKind::InvalidData => Err(LineError::NotUnicode),
        Err(_) => Err(LineError::Memory),
    }
}

/// Reports on standard error why the words were refused: the text of the error, or the code of refused memory. Returns
/// the exit status, which doesn't depend on whether standard error accepts the report.
fn refuse(rt: &HostRuntime, error: &LineError<'_>) -> ExitCode {
    let _ = match error {
        LineError::Memory => eprintln!(rt; "nicbench: {error}"),
        LineError::Words(_) | LineError::Value(_) | LineError::NotUnicode => {
            eprint!(rt; "{error}")
        }
    };
    ExitCode::from(error.status())
}

/// Reports a fault on standard error: its code, and then what explains it, if anything. Each line begins with
/// `nicbench: `. Returns the fault's exit status, even if standard error accepts nothing.
fn fail(rt: &HostRuntime, fault: &Fault) -> ExitCode {
    let _ = eprintln!(rt; "nicbench: {fault}");
    fault.explain(rt);
    ExitCode::from(fault.status())
}

/// Reports a fault of a job as [`fail`] does. For `run`, also reports that existing files in OUTDIR are unchanged,
/// unless a write failed.
fn report(rt: &HostRuntime, job: &Job<'_>, fault: &Fault) -> ExitCode {
    let status = fail(rt, fault);
    if matches!(job, Job::Run(_)) && fault.keeps_old_files() {
        let _ = eprintln!(rt; "nicbench: existing files in OUTDIR are unchanged");
    }
    status
}

/// Returns whether the text of an error is the help that the command `help` asks for. The text for an option, such as
/// `--help`, is clap's for standard error.
fn is_help(words: &[String], error: &LineError<'_>) -> bool {
    let is_shown = match error {
        LineError::Words(text) => !text.use_stderr(),
        LineError::Value(_) | LineError::NotUnicode | LineError::Memory => false,
    };
    let is_command = match words.get(1) {
        Some(word) => word.as_str() == "help",
        None => false,
    };
    is_shown && is_command
}

/// Writes the help that the command `help` asks for to standard output. Returns the exit status.
fn show_help(rt: &HostRuntime, help: &LineError<'_>) -> ExitCode {
    match print!(rt; "{help}") {
        Ok(()) => ExitCode::SUCCESS,
        Err(_) => fail(rt, &Fault::Write(WriteError::Write)),
    }
}

/// Does this job, and reports its fault, if any. Returns the exit status. `words` are the words of the command line
/// that asks for the job. In a recorded schedule, `serve` stores the options of its adapter that are among them. The
/// values of the job must be within their bounds, as [`line`] ensures.
fn obey(rt: &HostRuntime, words: &[String], job: &Job<'_>) -> ExitCode
    requires { HasBounds job.now }
{
    let outcome = match job {
        Job::Pass(job) => run_pass(rt, job),
        Job::Run(job) => run_scenario(rt, job),
        Job::Show(job) => run_show(rt, job),
        Job::Serve(job) => run_serve(rt, words, job),
        Job::Drive(job) => run_drive(rt, job),
    };
    match outcome {
        Ok(()) => ExitCode::SUCCESS,
        Err(fault) => report(rt, job, &fault),
    }
}

/// Reports that there isn't enough stack, as refused memory with its reason. Returns the exit status.
fn refuse_stack(rt: &HostRuntime, shortage: StackShortage) -> ExitCode {
    let status = refuse(rt, &LineError::Memory);
    let _ = eprintln!(rt; "nicbench: {shortage}");
    status
}

/// Reads the words that the program was called with, and does the job that they ask for. Returns the exit status.
fn main(rt: HostRuntime) -> ExitCode {
    if let Err(shortage) = find_stack(&rt) {
        return refuse_stack(&rt, shortage);
    }
    let words = match words(&rt) {
        Ok(words) => words,
        Err(error) => return refuse(&rt, &error),
    };
    match line(rt.alloc(), words.as_slice()) {
        Ok(job) => obey(&rt, words.as_slice(), &job),
        Err(error) if is_help(words.as_slice(), &error) => show_help(&rt, &error),
        Err(error) => refuse(&rt, &error),
    }
}
