//! Reads the program's words.
ghost use Rattle.std.specs.Prelude.{◌≡◌, ◌≢◌, IfErr, IfOk, OnOk, [], map, true};
ghost use Rattle.clap.specs.Words.{found_of, has_subcommand, rows_of, subcommand_rows_of};
ghost use Rattle.command_line.specs.Errors.{IfValue, IfWords, IsRefusalOf, IsRefusedBy};
ghost use Rattle.command_line.specs.Jobs.{HasBounds, IsAskedBy, IsJobOf, IsMisspelledOf};
ghost use Rattle.command_line.specs.Jobs.{IsRefusedIn, IsSubcommand};
ghost use Rattle.command_line.specs.Shape.{found_in, refusals};
ghost use Rattle.command_line.specs.declared.error.LineError.TheVariants.{NotUnicode};

use crate::adapter_jobs::{drive_job, serve_job};
use crate::command::program;
use crate::trace_jobs::{pass_job, run_job};
use crate::values::{invalid, path};
use crate::{Job, LineError, ShowJob, ValueOption};
use clap::ArgMatches;
use std::alloc::Global;
use std::convert::AsStr;

/// Returns the job of the subcommand `name` with these matches. The program must have this subcommand, and the matches
/// must contain the paths that it requires. Fails with an option whose text is invalid, or with `--image` if
/// `--address` is given, too.
fn job_of<'a>(name: &str, matches: &ArgMatches<'a>) -> Result<Job<'a>, ValueOption>
    requires { IsSubcommand name.now (rows_of (found_of matches.now)) }
    ensures bounds { IfOk result HasBounds }
    ensures job { IfOk result (IsJobOf (name.now, rows_of (found_of matches.now))) }
    ensures refused { IfErr result (IsMisspelledOf name.now (rows_of (found_of matches.now))) }
{
    match name {
        "pass" => pass_job(matches),
        "run" => Ok(Job::Run(run_job(matches))),
        "show" => Ok(Job::Show(ShowJob {
            trace: path(matches, "TRACE"),
        })),
        "serve" => serve_job(matches),
        "drive" => drive_job(matches),
        // The precondition excludes other names.
        _ => unreachable!(),
    }
}

/// Returns the matches that clap finds in the words. They contain a subcommand. Fails if clap refuses the words, or if
/// memory is refused.
fn matches_of<'a, S: AsStr>(alloc: Global, words: &'a [S]) -> Result<ArgMatches<'a>, LineError<'a>>
    ensures taken { OnOk result (refusals (map S.text words.entry.now) ≡ []) }
    ensures found { IfOk result (λ matches. has_subcommand matches ≡ true
        × (subcommand_rows_of matches ≡ found_in (map S.text words.entry.now))) }
    ensures refused { IfErr result (IsRefusedBy (refusals (map S.text words.entry.now))) }
{
    let command = program(alloc)?;
    let matches = command.try_get_matches_from(words)?;
    Ok(matches)
}

/// Returns the job that the program's words ask for. The first word is the program's name.
///
/// # Errors
///
/// `Words` if clap refuses the words, or they ask for help or the version; `Value` if the value of an option doesn't
/// have the option's form, or `--image` and `--address` are both given; `Memory` if memory was refused. Never
/// `NotUnicode`.
pub fn line<'a, S: AsStr>(alloc: Global, words: &'a [S]) -> Result<Job<'a>, LineError<'a>>
    ensures job { IfOk result (IsAskedBy (map S.text words.entry.now)) }
    ensures bounds { IfOk result HasBounds }
    ensures words { IfErr result (λ error. IfWords error (IsRefusalOf (map S.text words.entry.now))) }
    ensures value { IfErr result (λ error. IfValue error (IsRefusedIn (map S.text words.entry.now))) }
    ensures unicode { IfErr result (λ error. error ≢ NotUnicode) }
{
    let matches = matches_of(alloc, words)?;
    let (name, found) = matches.subcommand().unwrap();
    match job_of(name, found) {
        Ok(job) => Ok(job),
        Err(option) => Err(LineError::Value(invalid(found, option))),
    }
}
