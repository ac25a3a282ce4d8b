//! The jobs of `pass` and `run`, from clap's matches for their options and files.
ghost use Rattle.std.specs.Prelude.{IfErr, IfOk, codes};
ghost use Rattle.clap.specs.Words.{found_of, rows_of};
ghost use Rattle.command_line.specs.Jobs.{HasBounds, HasFiles, HasScenario, IsJobOf, IsMisspelledOf, IsRunJobOf};
ghost use Rattle.command_line.specs.Jobs.{IsValueOf, text_in};
ghost use Rattle.command_line.specs.Spelling.{SpellsVlan};

use crate::values::{address, flag, number, path, text};
use crate::{Job, PassJob, RunJob, ValueOption};
use clap::ArgMatches;
use receive_lane::PassFilter;

/// Returns the VLAN identifier of `--vlan`, or `None` if `--vlan` isn't given. Fails if the text of `--vlan` isn't a
/// VLAN identifier.
fn vlan(matches: &ArgMatches<'_>) -> Result<Option<u16>, ValueOption>
    ensures value { IfOk result (IsValueOf SpellsVlan (text_in matches.now (codes "vlan"))) }
    ensures refused { IfErr result (IsMisspelledOf (codes "pass") (rows_of (found_of matches.now))) }
{
    match number(matches, ValueOption::Vlan)? {
        // The number is at most 4,095, so the cast doesn't change it.
        Some(vlan) => Ok(Some(vlan as u16)),
        None => Ok(None),
    }
}

/// Returns the job of a `pass` with these matches, which must contain the paths of both files. Fails with an option
/// whose text is invalid.
pub(crate) fn pass_job<'a>(matches: &ArgMatches<'a>) -> Result<Job<'a>, ValueOption>
    requires { HasFiles (rows_of (found_of matches.now)) }
    ensures bounds { IfOk result HasBounds }
    ensures job { IfOk result (IsJobOf (codes "pass", rows_of (found_of matches.now))) }
    ensures refused { IfErr result (IsMisspelledOf (codes "pass") (rows_of (found_of matches.now))) }
{
    Ok(Job::Pass(PassJob {
        filter: PassFilter {
            address: address(matches, ValueOption::Address)?,
            group: address(matches, ValueOption::Group)?,
            vlan: vlan(matches)?,
        },
        input: path(matches, "IN"),
        output: path(matches, "OUT"),
        nanos: flag(matches, "nanos"),
    }))
}

/// Returns the job of a `run` with these matches, which must contain the paths of the scenario and of the folder.
pub(crate) fn run_job<'a>(matches: &ArgMatches<'a>) -> RunJob<'a>
    requires { HasScenario (rows_of (found_of matches.now)) }
    ensures { IsRunJobOf (rows_of (found_of matches.now)) result }
{
    RunJob {
        scenario: path(matches, "SCENARIO"),
        directory: path(matches, "OUTDIR"),
        wires: flag(matches, "wires"),
        nanos: flag(matches, "nanos"),
        events: text(matches, "events"),
    }
}
