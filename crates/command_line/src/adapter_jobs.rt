//! The jobs of `serve` and `drive`, from clap's matches for their options.
ghost use Rattle.std.specs.Prelude.{IfErr, IfOk, codes};
ghost use Rattle.clap.specs.Words.{found_of, rows_of};
ghost use Rattle.command_line.specs.Jobs.{HasBounds, HasTraces, IsImageOf, IsJobOf, IsMisspelledAs, IsMisspelledOf};
ghost use Rattle.command_line.specs.Jobs.{IsValueOr, text_in};
ghost use Rattle.command_line.specs.Spelling.{SpellsLink};
ghost use Rattle.command_line.specs.declared.job.ServeLink.TheVariants.{After};
ghost use Rattle.command_line.specs.declared.job.ValueOption.TheVariants.{Link};

use crate::spelling::link_of;
use crate::values::{address, number, number_or, path, text};
use crate::{DriveJob, Job, ServeImage, ServeJob, ServeLink, ValueOption};
use clap::ArgMatches;

/// The number of bytes of memory if `--memory` isn't given: 1 MiB.
const MEMORY: u64 = 1 << 20;

/// The address of the first byte of registers if `--registers` isn't given.
const REGISTERS: u64 = 0xFEB0_0000;

/// The address in the EEPROM of the served adapter if neither `--address` nor `--image` is given.
const ADDRESS: [u8; 6] = [0x02, 0, 0, 0, 0, 0x01];

/// Returns where the served adapter's EEPROM gets its contents: from the file of `--image`, or else from an image of
/// the address of `--address`, by default [`ADDRESS`]. Fails if both options are given, or if the text of `--address`
/// isn't an address.
fn image<'a>(matches: &ArgMatches<'a>) -> Result<ServeImage<'a>, ValueOption>
    ensures value { IfOk result (IsImageOf (rows_of (found_of matches.now))) }
    ensures refused { IfErr result (IsMisspelledOf (codes "serve") (rows_of (found_of matches.now))) }
{
    let Some(file) = text(matches, "image") else {
        let given = address(matches, ValueOption::Address)?;
        return Ok(ServeImage::Address(given.unwrap_or(ADDRESS)));
    };
    match text(matches, "address") {
        Some(_) => Err(ValueOption::Image),
        None => Ok(ServeImage::File(file)),
    }
}

/// Returns the value of `--link`: the ticks of the PHY after which the link of the served adapter is up, or never.
/// Returns one tick if `--link` isn't given. Fails if the text of `--link` doesn't have the option's form.
fn link(matches: &ArgMatches<'_>) -> Result<ServeLink, ValueOption>
    ensures value { IfOk result (IsValueOr SpellsLink (After 1) (text_in matches.now (codes "link"))) }
    ensures refused { IfErr result (IsMisspelledAs Link (rows_of (found_of matches.now))) }
{
    let Some(spelled) = text(matches, "link") else {
        return Ok(ServeLink::After(1));
    };
    match link_of(spelled) {
        Some(link) => Ok(link),
        None => Err(ValueOption::Link),
    }
}

/// Returns the job of a `serve` with these matches. Fails with an option whose text is invalid, or with `--image` if
/// `--address` is given, too.
pub(crate) fn serve_job<'a>(matches: &ArgMatches<'a>) -> Result<Job<'a>, ValueOption>
    ensures bounds { IfOk result HasBounds }
    ensures job { IfOk result (IsJobOf (codes "serve", rows_of (found_of matches.now))) }
    ensures refused { IfErr result (IsMisspelledOf (codes "serve") (rows_of (found_of matches.now))) }
{
    // The forms of `--rxa` and `--missed` bound the numbers, so the casts don't change them. 48 and 0 are defaults.
    Ok(Job::Serve(ServeJob {
        memory: number_or(matches, ValueOption::Memory, MEMORY)?,
        registers: number_or(matches, ValueOption::Registers, REGISTERS)?,
        image: image(matches)?,
        link: link(matches)?,
        receive_kilobytes: number_or(matches, ValueOption::Rxa, 48)? as u8,
        seed: number_or(matches, ValueOption::Seed, 0)?,
        missed: number_or(matches, ValueOption::Missed, 0)? as u32,
        schedule: text(matches, "schedule"),
        record: text(matches, "record"),
    }))
}

/// Returns the job of a `drive` with these matches, which must contain the paths of both traces. Fails with an option
/// whose text is invalid.
pub(crate) fn drive_job<'a>(matches: &ArgMatches<'a>) -> Result<Job<'a>, ValueOption>
    requires { HasTraces (rows_of (found_of matches.now)) }
    ensures bounds { IfOk result HasBounds }
    ensures job { IfOk result (IsJobOf (codes "drive", rows_of (found_of matches.now))) }
    ensures refused { IfErr result (IsMisspelledOf (codes "drive") (rows_of (found_of matches.now))) }
{
    // The forms of `--rx`, `--tx` and `--buffers` bound the numbers, so the casts don't change them. 64 and 512 are
    // defaults.
    Ok(Job::Drive(DriveJob {
        registers: number_or(matches, ValueOption::Registers, REGISTERS)?,
        memory: number_or(matches, ValueOption::Memory, MEMORY)?,
        rx: number_or(matches, ValueOption::Rx, 64)? as u16,
        tx: number_or(matches, ValueOption::Tx, 64)? as u16,
        buffers: number_or(matches, ValueOption::Buffers, 512)? as u16,
        send: path(matches, "send"),
        receive: path(matches, "receive"),
        expect: number(matches, ValueOption::Expect)?,
        idle: number(matches, ValueOption::Idle)?,
    }))
}
