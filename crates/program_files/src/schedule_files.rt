//! The files of schedules: the schedule that is played, and the schedule that is recorded.

use crate::file_error::FileError;
use crate::files::{create_file, read_file_bytes};
use crate::late_file::LateFile;
use crate::schedule_adapters::is_for;
use crate::schedule_words::adapter_options;
use command_line::ServeJob;
use std::alloc::{AllocError, Global};
use std::fs::OpenFile;
use std::io::{Input, Write};
use std::rt::Files;
use step_schedules::{Player, Schedule};

/// The first line of a recorded schedule.
const COMMENT: &[u8] = b"# recorded by nicbench serve\n";

/// Returns the player of the schedule with this text. Fails with `Schedule` if the text isn't a schedule, and with
/// `OtherOptions` if the schedule is for another adapter than this job's. A schedule without options is for every
/// adapter.
fn player_in(alloc: Global, text: &[u8], job: &ServeJob<'_>) -> Result<Player, FileError> {
    let schedule = Schedule::parse(alloc, text)?;
    let is_for_job = match &schedule.options {
        Some(options) => is_for(alloc, options.as_slice(), job),
        None => Ok(true),
    };
    match is_for_job {
        Ok(true) => Player::playing(alloc, schedule).map_err(FileError::from),
        Ok(false) => Err(FileError::OtherOptions),
        Err(AllocError) => Err(FileError::Memory),
    }
}

/// Returns a player that only records, if the job asks for a record.
fn recording(alloc: Global, job: &ServeJob<'_>) -> Option<Player> {
    match job.record {
        Some(_) => Some(Player::recording(alloc)),
        None => None,
    }
}

/// Returns the player of a server, if the job asks for a schedule or a record. A player of a schedule also records.
/// Fails with `OtherOptions` if the schedule is for another adapter than this job's. The path `-` is refused.
pub fn read_player<R: Files + Input + AllocGlobal>(
    rt: &R,
    job: &ServeJob<'_>,
) -> Result<Option<Player>, FileError> {
    let alloc = rt.alloc();
    let Some(path) = job.schedule else {
        return Ok(recording(alloc, job));
    };
    let bytes = read_file_bytes(rt, path)?;
    player_in(alloc, bytes.as_slice(), job).map(Some)
}

/// Opens the file for the recorded schedule, if the job asks for a record. An existing file keeps its bytes until the
/// schedule is stored.
pub fn open_record<R: Files + AllocGlobal>(
    rt: &R,
    job: &ServeJob<'_>,
) -> Result<Option<LateFile<R::File>>, FileError> {
    match job.record {
        Some(path) => create_file(rt, path).map(Some),
        None => Ok(None),
    }
}

/// Returns a schedule of the steps that were played. `words` are the words of the command line of `serve`. If options
/// of the adapter are among them, the schedule begins with these options.
fn recorded(alloc: Global, words: &[String], player: &Player) -> Result<String, AllocError> {
    let options = adapter_options(alloc, words)?;
    if options.is_empty() {
        player.recorder.recorded(alloc, None)
    } else {
        player.recorder.recorded(alloc, Some(options))
    }
}

/// Stores a schedule of the steps that were played: a comment, the options of the adapter among `words`, the words of
/// the command line of `serve`, and the steps. Without such options, the schedule has no options.
///
/// # Errors
///
/// Returns `Memory` if memory is refused; then nothing was written. Returns `Write` if a write fails; then the file may
/// contain a part of the schedule.
pub fn store<F: OpenFile + Write>(
    alloc: Global,
    file: &mut LateFile<F>,
    words: &[String],
    player: &Player,
) -> Result<(), FileError> {
    let text = recorded(alloc, words, player)?;
    if file.write_all(COMMENT).is_err() || file.write_all(text.as_bytes()).is_err() {
        return Err(FileError::Write);
    }
    Ok(())
}
