//! The plain files of a run, by device and inode. An output must not be another file of the run.

use crate::fault::Fault;
use crate::output_names::OutputNames;
use pcap_bench::{RunJob, Scenario};
use program_files::{STANDARD_INPUT_FILE, STANDARD_STREAM, path_in};
use std::alloc::AllocError;
use std::fs;
use std::os::unix::fs::MetadataExt;

/// A plain file. Two paths lead to one file if its device and its inode are equal.
#[derive(Clone, Copy, PartialEq, Eq)]
pub(crate) struct PlainFile {
    device: u64,
    inode: u64,
}

/// Returns the plain file that a path leads to, or `None` if it leads to no file, or to one of another kind.
fn plain_file(rt: &HostRuntime, path: &str) -> Option<PlainFile> {
    let metadata = fs::metadata(rt, path).ok()?;
    if !metadata.is_file() {
        return None;
    }
    Some(PlainFile {
        device: metadata.dev(),
        inode: metadata.ino(),
    })
}

/// Returns the plain file that a path of an input leads to, as [`plain_file`] does. The path `-` means standard input.
fn input_file(rt: &HostRuntime, path: &str) -> Option<PlainFile> {
    match path {
        STANDARD_STREAM => plain_file(rt, STANDARD_INPUT_FILE),
        _ => plain_file(rt, path),
    }
}

/// Returns whether a path leads to one of these plain files.
pub(crate) fn is_among(rt: &HostRuntime, path: &str, files: &[PlainFile]) -> bool {
    match plain_file(rt, path) {
        Some(file) => files.contains(&file),
        None => false,
    }
}

/// Returns the plain files that a run reads: SCENARIO, and the traces that it feeds. Fails only if memory is refused.
pub(crate) fn inputs(
    rt: &HostRuntime,
    job: &RunJob<'_>,
    scenario: &Scenario,
) -> Result<Vec<PlainFile>, AllocError> {
    let mut files = Vec::new(rt.alloc());
    if let Some(file) = input_file(rt, job.scenario) {
        files.push(file)?;
    }
    for trace in scenario.trace_names() {
        if let Some(file) = input_file(rt, trace.as_str()) {
            files.push(file)?;
        }
    }
    Ok(files)
}

/// Adds the plain files with these names in a folder to a list. Fails (E73) at the first file that is in the list
/// already.
fn add_unused(
    rt: &HostRuntime,
    directory: &str,
    names: &[String],
    files: &mut Vec<PlainFile>,
) -> Result<(), Fault> {
    for name in names {
        let path = path_in(rt.alloc(), directory, name.as_str())?;
        if let Some(file) = plain_file(rt, path.as_str()) {
            if files.contains(&file) {
                return Err(Fault::SameFile(path));
            }
            if files.push(file).is_err() {
                return Err(Fault::Memory);
            }
        }
    }
    Ok(())
}

/// Checks the files in OUTDIR, which must exist. Fails (E73) if one of them is also a file that the run reads, or
/// another of these files, by a link.
pub(crate) fn find_shared(
    rt: &HostRuntime,
    job: &RunJob<'_>,
    scenario: &Scenario,
    names: &OutputNames,
) -> Result<(), Fault> {
    let mut files = inputs(rt, job, scenario)?;
    add_unused(rt, job.directory, names.sockets.as_slice(), &mut files)?;
    add_unused(rt, job.directory, names.wires.as_slice(), &mut files)
}

/// Returns whether a path leads to one of the plain files that a run writes in OUTDIR. Fails only if memory is refused.
pub(crate) fn is_in_folder(
    rt: &HostRuntime,
    path: &str,
    job: &RunJob<'_>,
    names: &OutputNames,
) -> Result<bool, AllocError> {
    Ok(
        is_named(rt, path, job.directory, names.sockets.as_slice())?
            || is_named(rt, path, job.directory, names.wires.as_slice())?,
    )
}

/// Returns whether a path leads to one of the plain files with these names in a folder. Fails only if memory is refused.
fn is_named(
    rt: &HostRuntime,
    path: &str,
    directory: &str,
    names: &[String],
) -> Result<bool, AllocError> {
    let Some(file) = plain_file(rt, path) else {
        return Ok(false);
    };
    for name in names {
        let other = path_in(rt.alloc(), directory, name.as_str())?;
        if plain_file(rt, other.as_str()) == Some(file) {
            return Ok(true);
        }
    }
    Ok(false)
}
