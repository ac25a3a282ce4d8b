//! The file for the lines of events, which must not be another file of the run.
ghost use Rattle.std.specs.Prelude.{◌≡◌, IfOk, IfSome};

use crate::fault::Fault;
use crate::output_names::OutputNames;
use crate::run_files::{inputs, is_among, is_in_folder};
use pcap_bench::{RunJob, Scenario, Sink};
use program_files::{FileSink, STANDARD_STREAM, create};
use std::fs::File;

/// Opens or creates the file at a path as a sink, whose count of failures is 0. An existing file keeps its bytes until
/// the first new byte is written. Fails (E73) if the path leads to a file that the run reads, or writes in OUTDIR; in
/// the second case, a file that was created remains, and is empty.
fn create_unused(
    rt: &HostRuntime,
    path: &str,
    job: &RunJob<'_>,
    scenario: &Scenario,
    names: &OutputNames,
) -> Result<FileSink<File>, Fault>
    ensures { IfOk result (λ sink. ⟦<FileSink<File> as Sink>⟧.failures sink ≡ 0) }
{
    if is_among(rt, path, inputs(rt, job, scenario)?.as_slice()) {
        return Err(Fault::used(rt.alloc(), path));
    }
    // The file is created before the check, so that it finds a new file in OUTDIR, too.
    let sink = create(rt, path)?;
    if is_in_folder(rt, path, job, names)? {
        return Err(Fault::used(rt.alloc(), path));
    }
    Ok(sink)
}

/// Opens or creates the file for the lines of events, if the job names a file. Refuses a file that the run also reads,
/// or writes in OUTDIR. An existing file keeps its bytes until the first new byte is written. Returns `None` if the job
/// asks for no such lines, or if they go to standard output. A sink's count of failures is 0.
pub(crate) fn create_events_sink(
    rt: &HostRuntime,
    job: &RunJob<'_>,
    scenario: &Scenario,
    names: &OutputNames,
) -> Result<Option<FileSink<File>>, Fault>
    ensures { IfOk result (λ file. IfSome file (λ sink. ⟦<FileSink<File> as Sink>⟧.failures sink ≡ 0)) }
{
    match job.events {
        None | Some(STANDARD_STREAM) => Ok(None),
        Some(path) => Ok(Some(create_unused(rt, path, job, scenario, names)?)),
    }
}
