//! The jobs of `pass` and `show`, from their inputs to their outputs.
ghost use Rattle.receive_lane.specs.Options.{HasVlanNumber};

use crate::fault::Fault;
use pcap_bench::{PassJob, ShowJob, Trace, Unit, WriterSink, pass, print_pass, show};
use program_files::{STANDARD_STREAM, StandardError, StandardOutput, create_whole, read_trace};

/// Returns the unit of the times in written traces: nanoseconds if `nanos` is true (`--nanos`), and otherwise
/// microseconds.
pub(crate) fn unit_of(nanos: bool) -> Unit {
    if nanos { Unit::Nanos } else { Unit::Micros }
}

/// Writes to a file the frames of a trace that pass, finishes the file, and writes to standard output the line of
/// counts. If not all of these frames were written, abandons the file. The VLAN of the job's filter must be at most
/// 4,095.
fn pass_to_file(rt: &HostRuntime, job: &PassJob<'_>, trace: &Trace) -> Result<(), Fault>
    requires { HasVlanNumber job.now.filter }
{
    let mut file = create_whole(rt, job.output)?;
    let unit = unit_of(job.nanos);
    let counts = match pass(rt.alloc(), trace, &job.filter, unit, &mut file.sink) {
        Ok(counts) => counts,
        Err(error) => {
            file.abandon(rt);
            return Err(Fault::from(error));
        }
    };
    file.finish(rt, job.output)?;
    print_pass(
        trace,
        &counts,
        &mut WriterSink::new(StandardOutput::new(rt)),
    )
    .map_err(Fault::from)
}

/// Writes to standard output the frames of a trace that pass, and to standard error the line of counts. A failed write
/// to standard error isn't an error. The VLAN of the job's filter must be at most 4,095.
fn pass_to_standard_output(rt: &HostRuntime, job: &PassJob<'_>, trace: &Trace) -> Result<(), Fault>
    requires { HasVlanNumber job.now.filter }
{
    let unit = unit_of(job.nanos);
    let mut sink = WriterSink::new(StandardOutput::new(rt));
    let counts = pass(rt.alloc(), trace, &job.filter, unit, &mut sink)?;
    let _ = print_pass(trace, &counts, &mut WriterSink::new(StandardError::new(rt)));
    Ok(())
}

/// Does the job of `pass`: reads IN, and writes to OUT the frames that pass. Writes the line of counts to standard
/// output, or to standard error if OUT is standard output. The VLAN of the job's filter must be at most 4,095.
///
/// # Errors
///
/// The first action that fails determines the error. IN is opened and read before OUT is opened, so both may be the
/// same file. If not all frames that pass were written, an existing file OUT keeps its bytes, unless it is written in
/// place ([`create_whole`]).
pub fn run_pass(rt: &HostRuntime, job: &PassJob<'_>) -> Result<(), Fault>
    requires { HasVlanNumber job.now.filter }
{
    let trace = read_trace(rt, job.input)?;
    match job.output {
        STANDARD_STREAM => pass_to_standard_output(rt, job, &trace),
        _ => pass_to_file(rt, job, &trace),
    }
}

/// Does the job of `show`: writes to standard output a line for each frame of the trace, and a last line with counts.
///
/// # Errors
///
/// The trace can't be read, or standard output can't be written.
pub fn run_show(rt: &HostRuntime, job: &ShowJob<'_>) -> Result<(), Fault> {
    let trace = read_trace(rt, job.trace)?;
    show(&trace, &mut WriterSink::new(StandardOutput::new(rt))).map_err(Fault::from)
}
