//! The command `drive`.
ghost use Rattle.std.specs.Prelude.{◌<◌};

use crate::fault::Fault;
use drive::{DriveCounts, DriveLimits, DriveRings, QtestBus, drive};
use pcap_bench::{DriveJob, Frames, Sink};
use program_files::{StandardOutput, create, read_file_trace};
use std::alloc::AllocError;
use std::io::BufReader;

/// The number of turns in a row without a frame, after which a drive ends ([`DriveLimits`]), if `--idle` isn't given.
const IDLE: u64 = 1_000;

/// Returns the rings and buffers of the driver, from the job.
fn rings_of(job: &DriveJob<'_>) -> DriveRings {
    DriveRings {
        rx: job.rx,
        tx: job.tx,
        buffers: job.buffers,
    }
}

/// Returns the limits of the drive, from the job. Without `--idle`, the limit of turns is [`IDLE`].
fn limits_of(job: &DriveJob<'_>) -> DriveLimits {
    DriveLimits {
        expect: job.expect,
        idle: job.idle.unwrap_or(IDLE),
    }
}

/// Runs the driver on the adapter of another program: writes requests to standard output, and reads their answers from
/// standard input. The driver sends these frames, and the frames that it receives are written to `sink`. The sink must
/// have failed fewer than 2^64 - 1 times.
fn drive_adapter<S: Sink>(
    rt: &HostRuntime,
    job: &DriveJob<'_>,
    frames: &Frames,
    sink: &mut S,
) -> Result<DriveCounts, Fault>
    requires { S.failures sink.old < u64.MAX }
{
    let Ok(input) = BufReader::new(rt.alloc(), rt.reader()) else {
        return Err(Fault::from(AllocError));
    };
    let mut bus = QtestBus::new(
        rt.alloc(),
        input,
        StandardOutput::new(rt),
        job.registers,
        job.memory,
    );
    match drive(
        rt.alloc(),
        &mut bus,
        frames,
        &rings_of(job),
        &limits_of(job),
        sink,
    ) {
        Ok(counts) => Ok(counts),
        Err(error) => Err(Fault::from(error)),
    }
}

/// Writes the counts of a drive to standard error, because the requests are on standard output. Fails with these counts
/// (E69), and writes nothing, if not all `frames` frames of IN were passed to the driver, or fewer frames than expected
/// were received.
fn report_counts(
    rt: &HostRuntime,
    job: &DriveJob<'_>,
    frames: u64,
    counts: &DriveCounts,
) -> Result<(), Fault> {
    if !counts.is_complete(frames, job.expect) {
        return Err(Fault::Fewer(*counts));
    }
    // A failed write to standard error isn't an error.
    let _ = eprintln!(rt; "{counts}");
    Ok(())
}

/// Sends these frames, writes the received frames to the job's OUT file, and reports the counts. Fails if OUT can't be
/// opened, if [`drive_adapter`] fails, or as [`report_counts`] does.
fn drive_frames(rt: &HostRuntime, job: &DriveJob<'_>, frames: &Frames) -> Result<(), Fault> {
    let mut sink = create(rt, job.receive)?;
    let counts = drive_adapter(rt, job, frames, &mut sink)?;
    report_counts(rt, job, frames.len() as u64, &counts)
}

/// Runs `drive`: sends the frames of IN, writes OUT, and reports the counts. Refuses `-` as IN, because the adapter's
/// answers are read from standard input.
pub fn run_drive(rt: &HostRuntime, job: &DriveJob<'_>) -> Result<(), Fault> {
    let trace = read_file_trace(rt, job.send)?;
    drive_frames(rt, job, &trace.frames)
}
