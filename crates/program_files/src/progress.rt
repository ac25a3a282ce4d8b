//! Reports the progress of a long job on a terminal.

use pcap_trace::Trace;
use std::io::{self, IsTerminal, Read};

/// The shortest file whose progress is reported: 256 MiB.
const LONG_FILE: u64 = 1 << 28;

/// The number of steps of a long file. The end of each step except the last is reported.
const STEPS: u64 = 10;

/// The smallest number of fed frames for which the start of a run is reported.
const MANY_FRAMES: u64 = 100_000;

const MEBIBYTE: u64 = 1 << 20;

/// Standard error, and whether it is a terminal.
pub trait Watched: Eprint {
    /// Returns whether standard error is a terminal.
    fn is_watched(&self) -> bool;
}

impl Watched for HostRuntime {
    fn is_watched(&self) -> bool {
        self.stderr().is_terminal()
    }
}

/// A reader that reports how much of a long file was read, if standard error is a terminal.
#[derive(Drop)]
pub(crate) struct ReportingReader<'a, R, F> {
    rt: &'a R,
    file: F,
    /// The length of the file in bytes.
    length: u64,
    /// The number of bytes that were read.
    done: u64,
    /// Whether the file is long, and standard error a terminal.
    is_reported: bool,
}

impl<'a, R: Watched, F> ReportingReader<'a, R, F> {
    /// Returns a reader of a file that has this length in bytes.
    pub(crate) fn new(rt: &'a R, file: F, length: u64) -> ReportingReader<'a, R, F> {
        ReportingReader {
            rt,
            file,
            length,
            done: 0,
            is_reported: length >= LONG_FILE && rt.is_watched(),
        }
    }

    /// Counts further bytes that were read. If progress is reported and these bytes reach the end of a step, reports
    /// how much of the file was read.
    fn count(&mut self, bytes: u64) {
        // The additional byte prevents a division by 0. The file ends before the end of the last step, which is
        // therefore never reported.
        let step = self.length / STEPS + 1;
        let before = self.done / step;
        self.done = self.done.saturating_add(bytes);
        if self.is_reported && before < self.done / step {
            let done = self.done / MEBIBYTE;
            let all = self.length / MEBIBYTE;
            // A report that can't be written changes nothing.
            let _ = eprintln!(self.rt; "nicbench: read {done} of {all} MiB");
        }
    }
}

/// A read reads from the file, and counts the bytes that were read.
impl<R: Watched, F: Read> Read for ReportingReader<'_, R, F> {
    fn read(&mut self, buf: &mut [u8]) -> io::Result<usize> {
        let read = self.file.read(buf);
        if let Ok(count) = read {
            self.count(count as u64);
        }
        read
    }
}

/// Returns the number of frames of all traces. The number saturates.
fn frames_of(traces: &[Trace]) -> u64 {
    let mut frames: u64 = 0;
    for trace in traces {
        frames = frames.saturating_add(trace.frames.len() as u64);
    }
    frames
}

/// Reports that a run begins to play its scenario, if it feeds many frames and standard error is a terminal.
pub fn report_play<R: Watched>(rt: &R, traces: &[Trace]) {
    let frames = frames_of(traces);
    if frames >= MANY_FRAMES && rt.is_watched() {
        // A report that can't be written changes nothing.
        let _ = eprintln!(rt; "nicbench: playing the scenario, which feeds {frames} frames");
    }
}
