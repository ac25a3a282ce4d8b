//! What explains a fault, and what a user can do.

use crate::fault::Fault;
use pcap_bench::ReadError;
use program_files::FileError;
use std::alloc::{AllocError, Global};

/// Returns what a refused or unreadable input is, and what a user can do. `IN` is a placeholder for the input's path.
//
// `tools/pages --tables` makes the rows of these codes from this function, and those of E68 and E73 from the constants
// below.
fn input_advice(error: ReadError) -> &'static str {
    match error {
        ReadError::Header =>
            "IN has fewer than 24 bytes, so it isn't a trace. Name another file, or check the program that writes into \
            the pipe",
        ReadError::Magic => "IN isn't a pcap file. Convert a pcapng file: tools/to_pcap IN OUT",
        ReadError::Version =>
            "IN isn't a pcap file of version 2.4. Convert it: tools/to_pcap IN OUT",
        ReadError::LinkType =>
            "IN isn't a trace of Ethernet frames. Capture it at an Ethernet interface",
        ReadError::Record =>
            "A packet of IN claims more than 262,144 bytes, so IN is damaged. Capture it again",
        ReadError::Memory =>
            "Out of memory while IN was read. Free some, or split IN: editcap -F pcap -c 100000 IN OUT",
        ReadError::Read =>
            "IN could not be read. Name a file, not a folder, or copy it to another disk",
    }
}

/// The advice for a file that can't be opened. `PATH` is a placeholder for its path.
const OPEN_ADVICE: &str =
    "PATH couldn't be opened or created, or is a device. Check the path and permissions; OUTDIR must exist. Copy a part \
    of a device to a file: head -c SIZE DEVICE";

/// The advice for an output that is also another file of a run. `FILE` is a placeholder for its path.
const SAME_FILE_ADVICE: &str =
    "FILE is also SCENARIO, a trace that the run feeds, or another file that it writes. Name another for --events, or \
    another OUTDIR";

/// The explanation of a word that no kind of line begins with. `WORD` is a placeholder for it.
const WORD_TEXT: &str = "the word is WORD";

/// The explanation of a schedule for other options.
const OTHER_OPTIONS: &str = "the schedule is for an adapter with other options: see its first line";

/// Returns a text with a path or a word in place of the placeholder. It is in quotation marks, and its control
/// characters are escaped, so that the text has one line.
fn with_path(
    alloc: Global,
    advice: &str,
    placeholder: &str,
    path: &String,
) -> Result<String, AllocError> {
    let quoted = format!(in alloc; "{path:?}")?;
    advice.replace(alloc, placeholder, quoted.as_str())
}

/// Prints a line of an explanation on standard error. A failed write isn't an error.
fn print_line(rt: &HostRuntime, line: &str) {
    let _ = eprintln!(rt; "nicbench: {line}");
}

/// Prints a text with a path in place of the placeholder, unless there is no memory for it.
fn print_with_path(rt: &HostRuntime, advice: &str, placeholder: &str, path: &String) {
    if let Ok(text) = with_path(rt.alloc(), advice, placeholder, path) {
        print_line(rt, text.as_str());
    }
}

/// Explains an error of a file.
fn explain_file(rt: &HostRuntime, error: &FileError) {
    match error {
        FileError::Open(path) => print_with_path(rt, OPEN_ADVICE, "PATH", path),
        FileError::Input(error, path) => print_with_path(rt, input_advice(*error), "IN", path),
        FileError::Schedule(error) => {
            let _ = eprintln!(rt; "nicbench: {error}");
        }
        FileError::OtherOptions => print_line(rt, OTHER_OPTIONS),
        FileError::TraceMemory | FileError::Pipe | FileError::Write | FileError::Memory => {}
    }
}

impl Fault {
    /// Prints on standard error what explains the fault, if there is more to print than the message: the path of a
    /// file, with what a user can do, a wrong word of a scenario, the reason why a text isn't a schedule, the counts of a drive, or the deviations
    /// that weren't met. Each line begins with `nicbench: `. Prints no path if there is no memory for the line.
    pub fn explain(&self, rt: &HostRuntime) {
        match self {
            Fault::File(error) => explain_file(rt, error),
            Fault::SameFile(path) => print_with_path(rt, SAME_FILE_ADVICE, "FILE", path),
            Fault::Word(_, word) => print_with_path(rt, WORD_TEXT, "WORD", word),
            Fault::Fewer(counts) => {
                let _ = eprintln!(rt; "nicbench: {counts}");
            }
            Fault::Unmet(deviations) => {
                for line in deviations.lines() {
                    let _ = eprintln!(rt; "nicbench: not met: {line}");
                }
            }
            Fault::Scenario(_)
            | Fault::Bench(_)
            | Fault::Write(_)
            | Fault::Serve(_)
            | Fault::Drive(_)
            | Fault::Image
            | Fault::Memory => {}
        }
    }
}
