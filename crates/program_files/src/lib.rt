//! The inputs and outputs of the program: files, pipes and standard streams, among them the files of schedules. The
//! crate reports the progress of long jobs on standard error.
#![tactic(auto)]

mod file_error;
mod files;
mod late_file;
mod limits;
mod progress;
mod schedule_adapters;
mod schedule_files;
mod schedule_words;
mod standard_error;
mod standard_output;
mod whole_file;

pub use file_error::FileError;
pub use files::{
    FileSink, STANDARD_INPUT_FILE, STANDARD_STREAM, create, create_all, create_file, find_folder,
    is_input_piped, path_in, read_bytes, read_file_bytes, read_file_trace, read_front, read_trace,
    read_traces,
};
pub use late_file::LateFile;
pub use limits::{StackShortage, find_stack};
pub use progress::{Watched, report_play};
pub use schedule_adapters::is_for;
pub use schedule_files::{open_record, read_player, store};
pub use schedule_words::adapter_options;
pub use standard_error::StandardError;
pub use standard_output::StandardOutput;
pub use whole_file::{WholeFile, create_whole};
