//! The command line of the program `nicbench`, read with clap.
//!
//! [`line`] is the only entry point. It returns a [`Job`] with the values of its options, or a [`LineError`] with the
//! text for the user.
#![tactic(auto)]

mod adapter_jobs;
mod command;
mod error;
mod help;
mod job;
mod reader;
mod spelling;
mod trace_jobs;
mod values;

pub use error::{InvalidValue, LineError};
pub use job::{
    DriveJob, Job, PassJob, RunJob, ServeImage, ServeJob, ServeLink, ShowJob, ValueOption,
};
pub use reader::line;
