//! The record of a run on a network: counts for each host, frames, numbers of refused calls, and a line for each event.
//!
//! [`Record`] is the observer of the run. It writes the frames as traces, [`EventLog`] writes the lines of events as a
//! text, and [`print_summary`] writes the counts of each host.
#![tactic(auto)]

mod drained;
mod event_text;
mod kept;
mod printing;
mod record;
mod run_log;
mod summary;
mod tally;

pub use drained::{DrainedFrame, DrainedFrames};
pub use kept::{KeptFrames, Traces, wire_of};
pub use printing::print_summary;
pub use record::Record;
pub use run_log::{EventLog, Refusals, RunLog};
pub use summary::{HostSummary, Summary};
pub use tally::{GivenUp, Tally};
