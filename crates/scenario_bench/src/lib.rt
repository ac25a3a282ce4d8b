//! Plays scenarios: writes the frames of each socket and of each wire as traces, and returns the counts of each host.
//!
//! [`bench`] runs the commands of a [`Scenario`](scenario::Scenario) over hosts on wires. [`bench_with`] also writes the
//! traces of wires and returns lines of events.
#![tactic(auto)]

mod bench_error;
mod events;
mod file_names;
mod play;
mod socket_list;
mod wire_list;

pub use bench_error::BenchError;
pub use file_names::{socket_files, wire_files};
pub use play::{bench, bench_with};
pub use run_record::{EventLog, GivenUp, HostSummary, Refusals, Summary, print_summary};
pub use wire_list::wires;
