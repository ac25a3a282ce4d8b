//! The library of `nicbench`, under one name: traces that pass an adapter or are listed, scenarios, and command lines.
//!
//! [`pass`] sends the frames of a trace through an adapter's receive filter and ring, and [`show`] lists them. Crates
//! below define the other items.
#![tactic(auto)]

mod counts;
mod passing;
mod printing;
#[cfg(test)]
mod read_descriptors;
mod showing;

pub use command_line::{
    DriveJob, InvalidValue, Job, LineError, PassJob, RunJob, ServeImage, ServeJob, ServeLink,
    ShowJob, ValueOption, line,
};
pub use counts::PassCounts;
pub use passing::pass;
pub use pcap_trace::{
    DeviceError, Frames, Iter, ReadError, ReaderSource, Sink, SliceSource, Source, Trace, Unit,
    VecSink, WriteError, WriterSink,
};
pub use printing::print_pass;
pub use receive_lane::PassFilter;
pub use scenario::{Call, Command, Fault, Refusal, Scenario};
pub use scenario_bench::{
    BenchError, EventLog, GivenUp, HostSummary, Refusals, Summary, bench, bench_with,
    print_summary, socket_files, wire_files, wires,
};
pub use showing::show;
