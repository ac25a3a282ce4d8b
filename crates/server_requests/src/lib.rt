//! Reads the requests of the server's line protocol: lines from an input, and the request of a line from its words.
//!
//! The protocol has those requests of QEMU's `qtest` that a client needs for a PCI device, and further requests, such
//! as for the adapter's steps. [`next_line`] reads a line, and [`read_line`] returns the request of a line.
#![tactic(auto)]

mod line_reader;
mod reading;
mod refusal;
mod request;
mod spelling;
mod verb;
mod width;
mod words;

pub use line_reader::{MOST_LINE_BYTES, NextLine, ReadFailed, next_line};
pub use reading::read_line;
pub use refusal::{Refusal, Stop};
pub use request::{Look, Payload, Request, Setting, Wanted, Width};
