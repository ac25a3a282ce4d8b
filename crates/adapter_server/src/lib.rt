//! Serves an adapter and its memory over a line protocol: reads requests line by line, and answers each.
//!
//! The crate `server_requests` reads requests, and defines the protocol. [`serve`] answers all lines of an input, and a
//! [`LineServer`] one line in each call. Section numbers are those of Intel's "PCI/PCI-X Family of Gigabit Ethernet
//! Controllers Software Developer's Manual".
#![tactic(auto)]

mod access;
mod answering;
mod beginning;
mod coming;
mod line_server;
mod looking;
mod meeting;
mod options;
mod serve_error;
mod server;
mod session;
mod snapshot;
mod task;

pub use coming::Coming;
pub use line_server::LineServer;
pub use options::ServeOptions;
pub use serve_error::ServeError;
pub use server::serve;
pub use session::Session;
pub use snapshot::Server;
