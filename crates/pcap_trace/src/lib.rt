//! Packet traces of libpcap (its manual page "pcap-savefile", version 2.4): frames read from a [`Source`], and
//! written to a [`Sink`].
//!
//! [`Trace::read`] reads a whole trace, [`Trace::write`] writes a whole trace, and [`RecordWriter`] writes a trace
//! packet by packet, in large blocks. Every failure of a device is returned, as [`ReadError::Read`] or
//! [`WriteError::Write`].
#![tactic(auto)]

mod block;
mod device;
mod fault;
mod files;
mod frames;
mod header;
mod law;
mod memory;
mod packet;
mod reading;
mod trace;
mod unit;
mod writer;
mod writing;

pub use device::{DeviceError, Sink, Source};
pub use fault::{ReadError, WriteError};
pub use files::{ReaderSource, WriterSink};
pub use frames::{Frames, Iter};
pub use law::written_is_trace;
pub use memory::{SliceSource, VecSink};
pub use trace::Trace;
pub use unit::Unit;
pub use writer::RecordWriter;
pub use writing::write_all;
