//! The transmit engine of the Intel 82540EM, in two small steps: [`take`] moves a frame from the transmit ring into the
//! transmit packet buffer, and [`put`] moves the oldest frame of that buffer onto the wire. [`append_queued`] copies
//! the frames of the offered descriptors, which the engine hasn't taken yet.
//!
//! Section numbers are those of Intel's "PCI/PCI-X Family of Gigabit Ethernet Controllers Software Developer's Manual".
#![tactic(auto)]

mod answers;
mod engine;
mod fetching;
mod laws;
mod putting;
mod queued;
mod report;
mod taking;

pub use answers::{Put, Take};
pub use engine::{PACKET_BUFFER_FRAMES, TxEngine};
pub use laws::frames_to_be_sent;
pub use putting::put;
pub use queued::append_queued;
pub use taking::{has_nothing_to_take, take};
