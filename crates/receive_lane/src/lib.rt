//! An adapter with a receive filter and a receive ring of 8 descriptors, and the driver's side of this ring.
//!
//! [`ReceiveLane`] receives one frame at a time into a host's memory. [`PassFilter`] selects the frames that it accepts.
#![tactic(auto)]

mod choosing;
mod filter;
mod lane;
mod slots;

pub use filter::PassFilter;
pub use lane::ReceiveLane;
