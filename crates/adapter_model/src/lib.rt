//! A model of the Intel 82540EM: its registers, EEPROM and PHY, and the engines that move frames between its wire and
//! a host's memory.
//!
//! Section numbers are those of Intel's "PCI/PCI-X Family of Gigabit Ethernet Controllers Software
//! Developer's Manual".
#![tactic(auto)]

mod adapter;
mod counts;
mod laws;
pub mod offsets;
mod outcome;
mod pending;
mod receive;
mod register;
mod register_access;
mod register_file;
mod ring;
mod step;
mod transmit;
mod work;

pub use adapter::Adapter;
pub use counts::{FrameCounts, WaitingFrames};
pub use laws::{
    accesses_by_table, frames_by_steps, offsets_by_table, parts_have_their_laws, plain_by_history,
    resets_by_table,
};
pub use outcome::Outcome;
pub use register::{Register, RingRegister};
pub use ring::RingRegisters;
pub use rx_engine::Fate;
pub use step::StepKind;
