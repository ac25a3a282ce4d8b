//! A bus with one adapter and its memory, and no other device at its wire, which obeys the law of the crate `bus`; and
//! examples of such buses on which the conditions of the law hold.
//!
//! Section numbers are those of Intel's "PCI/PCI-X Family of Gigabit Ethernet Controllers Software
//! Developer's Manual".
#![tactic(auto)]

mod accesses;
mod law;
mod solo_bus;
pub mod sound_buses;

pub use law::conditions_can_be_met;
pub use solo_bus::{MOST_TICKS, SoloBus, SoloTick, WIRE_FRAMES};
