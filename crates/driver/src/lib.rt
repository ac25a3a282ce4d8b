//! A driver of the 82540EM, generic over the bus through which it accesses its adapter and its host's memory.
//!
//! Section numbers are those of Intel's "PCI/PCI-X Family of Gigabit Ethernet Controllers Software
//! Developer's Manual".
#![tactic(auto)]

mod driver;
mod groups;
mod init;
mod interrupt;
mod look;
mod parts;
mod read;
mod receive;
mod receiver;
mod refill;
mod reset;
mod setup;
mod transmit;

pub use bring_up::{Config, GroupError, InitError, MOST_GROUPS, MOST_VLANS};
pub use driver::Driver;
pub use interrupt::Handled;
pub use parts::{MOST_PARTS, Part, Parts};
pub use receiver::{Received, Receiver};
pub use transmit::SendError;
