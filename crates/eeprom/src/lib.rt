//! The EEPROM of the Intel 82540EM, and EERD, the register through which a driver reads its words.
//!
//! Section numbers are those of Intel's "PCI/PCI-X Family of Gigabit Ethernet Controllers Software Developer's Manual".
#![tactic(auto)]

mod eerd;
mod hashing;
mod image;
mod laws;

pub use eerd::{Eerd, ReadState};
pub use image::{Image, WORDS, checksum_ok};
pub use laws::answers_by_history;
