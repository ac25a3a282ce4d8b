//! MDIC and the PHY of the Intel 82540EM, as far as they concern the link.
//!
//! Section numbers are those of Intel's "PCI/PCI-X Family of Gigabit Ethernet Controllers Software Developer's Manual".
//! The PHY's registers are those of IEEE 802.3, clause 22.
#![tactic(auto)]

mod hashing;
mod laws;
mod mdic;
mod phy;

pub use laws::{
    accesses_by_history, control_by_history, latch_by_history, link_by_history, mdic_by_history,
    told_by_history,
};
pub use mdic::{Mdic, Operation, Ticked};
pub use phy::{Link, Negotiation, Phy};
