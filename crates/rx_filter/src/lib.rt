//! The receive filter of the Intel 82540EM: receive addresses, the multicast table, and VLANs. It allocates no memory.
//!
//! Section numbers are those of Intel's "PCI/PCI-X Family of Gigabit Ethernet Controllers Software Developer's Manual".
#![tactic(auto)]

mod address;
mod filter;
mod laws;
mod table;

pub use address::{ADDRESS_VALID, AddressWords, hash_of};
pub use filter::{Filter, RECEIVE_ADDRESSES, TABLE_WORDS, VLAN_TYPE};
pub use laws::sets_of_registers;
pub use table::TableBit;
