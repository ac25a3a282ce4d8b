//! Registers of the Intel 82540EM: CTRL, STATUS, RCTL, TCTL, PBA, interrupt causes, statistics counters, and the PCI
//! configuration space with its I/O ports.
//!
//! Section numbers are those of Intel's "PCI/PCI-X Family of Gigabit Ethernet Controllers Software Developer's Manual".
//! The configuration space is also that of "PCI Local Bus Specification", revision 2.2. A driver or firmware accesses
//! it through the I/O ports CONFIG_ADDRESS and CONFIG_DATA.
#![tactic(auto)]

mod bits;
mod config_address;
mod config_offsets;
mod device_control;
mod fields;
mod interrupts;
mod laws;
mod packet_buffer;
mod pci_function;
mod port_width;
mod receive_control;
mod statistics;

pub use bits::{Cause, Ctrl, Rctl, Status, Tctl};
pub use device_control::Speed;
pub use interrupts::Causes;
pub use laws::sets_of_places;
pub use packet_buffer::PacketBufferAllocation;
pub use pci_function::PciFunction;
pub use port_width::PortWidth;
pub use receive_control::GroupOffset;
pub use statistics::Counter;
