//! Initializes an 82540EM over any bus: separate calls for reset, EEPROM, packet buffer, PHY and link, filter,
//! descriptors, rings and interrupts. Keeps the list of joined multicast groups and the group table (MTA) together.
//!
//! Section numbers are those of Intel's "PCI/PCI-X Family of Gigabit Ethernet Controllers Software
//! Developer's Manual": "14.3 General Initialization", "14.4 Receive Initialization" and "14.5 Transmit
//! Initialization". The order of the accesses is our choice.
#![tactic(auto)]

mod config;
mod configured_law;
mod controls;
mod descriptors_clearing;
mod device;
mod eeprom_reading;
mod filter_setting;
mod filter_tables;
mod init_error;
mod link;
mod resting_law;
mod ring_registers;

pub use config::{Config, MOST_GROUPS, MOST_VLANS};
pub use configured_law::writes_configure;
pub use controls::{
    allocate_packet_buffer, enable_interrupts, interrupt_causes, reset_device, set_link_up,
};
pub use descriptors_clearing::clear_descriptors;
pub use device::find_device;
pub use eeprom_reading::read_image;
pub use filter_setting::{named_vlans, set_filter};
pub use filter_tables::{group_table, vlan_table, write_addresses, write_groups, write_vlans};
pub use init_error::InitError;
pub use link::{await_link, negotiate};
pub use resting_law::{drivers_begin_again, drivers_begin_at_rest, drivers_without_frames_stay_so};
pub use ring_registers::{
    FilterModes, RingPlace, disable_receiver, enable_receiver, enable_transmitter,
    set_receive_ring, set_transmit_ring,
};

/// The number of reads of a register after which a driver gives up (our choice).
pub const MOST_READS: u16 = 1000;

mod groups;
mod groups_law;

pub use groups::{GroupError, Groups};
pub use groups_law::groups_determine_table;
