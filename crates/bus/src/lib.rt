//! The bus between a driver and its adapter, the bus law, the laws of a driver's actions, and a machine: an adapter
//! with its host's memory.
//!
//! The laws of a driver's actions use what a driver knows of its adapter and memory, and what happens in an interval of
//! its run. A law is a function with an empty body, and its clauses are theorems. A law's attribute `tactic` states the
//! lemmas in `proofs` that prove it.
//!
//! Section numbers are those of Intel's "PCI/PCI-X Family of Gigabit Ethernet Controllers Software
//! Developer's Manual".
#![tactic(auto)]

mod beginning_law;
mod bus;
mod driver_law;
mod event;
mod law;
mod link_law;
mod lively_bus;
mod machine;
mod register_law;
mod reset_law;
mod settings_law;
mod trail_law;
mod transmit_law;

pub use beginning_law::{drivers_begin, registers_are_set, rings_are_stored, rings_stay};
pub use bus::{Bus, HonestBus};
pub use driver_law::{drivers_go_on, intervals_join, receive_slots_go_round};
pub use event::{Access, Event, StoredBytes};
pub use law::{
    any_steps_may_happen, areas_stay_apart, drivers_side_stays, drivers_slots_can_be_written,
    drivers_stores_leave_frames, faults_never_come, frames_can_be_offered, idle_rings_are_sound,
    idle_rings_stay_idle, intervals_compose, known_rings_stay, large_buffers_take_frames,
    many_slots_can_be_offered, registers_can_be_set, rings_wait, runs_can_be_taken,
    slots_can_be_offered, steps_are_instances, tails_can_be_moved, written_slots_can_be_freed,
};
pub use link_law::links_stay_up;
pub use lively_bus::LivelyBus;
pub use machine::Machine;
pub use register_law::{registers_are_read, registers_are_written};
pub use reset_law::drivers_reset;
pub use settings_law::{adapters_rest, writes_alone_set};
pub use trail_law::{
    causes_are_those_of_steps, faults_stay_visible, quiet_accesses_leave_adapters,
};
pub use transmit_law::{frames_are_offered, slots_are_freed, transmit_slots_are_stored};
