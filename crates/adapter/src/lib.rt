//! The adapter, the bus through which a driver accesses it, and a bus with one adapter, under one name.
//!
//! The crates below define them: `adapter_model`, `bus` and `solo_bus`. Crates above use only this one.
#![tactic(auto)]

pub use adapter_model::{
    Adapter, Fate, FrameCounts, Outcome, Register, RingRegister, RingRegisters, StepKind,
    WaitingFrames, accesses_by_table, frames_by_steps, offsets, offsets_by_table,
    parts_have_their_laws, plain_by_history, resets_by_table,
};
pub use bus::{
    Access, Bus, Event, HonestBus, LivelyBus, Machine, StoredBytes, adapters_rest,
    any_steps_may_happen, areas_stay_apart, causes_are_those_of_steps, drivers_begin,
    drivers_go_on, drivers_reset, drivers_side_stays, drivers_slots_can_be_written,
    drivers_stores_leave_frames, faults_never_come, faults_stay_visible, frames_are_offered,
    frames_can_be_offered, idle_rings_are_sound, idle_rings_stay_idle, intervals_compose,
    intervals_join, known_rings_stay, large_buffers_take_frames, links_stay_up,
    many_slots_can_be_offered, quiet_accesses_leave_adapters, receive_slots_go_round,
    registers_are_read, registers_are_set, registers_are_written, registers_can_be_set,
    rings_are_stored, rings_stay, rings_wait, runs_can_be_taken, slots_are_freed,
    slots_can_be_offered, steps_are_instances, tails_can_be_moved, transmit_slots_are_stored,
    writes_alone_set, written_slots_can_be_freed,
};
pub use solo_bus::{
    MOST_TICKS, SoloBus, SoloTick, WIRE_FRAMES, conditions_can_be_met, sound_buses,
};
