//! A network of hosts on wires: calls, resets and drains of hosts, and ticks during calls and resets. The laws state
//! what happens to frames in a network, which outcomes ticks have, and what an interrupt handler's answer implies.
#![tactic(auto)]

mod calls;
mod causes_law;
mod draining;
mod network;
mod noting;
mod outlet;
mod resetting;

pub use calls::Called;
pub use causes_law::answers_tell_causes;
pub use network::Network;
pub use outlet::Outlet;
pub use resetting::{GivenUp, WasReset};

mod answers_law;
mod delivery_law;

pub use answers_law::{idle_ticks_answer_nothing, outcomes_follow_from_counts, tails_offer_slots};
pub use delivery_law::{
    calls_say_at_their_access, consecutive_intervals_join, fates_are_judged_by_the_buffer,
    fates_are_right, groups_change, lent_calls_are_told, lists_grow_and_shrink,
    outcomes_tell_steps, steps_move_frames,
};
