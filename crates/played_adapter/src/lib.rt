//! An 82540EM that is played: the adapter, its host's memory and its wire, and the steps before accesses.
//!
//! The caller of a [`PlayedAdapter`] chooses its steps and arrivals, or lets a generator or a schedule choose them. An
//! [`Observer`] is told what happens. Nothing is printed. Only `new`, `without_wire`, `copy` and a push of an offered
//! frame allocate.
#![tactic(auto)]

mod accesses;
mod agendas;
mod choices;
mod copying;
mod draws;
mod frames;
mod law;
mod observer;
mod player;
mod requests;
mod scheduling;
mod steps;
mod wire;

pub use choices::{Choice, Move};
pub use frames::{Frames, WaitingFrame};
pub use law::quiet_accesses_are_exact;
pub use observer::Observer;
pub use player::PlayedAdapter;
pub use scheduling::ScheduledStep;
pub use steps::MOST_CYCLES;
pub use wire::WIRE_FRAMES;
