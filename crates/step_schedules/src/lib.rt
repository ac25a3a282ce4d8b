//! Schedules: lists of deviations from what an adapter does by default, each before an access or a request of a test.
//!
//! The finder of races (`finder/README.md`) finds schedules, stores them as texts, and plays them. An [`Agenda`] counts
//! the accesses and requests of a run and finds the deviations that are due, without allocation for an access or a
//! request. A [`Player`] adds a [`Recorder`] of the actions that were played.
#![tactic(auto)]

mod agenda;
mod deviation;
mod deviation_words;
mod event;
mod player;
mod printing;
mod reader;
mod schedule;
mod schedule_error;
mod spelling;
mod waiting;
mod words;

pub use agenda::{Agenda, Held};
pub use deviation::{Action, Before, Deviation, Place, Site};
pub use event::Event;
pub use player::{Player, Recorder};
pub use schedule::Schedule;
pub use schedule_error::{Fault, ScheduleError};
pub use waiting::Waiting;
