//! The stations of a network: for each host an adapter, its memory and its end of a wire.
//!
//! Ticks are played on the stations. A tick is one step of one adapter, one delivery, or `Go`. After a `Go`, the next
//! access of a call is made. A bus lends the stations to a call of one host.
//!
//! A wire never delivers by itself: a frame that a host puts onto a wire waits at each other end until a tick delivers
//! the frame there. Before each access of a call, the ticks that the caller chose are played on all hosts. An observer
//! is told the outcome of each tick, except a `Go` inside a call.
#![tactic(auto)]

mod accesses;
mod heap_frame;
mod lent_bus;
mod observer;
mod outcomes;
mod playing;
mod stations;
mod tick;
mod wire_log;
mod wires;

pub use heap_frame::HeapFrame;
pub use lent_bus::LentBus;
pub use observer::{Nobody, Observer};
pub use outcomes::{Numbered, Outcomes};
pub use stations::Stations;
pub use tick::Tick;
pub use wire_log::LOG_ENTRIES;
pub use wires::END_FRAMES;
