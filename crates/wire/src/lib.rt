//! Networks of hosts on wires, initialized by a plan, and runs of events: calls, resets, adapter steps and deliveries.
//! Steps and deliveries may also come before, between and after the accesses of a call or a reset. Other calls drain a
//! host, or return its counts or the log of its wire.
#![tactic(auto)]

mod collector;
mod counts;
mod drain;
mod events;
mod host;
mod hosts;
mod lan;
mod law;
mod log;
mod new;
mod run_observer;

pub use adapter::{Fate, Outcome};
pub use counts::Counts;
pub use host::bring_up_host;
pub use host_calls::Outlet;
pub use hosts::bring_up;
pub use lan::Lan;
pub use law::{frames_are_legal, runs_join};
pub use network_plan::{Answer, Event, HostPlan, Plan, PlanError, Reply, Stopped};
pub use run_observer::RunObserver;
pub use stations::{HeapFrame, Outcomes, Tick};
