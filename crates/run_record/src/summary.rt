//! The summary of a run.

use crate::run_log::{EventLog, Refusals};
use crate::tally::GivenUp;

/// The summary of a host. Each number saturates at the greatest `u64`.
#[derive(Drop)]
pub struct HostSummary {
    /// The name of the host in the plan.
    pub name: String,
    /// The number of frames that the host accepted for sending.
    pub accepted: u64,
    /// The number of frames that the host's adapter put on its wire.
    pub put: u64,
    /// The number of frames that reached the host's adapter.
    pub reached: u64,
    /// The number of frames that the host's adapter stored.
    pub stored: u64,
    /// The number of frames that the host's adapter missed because the receive packet buffer had no room for them
    /// ([`Counts`](wire::Counts)).
    pub missed: u64,
    /// Whether `missed` is exact; otherwise more frames may have been missed.
    pub exact: bool,
    /// The number of frames that the host's sockets returned.
    pub given: u64,
    /// The number of received frames that no socket took.
    pub unclaimed: u64,
    /// The numbers of frames that the host's resets dropped, and of frames that reached its adapter while a reset had
    /// disabled the receiver. `None` if the host wasn't reset.
    pub given_up: Option<GivenUp>,
}

/// The summary of a run.
#[derive(Drop)]
pub struct Summary {
    /// The summaries of the hosts of the plan, in order.
    pub hosts: Vec<HostSummary>,
    /// The numbers of refused calls.
    pub refusals: Refusals,
    /// The numbers of refused calls without those of `auto` commands.
    pub asked: Refusals,
    /// A line for each event and drain; `None` if `events` of `bench` was false.
    pub events: Option<EventLog>,
}
