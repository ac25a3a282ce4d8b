// An adapter with its events and its schedule.

use crate::events::Events;
use played_adapter::PlayedAdapter;
use step_schedules::Agenda;

/// An adapter, the events about it that are kept for C, and its schedule.
#[derive(Drop)]
pub struct WatchedAdapter {
    /// The adapter, its host's memory and its wire.
    pub player: PlayedAdapter,
    /// The events that wait, and whether new events are kept.
    pub events: Events,
    /// The schedule that is played, if there is one.
    pub agenda: Option<Agenda>,
}
