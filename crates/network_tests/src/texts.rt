//! Plans and events, read from the texts of scenarios.

use scenario::{Command, Refusal, Scenario};
use std::alloc::Global;
use std::process::Abort;
use wire::Event;

/// Returns the scenario of a valid text, or `None` if an allocation fails.
pub(crate) fn scenario_in(rt: &impl Abort, alloc: Global, text: &str) -> Option<Scenario> {
    match Scenario::read(alloc, text.as_bytes()) {
        Ok(scenario) => Some(scenario),
        Err(refusal) => {
            assert!(rt; matches!(refusal, Refusal::Memory), "{text}");
            None
        }
    }
}

/// Returns the events of a scenario, or `None` if an allocation fails. Commands that aren't events are skipped.
pub(crate) fn events_of(alloc: Global, scenario: &Scenario) -> Option<Vec<Event<'_>>> {
    let mut events = Vec::new(alloc);
    for command in &scenario.commands {
        match command {
            Command::Call { host, call, ticks } => {
                events.push(call.event(*host, ticks.as_slice())).ok()?;
            }
            Command::Tick(tick) => events.push(Event::Tick(*tick)).ok()?,
            _ => {}
        }
    }
    Some(events)
}
