//! Tests of scenarios, schedules, names of targets, the PCI function, the server, the command line and traces.
#![tactic(auto)]

#[cfg(test)]
mod access_names_readme;
#[cfg(test)]
mod error_texts;
#[cfg(test)]
mod names_of_targets;
#[cfg(test)]
mod pci_ports;
#[cfg(test)]
mod readmes;
#[cfg(test)]
mod scenario_readme;
#[cfg(test)]
mod server_calls;
#[cfg(test)]
mod step_schedules_readme;
#[cfg(test)]
mod traces;
