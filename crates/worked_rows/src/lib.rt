//! Worked examples of registers, descriptors, frames on wires, resets, traces, scenarios and the program's lines, played
//! by public calls. Their expected values aren't computed by the crates.
#![tactic(auto)]

#[cfg(test)]
mod adapter_player;
#[cfg(test)]
mod adapter_registers;
#[cfg(test)]
mod fixtures;
#[cfg(test)]
mod frames_on_wires;
#[cfg(test)]
mod host;
#[cfg(test)]
mod host_over_bus;
#[cfg(test)]
mod initialization;
#[cfg(test)]
mod lying_bus;
#[cfg(test)]
mod network;
#[cfg(test)]
mod numbers;
#[cfg(test)]
mod programs;
#[cfg(test)]
mod said;
#[cfg(test)]
mod taken;
#[cfg(test)]
mod traces;
