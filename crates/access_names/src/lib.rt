//! Names of what accesses read and write, and the reason why a step of an engine is a fault.
//!
//! The server's log and the schedules of the tool `tools/races` contain these names. Section numbers are those of
//! Intel's "PCI/PCI-X Family of Gigabit Ethernet Controllers Software Developer's Manual".
#![tactic(auto)]

mod memory;
mod name;
mod printing;
mod register_names;
mod target;

pub use memory::memory_target;
pub use name::TargetName;
pub use target::Target;

mod engine_fault;
mod faults;
mod laws;
mod ring_words;

pub use engine_fault::{Engine, EngineFault, Reason};
pub use faults::fault_of;
pub use laws::reasons_of_faults_hold;
pub use ring_words::RingWords;
