//! Calls of an adapter and its parts, a solo bus, stations and the PCI function, each made twice: their contracts
//! determine the outcome.
//!
//! Most functions of this crate make one call twice, from equal states and with equal arguments. They return both
//! results as a pair, and their clauses state that both outcomes are equal. The prover knows only the clauses of the
//! call. So the call's clauses determine the values that the function compares. Most functions compare the outcomes of
//! calls that succeed.
#![tactic(auto)]

pub mod adapter_calls;
pub mod descriptor_calls;
pub mod eeprom_calls;
pub mod filter_calls;
pub mod memory_calls;
pub mod pci_calls;
pub mod phy_calls;
pub mod queue_calls;
pub mod register_calls;
pub mod solo_bus_calls;
pub mod stations_calls;
