//! Tests of the adapter, of a bus, of a driver over a bus, and of hosts on wires, through the public calls of their
//! crates.
#![tactic(auto)]

#[cfg(test)]
mod adapter_model_readme;
#[cfg(test)]
mod bring_up_readme;
#[cfg(test)]
mod buses;
#[cfg(test)]
mod descriptors_readme;
#[cfg(test)]
mod dma_memory_readme;
#[cfg(test)]
mod drains;
#[cfg(test)]
mod driver_readme;
#[cfg(test)]
mod eeprom_readme;
#[cfg(test)]
mod error_texts;
#[cfg(test)]
mod logs;
#[cfg(test)]
mod mdic_phy_readme;
#[cfg(test)]
mod memory;
#[cfg(test)]
mod network_memory;
#[cfg(test)]
mod no_memory;
#[cfg(test)]
mod outlet;
#[cfg(test)]
mod packet_socket_readme;
#[cfg(test)]
mod refused_memory;
#[cfg(test)]
mod registers_readme;
#[cfg(test)]
mod rx_engine_readme;
#[cfg(test)]
mod rx_filter_readme;
#[cfg(test)]
mod solo_bus_readme;
#[cfg(test)]
mod texts;
#[cfg(test)]
mod tx_engine_readme;
#[cfg(test)]
mod wire_readme;
