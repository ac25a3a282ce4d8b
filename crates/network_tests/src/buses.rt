//! A configuration, a lively bus with a new adapter, and a host, for tests.

use adapter::{Adapter, Bus, SoloBus};
use arrayvec::ArrayVec;
use dma_memory::HostMemory;
use driver::{Config, InitError};
use eeprom::Image;
use mdic_phy::Link;
use packet_socket::{Host, SocketKind};
use std::alloc::{AllocError, Global};

/// The size in bytes of the memory for rings of 8 slots and 16 receive buffers.
const NEEDED: u64 = 22_528;

/// Returns a configuration with rings of 8 slots, 16 receive buffers, and no groups or VLANs.
pub(crate) fn config() -> Config {
    Config {
        rx: 8,
        tx: 8,
        buffers: 16,
        rxa: 48,
        promiscuous: false,
        groups: ArrayVec::new(),
        vlans: None,
    }
}

/// Returns a lively bus with a new adapter, and with memory for the rings and buffers, so that the adapter can be
/// initialized.
pub(crate) fn good_bus(alloc: Global) -> Result<SoloBus, AllocError> {
    let image = Image::with_address([0x02, 0, 0, 0, 0, 0x01]);
    let adapter = Adapter::new(alloc, &image, Link::After(1))?;
    let memory = HostMemory::new(alloc, NEEDED)?;
    SoloBus::new(alloc, adapter, memory, true)
}

/// Makes a host with a socket for all frames. The function is generic, so that the proof of a test uses only the
/// contract of a bus.
pub(crate) fn new_host<B: Bus>(alloc: Global, bus: &mut B) -> Result<Host, InitError> {
    let mut table = ArrayVec::new();
    // The table is empty, so it has room.
    let _ = table.try_push(SocketKind::All);
    Host::new(alloc, bus, &config(), table)
}
