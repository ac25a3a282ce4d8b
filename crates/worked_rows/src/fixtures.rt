//! Configurations, adapters, buses, and the names of registers and steps.

use adapter::offsets::{
    CTRL, EERD, GPTC, ICR, ICS, IMC, IMS, MDIC, MPC, PBA, RCTL, RDBAL, RDH, RDLEN, RDT, RNBC, TCTL,
    TDBAL, TDH, TDLEN, TDT, VET,
};
use adapter::{Adapter, SoloBus, StepKind};
use arrayvec::ArrayVec;
use dma_memory::HostMemory;
use driver::Config;
use eeprom::Image;
use mdic_phy::Link;
use std::alloc::{AllocError, Global};

/// The address of host `a`.
pub(crate) const A: [u8; 6] = [0x02, 0, 0, 0, 0, 0x01];

/// The number of bytes that rings of 8 descriptors and 16 receive buffers need.
pub(crate) const NEEDED: u64 = 22_528;

/// Returns a configuration without groups and VLANs.
pub(crate) fn config(rx: u16, tx: u16, buffers: u16) -> Config {
    Config {
        rx,
        tx,
        buffers,
        rxa: 48,
        promiscuous: false,
        groups: ArrayVec::new(),
        vlans: None,
    }
}

/// Returns a lively bus.
pub(crate) fn bus_of(
    alloc: Global,
    image: &Image,
    link: Link,
    size: u64,
) -> Result<SoloBus, AllocError> {
    let adapter = Adapter::new(alloc, image, link)?;
    let memory = HostMemory::new(alloc, size)?;
    SoloBus::new(alloc, adapter, memory, true)
}

/// Returns a lively bus with an adapter of host `a`.
pub(crate) fn lively_bus(alloc: Global, size: u64) -> Result<SoloBus, AllocError> {
    bus_of(alloc, &Image::with_address(A), Link::After(1), size)
}

/// The names of registers.
const REGISTERS: [(&str, u32); 22] = [
    ("CTRL", CTRL),
    ("EERD", EERD),
    ("MDIC", MDIC),
    ("VET", VET),
    ("ICR", ICR),
    ("ICS", ICS),
    ("IMS", IMS),
    ("IMC", IMC),
    ("RCTL", RCTL),
    ("TCTL", TCTL),
    ("PBA", PBA),
    ("RDBAL", RDBAL),
    ("RDLEN", RDLEN),
    ("RDH", RDH),
    ("RDT", RDT),
    ("TDH", TDH),
    ("TDBAL", TDBAL),
    ("TDLEN", TDLEN),
    ("TDT", TDT),
    ("MPC", MPC),
    ("RNBC", RNBC),
    ("GPTC", GPTC),
];

/// Returns the offset of a register, by its name or as a hexadecimal number after `at`.
pub(crate) fn offset_of(name: &str) -> Option<u32> {
    for (known, offset) in REGISTERS {
        if known == name {
            return Some(offset);
        }
    }
    u32::from_str_radix(name.strip_prefix("at")?, 16).ok()
}

/// Returns the step that a word names. `blocked` is a step at a wire without room.
pub(crate) fn step_of(name: &str) -> Option<StepKind> {
    match name {
        "eeprom" => Some(StepKind::EepromTick),
        "phy" => Some(StepKind::PhyTick),
        "take" => Some(StepKind::TxTake),
        "put" | "blocked" => Some(StepKind::TxPut),
        "data" => Some(StepKind::RxData),
        "done" => Some(StepKind::RxDone),
        _ => None,
    }
}
