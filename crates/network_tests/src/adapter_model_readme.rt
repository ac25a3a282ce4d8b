//! The code of the README of `adapter_model`, word for word.

use adapter::offsets::{GPRC, ICR, RCTL, RDLEN, RDT};
use adapter::{Adapter, Fate, Outcome, StepKind};
use bitflags::Flags;
use dma_memory::HostMemory;
use eeprom::Image;
use mdic_phy::Link;
use registers::{Cause, Rctl};
use std::test::Fail;

#[test]
fn the_code_of_the_readme_of_adapter_model(rt: HostRuntime) -> Result<(), Fail> {
    // A ring of eight descriptors at address 0. The adapter owns the first, which points to a buffer at 0x800.
    let mut memory = HostMemory::new(rt.alloc(), 4_096)?;
    memory.store(0, &0x800u64.to_le_bytes())?;
    let image = Image::with_address([0x02, 0, 0, 0, 0, 0x01]);
    let mut adapter = Adapter::new(rt.alloc(), &image, Link::Never)?;
    adapter.write(RDLEN, 128);
    adapter.write(RDT, 1);
    adapter.write(RCTL, Rctl::EN.union(Rctl::BAM).bits());
    // A broadcast frame arrives, is moved into the buffer, and its descriptor is written back.
    let frame = [0xFF; 60];
    let fate = adapter.arrive(&frame);
    let moved = adapter.step(StepKind::RxData, &mut memory, true);
    let done = adapter.step(StepKind::RxDone, &mut memory, true);
    assert!(rt; fate == Fate::Stored && moved == Outcome::Moved && done == Outcome::Done);
    assert!(rt; memory.view(0x800, 60) == Ok(frame.as_slice()));
    assert!(rt; adapter.read(ICR) == Cause::RXT0.bits() && adapter.read(GPRC) == 1);
    Ok(())
}
