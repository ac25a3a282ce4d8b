//! The code of the README of `rx_engine`, word for word.

use bitflags::Flags;
use descriptors::Ring;
use dma_memory::HostMemory;
use registers::Rctl;
use rx_engine::{Data, Done, Fate, RxEngine, arrive, rx_data, rx_done};
use rx_filter::Filter;
use std::test::Fail;

#[test]
fn the_code_of_the_readme_of_rx_engine(rt: HostRuntime) -> Result<(), Fail> {
    let control = Rctl::EN.union(Rctl::BAM);
    let mut filter = Filter::new();
    filter.write_rctl(control.bits());
    // A ring of eight descriptors at 0x800. The adapter owns the first, whose zeros point to a buffer at address 0.
    let mut memory = HostMemory::new(rt.alloc(), 4_096)?;
    let mut ring = Ring {
        base: 0x800,
        bytes: 128,
        head: 0,
        tail: 1,
    };
    let mut engine = RxEngine::new(rt.alloc())?;
    // A broadcast frame arrives at a packet buffer of 48 KB, and moves to memory. Its descriptor is written back.
    let frame = [0xFF; 60];
    let fate = arrive(&mut engine, &filter, 49_152, &frame);
    let moved = rx_data(&mut engine, &mut ring, control, &mut memory);
    let done = rx_done(&mut engine, &mut memory);
    let half_offered = false;
    assert!(rt; fate == Fate::Stored && done == Done::Done);
    assert!(rt; moved == Data::Moved { half_offered });
    let status = memory.view(0x80C, 1); // DD and EOP
    assert!(rt; memory.view(0, 60) == Ok(frame.as_slice()) && status == Ok([0x03].as_slice()));
    Ok(())
}
