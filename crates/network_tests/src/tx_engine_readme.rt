//! The code of the README of `tx_engine`, word for word.

use descriptors::Ring;
use dma_memory::HostMemory;
use registers::Tctl;
use std::test::Fail;
use tx_engine::{Put, Take, TxEngine, put, take};

#[test]
fn the_code_of_the_readme_of_tx_engine(rt: HostRuntime) -> Result<(), Fail> {
    let mut memory = HostMemory::new(rt.alloc(), 4_096)?;
    // A ring of eight descriptors at address 0. The first points to 60 bytes at 0x800, with EOP and RS.
    memory.store(0, &[0, 8, 0, 0, 0, 0, 0, 0, 60, 0, 0, 0x09, 0, 0, 0, 0])?;
    memory.store(0x800, &[0xFF; 60])?;
    let mut ring = Ring {
        base: 0,
        bytes: 128,
        head: 0,
        tail: 1,
    };
    let mut engine = TxEngine::new(rt.alloc())?;
    let taken = take(&mut engine, &mut ring, Tctl::EN, &memory);
    assert!(rt; taken == Take::Took { emptied: true });
    assert!(rt; engine.front() == Some([0xFF; 60].as_slice()));
    // The frame moves to the wire, and DD is set in byte 12 of its descriptor.
    let gone = put(&mut engine, &mut memory, true);
    assert!(rt; gone == Put::Put { reported: true } && memory.view(12, 1) == Ok([0x01].as_slice()));
    Ok(())
}
