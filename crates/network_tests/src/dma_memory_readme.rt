//! The code of the README of `dma_memory`, word for word.

use dma_memory::{HostMemory, Layout, OutOfRange, Pool};
use std::test::Fail;

#[test]
fn the_code_of_the_readme_of_dma_memory(rt: HostRuntime) -> Result<(), Fail> {
    let layout = Layout::of(8, 8, 9)?; // receive slots, transmit slots, receive buffers
    let mut memory = HostMemory::new(rt.alloc(), layout.size())?;
    memory.store(0x800, &[1, 2, 3, 4])?;
    let part = memory.view(0x801, 2);
    assert!(rt; layout.transmit_buffer(0) == 0x800 && part == Ok([2, 3].as_slice()));
    assert!(rt; memory.store(layout.size(), &[1]) == Err(OutOfRange));
    let mut pool = Pool::new(rt.alloc(), layout.buffers())?;
    let buffer = pool.take().expect(&rt, "one of nine numbers");
    let left = pool.len();
    pool.give(buffer);
    assert!(rt; left == 8 && pool.len() == 9);
    Ok(())
}
