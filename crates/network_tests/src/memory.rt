//! Allocations that may fail, and the texts of errors.

use adapter::StoredBytes;
use adapter::sound_buses::{with_buffered_frame, with_work};
use dma_memory::{HostMemory, LayoutError, OutOfRange, Pool};
use eeprom::Image;
use std::alloc::Global;
use std::test::Fail;

/// The call may fail only if an allocation fails, so that a test can make each allocation fail in turn.
#[test]
fn a_new_memory_is_zeros(rt: HostRuntime) {
    if let Ok(memory) = HostMemory::new(rt.alloc(), 22_528) {
        assert!(rt; memory.size() == 22_528);
        assert!(rt; memory.view(22_524, 4) == Ok([0; 4].as_slice()));
    }
}

/// The call may fail only if an allocation fails.
#[test]
fn a_new_pool_has_all_numbers(rt: HostRuntime) {
    if let Ok(pool) = Pool::new(rt.alloc(), u16::MAX) {
        assert!(rt; pool.len() == u16::MAX);
    }
}

/// Returns whether stored bytes are made.
fn stores(alloc: Global) -> bool {
    StoredBytes::from_slice(alloc, &[1, 2, 3]).is_ok()
}

/// Returns whether a bus with a frame to be put on the wire is made.
fn has_frame(alloc: Global, image: &Image) -> bool {
    with_buffered_frame(alloc, image).is_ok()
}

/// Returns whether a bus with a piece in progress is made.
fn has_work(alloc: Global, image: &Image) -> bool {
    with_work(alloc, image).is_ok()
}

/// Each call may fail only if an allocation fails. So if only one allocation fails, at least two of the three calls
/// succeed.
#[test]
fn stored_bytes_and_sound_buses_are_made(rt: HostRuntime) {
    let image = Image::with_address([0x02, 0, 0, 0, 0, 0x01]);
    let alloc = rt.alloc();
    let stored = stores(alloc);
    let made = u8::from(has_frame(alloc, &image)) + u8::from(has_work(alloc, &image));
    assert!(rt; made + u8::from(stored) >= 2);
}

#[test]
fn texts_of_refusals(rt: HostRuntime) -> Result<(), Fail> {
    let alloc = rt.alloc();
    let (size, count) = (LayoutError::RingSize, LayoutError::BufferCount);
    let shown = format!(in alloc; "{OutOfRange}, {size}, {count}")?;
    assert!(rt;
        shown.as_str() == "E1 OutOfRange, E2 RingSize, E3 BufferCount",
        "{shown}"
    );
    Ok(())
}
