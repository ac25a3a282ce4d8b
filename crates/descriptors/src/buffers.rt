// Copies of buffers.

ghost use Rattle.std.specs.Prelude.{◌≡◌, IfOk};

use circular_buffer::HeapCircularBuffer;
use std::alloc::AllocError;

/// Returns a copy of a buffer, with the same capacity and the same items.
///
/// # Errors
///
/// Returns an error only if an allocation fails.
pub fn copy_of<T: Copy>(buffer: &HeapCircularBuffer<T>) -> Result<HeapCircularBuffer<T>, AllocError>
    ensures { IfOk result (λ copy. copy ≡ buffer.now) }
{
    let mut copy = HeapCircularBuffer::with_capacity(*buffer.allocator(), buffer.capacity())?;
    // If the items wrap in memory, the newer items are in a second slice. Each call appends the items of one slice.
    let (front, wrapped) = buffer.as_slices();
    copy.fill_from_slice(front);
    copy.fill_from_slice(wrapped);
    Ok(copy)
}
