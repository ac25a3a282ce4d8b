// A queue of frames whose bytes follow one another in memory.

ghost use Rattle.descriptors.specs.HashedFrames.{frames_writes};
ghost use Rattle.std.specs.Prelude.{◌≡◌, ◌+◌, ◌-◌, ◌<◌, ◌≤◌, ◌↔◌, [], ◌∷◌, ◌++◌, drop, length, sum_by};
ghost use Rattle.std.specs.Prelude.{fold, slice_get, take};
ghost use Rattle.std.specs.Prelude.{Some, IsNone, IfSome, IfOk};
ghost use Rattle.descriptors.specs.Packed.{PackedFrames, packed_of, IsPacked};

use crate::buffers::copy_of;
use circular_buffer::HeapCircularBuffer;
use std::alloc::{AllocError, Global};
use std::hash::Hasher;
use std::marker::Model;

/// A queue of frames, first in, first out, for a limited number of frames and a limited number of bytes. The bytes of a
/// frame follow those of the frame before it, so a short frame uses little memory.
///
/// Only `new` and `clone` allocate memory. A push copies the frame, and `front` returns the oldest frame without a
/// copy. If a frame doesn't fit after the newest one, a push first moves all frames to the start of the memory.
#[derive(Debug, Drop)]
pub struct PackedQueue {
    /// The memory for the bytes of all frames.
    bytes: Vec<u8>,
    /// The lengths of the frames, the oldest first.
    lengths: HeapCircularBuffer<u16>,
    /// The index of the oldest frame's first byte.
    first: usize,
    /// The index after the newest frame's last byte.
    end: usize,
}

impl Model for PackedQueue {
    ghost Value = { PackedFrames };

    ghost view = { packed_of };

    ghost invariant = { IsPacked };
}

impl Clone for PackedQueue {
    ghost is_clone = { λ queue copy. copy ≡ queue };

    /// Returns a queue with the same limits and the same frames.
    ///
    /// # Errors
    ///
    /// Returns an error only if an allocation fails.
    fn clone(&self) -> Result<PackedQueue, AllocError> {
        Ok(PackedQueue {
            bytes: self.bytes.clone()?,
            lengths: copy_of(&self.lengths)?,
            first: self.first,
            end: self.end,
        })
    }
}

impl PackedQueue {
    /// Returns an empty queue for at most `capacity` frames with at most `room` bytes in total.
    ///
    /// # Errors
    ///
    /// Returns an error only if an allocation fails.
    pub fn new(alloc: Global, capacity: u16, room: usize) -> Result<PackedQueue, AllocError>
        ensures empty { IfOk result (λ queue. queue ≡ record { capacity = capacity; room = room; frames = [] }) }
    {
        Ok(PackedQueue {
            bytes: vec![in alloc; 0; room]?,
            lengths: HeapCircularBuffer::with_capacity(alloc, usize::from(capacity))?,
            first: 0,
            end: 0,
        })
    }

    /// Returns the number of frames in the queue.
    pub fn len(&self) -> u16
        ensures count { result ≡ length self.now.frames }
        ensures fits { result ≤ self.now.capacity }
    {
        // There are at most `capacity` frames, and the capacity has 16 bits.
        self.lengths.len() as u16
    }

    /// Returns the oldest frame, without a copy, or `None` exactly if the queue is empty.
    pub fn front(&self) -> Option<&[u8]>
        ensures none { IsNone result ↔ (self.now.frames ≡ []) }
        ensures oldest { IfSome result (λ frame. slice_get self.now.frames 0 ≡ Some frame.now) }
    {
        let length = usize::from(*self.lengths.front()?);
        Some(&self.bytes.as_slice()[self.first..self.first + length])
    }

    /// Returns the frame with this index, without a copy. The oldest frame has index 0, and the index must be below the
    /// number of frames. The call takes time in proportion to the index.
    pub fn frame_at(&self, index: usize) -> &[u8]
        requires { index < length self.now.frames }
        ensures { slice_get self.now.frames index ≡ Some result.now }
    {
        // The bytes of a frame begin after those of all older frames.
        let mut start = self.first;
        for before in 0..index {
            start += usize::from(*self.lengths.get(before).unwrap());
        }
        let length = usize::from(*self.lengths.get(index).unwrap());
        &self.bytes.as_slice()[start..start + length]
    }

    /// Appends a frame of at most 65,535 bytes, because a length has 16 bits. The queue must have room for one more
    /// frame, and for the bytes of this frame.
    pub fn push(&mut self, frame: &[u8])
        requires place { length self.old.frames < self.old.capacity }
        requires room { sum_by length self.old.frames + length frame.now ≤ self.old.room }
        requires short { length frame.now < 65536 }
        ensures { self.new ≡ record self.old { frames = self.old.frames ++ frame.now ∷ [] } }
    {
        let first = append(self.bytes.as_mut_slice(), self.first, self.end, frame);
        // The bytes of the older frames now begin at `first`, and the new frame follows them.
        self.end = first + (self.end - self.first) + frame.len();
        self.first = first;
        // The buffer of lengths isn't full, so the call returns no length that it dropped.
        let _ = self.lengths.push_back(frame.len() as u16);
    }

    /// Removes the oldest frame, if there is one.
    pub fn pop(&mut self)
        ensures { self.new ≡ record self.old { frames = drop 1 self.old.frames } }
    {
        let Some(length) = self.lengths.pop_front() else {
            return;
        };
        self.first += usize::from(length);
        // An empty queue begins at the start again, so that the next push moves no bytes.
        if self.lengths.is_empty() {
            self.first = 0;
            self.end = 0;
        }
    }

    /// Removes all frames.
    pub fn clear(&mut self)
        ensures { self.new ≡ record self.old { frames = [] } }
    {
        self.lengths.clear();
        self.first = 0;
        self.end = 0;
    }

    /// Feeds the number of frames to a hasher, and then the length and bytes of each frame, the oldest first. Queues
    /// with the same frames feed the same bytes.
    pub fn feed<H: Hasher>(&self, hasher: &mut H)
        ensures { hasher.new ≡ fold H.write hasher.old (frames_writes self.now.frames) }
    {
        let count = usize::from(self.len());
        hasher.write_usize(count);
        let mut start = self.first;
        for index in 0..count {
            let length = usize::from(*self.lengths.get(index).unwrap());
            let frame = &self.bytes.as_slice()[start..start + length];
            hasher.write_usize(frame.len());
            hasher.write(frame);
            start += length;
        }
    }
}

/// Makes room for `more` bytes after the range from `first` up to, but not including, `end`. If fewer bytes are there,
/// moves the range to the start of `bytes`. Returns the index at which the range begins after the call: 0 if it was
/// moved, else `first`. The range must be inside `bytes`, which must have room for the range and `more` other bytes.
fn make_room(bytes: &mut [u8], first: usize, end: usize, more: usize) -> usize
    requires order { first ≤ end }
    requires lies { end ≤ length bytes.old }
    requires fits { end - first + more ≤ length bytes.old }

    // The range has the same bytes as before.
    ensures same { take (end - first) (drop result bytes.new) ≡ take (end - first) (drop first bytes.old) }
    ensures room { result + (end - first) + more ≤ length bytes.new }
    ensures size { length bytes.new ≡ length bytes.old }
{
    if more <= bytes.len() - end {
        return first;
    }
    bytes.copy_within(first..end, 0);
    0
}

/// Writes a frame right after the range from `first` up to, but not including, `end`. If there is no room, the range is
/// moved to the start of `bytes` before. Returns the index at which the range begins after the call. The range must be
/// inside `bytes`, which must have room for the range and the frame.
fn append(bytes: &mut [u8], first: usize, end: usize, frame: &[u8]) -> usize
    requires order { first ≤ end }
    requires lies { end ≤ length bytes.old }
    requires fits { end - first + length frame.now ≤ length bytes.old }

    // After the call, the frame follows the bytes of the range.
    ensures appended { take (end - first + length frame.now) (drop result bytes.new)
        ≡ take (end - first) (drop first bytes.old) ++ frame.now }
    ensures lies { result + (end - first) + length frame.now ≤ length bytes.new }
    ensures size { length bytes.new ≡ length bytes.old }
{
    let begins = make_room(bytes, first, end, frame.len());
    let start = begins + (end - first);
    write_at(bytes, start, frame);
    begins
}

/// Writes a frame to `bytes` from index `start` on. The frame must end inside `bytes`. The other bytes don't change.
fn write_at(bytes: &mut [u8], start: usize, frame: &[u8])
    requires lies { start + length frame.now ≤ length bytes.old }
    ensures { bytes.new ≡ take start bytes.old ++ frame.now ++ drop (start + length frame.now) bytes.old }
{
    bytes[start..start + frame.len()].copy_from_slice(frame);
}
