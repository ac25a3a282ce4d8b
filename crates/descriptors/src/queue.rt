ghost use Rattle.descriptors.specs.HashedFrames.{frames_writes};
ghost use Rattle.descriptors.specs.WrappedPlaces.{wrapped};
ghost use Rattle.std.specs.Prelude.{◌≡◌, ◌+◌, ◌-◌, ◌<◌, ◌≤◌, ◌↔◌, [], ◌∷◌, ◌++◌, drop, length};
ghost use Rattle.std.specs.Prelude.{fold, replicate, slice_get, take};
ghost use Rattle.std.specs.Prelude.{Some, IsTrue, IsNone, IfSome, IfOk};
ghost use Rattle.descriptors.specs.QueuedFrames.{Frames};
ghost use Rattle.descriptors.specs.QueuePlaces.{queue_of_places, IsQueueOfPlaces};

use crate::buffers::copy_of;
use circular_buffer::HeapCircularBuffer;
use std::alloc::{AllocError, Global};
use std::hash::Hasher;
use std::marker::Model;

/// The number of bytes for one frame: the greatest length of a legal frame (IEEE 802.3, 4.4.2, with a VLAN tag and
/// without the check sequence).
pub const PLACE_BYTES: usize = 1518;

/// A queue for a limited number of frames, each of at most 1,518 bytes, first in, first out.
///
/// Only `new` and `clone` allocate memory. A frame is copied once, when it is pushed, and can be read without a copy.
#[derive(Debug, Drop)]
pub struct FrameQueue {
    /// The places of frames, each of [`PLACE_BYTES`] bytes. A frame begins at the start of its place.
    bytes: Vec<u8>,
    /// The lengths of the frames, the oldest first.
    lengths: HeapCircularBuffer<u16>,
    /// The place of the oldest frame. Each later frame is in the next place, and after the last place in place 0.
    first: u8,
}

impl Model for FrameQueue {
    ghost Value = { Frames };

    ghost view = { queue_of_places };

    ghost invariant = { IsQueueOfPlaces };
}

impl Clone for FrameQueue {
    ghost is_clone = { λ queue copy. copy ≡ queue };

    /// Returns a queue of the same capacity with the same frames.
    ///
    /// # Errors
    ///
    /// Returns an error only if an allocation fails.
    fn clone(&self) -> Result<FrameQueue, AllocError> {
        Ok(FrameQueue {
            bytes: self.bytes.clone()?,
            lengths: copy_of(&self.lengths)?,
            first: self.first,
        })
    }
}

impl FrameQueue {
    /// Returns an empty queue for at most `capacity` frames.
    ///
    /// # Errors
    ///
    /// Returns an error only if an allocation fails.
    #[tactic(auto, unfolding(crate::specs::QueuePlaces::placed_frames))]
    pub fn new(alloc: Global, capacity: u8) -> Result<FrameQueue, AllocError>
        ensures empty { IfOk result (λ queue. queue ≡ record { capacity = capacity; frames = [] }) }
    {
        let places = usize::from(capacity);
        Ok(FrameQueue {
            bytes: vec![in alloc; 0; places * PLACE_BYTES]?,
            lengths: HeapCircularBuffer::with_capacity(alloc, places)?,
            first: 0,
        })
    }

    /// Returns the greatest number of frames that the queue can contain. This number never changes.
    pub fn capacity(&self) -> u8
        ensures { result ≡ self.now.capacity }
    {
        // The capacity has 8 bits: `new` got it as a `u8`.
        self.lengths.capacity() as u8
    }

    /// Returns the number of frames in the queue.
    pub fn len(&self) -> u8
        ensures count { result ≡ length self.now.frames }
        ensures fits { result ≤ self.now.capacity }
    {
        // There are at most `capacity` frames, and the capacity has 8 bits.
        self.lengths.len() as u8
    }

    /// Returns whether no frame is in the queue.
    pub fn is_empty(&self) -> bool
        ensures { IsTrue result ↔ (self.now.frames ≡ []) }
    {
        self.lengths.is_empty()
    }

    /// Returns whether the number of frames in the queue is its capacity.
    pub fn is_full(&self) -> bool
        ensures { IsTrue result ↔ (length self.now.frames ≡ self.now.capacity) }
    {
        self.lengths.is_full()
    }

    /// Returns the oldest frame, without a copy, or `None` exactly if the queue is empty.
    pub fn front(&self) -> Option<&[u8]>
        ensures none { IsNone result ↔ (self.now.frames ≡ []) }
        ensures oldest { IfSome result (λ frame. slice_get self.now.frames 0 ≡ Some frame.now) }
        ensures fits { IfSome result (λ frame. length frame.now ≤ PLACE_BYTES) }
    {
        let length = usize::from(*self.lengths.front()?);
        let start = usize::from(self.first) * PLACE_BYTES;
        Some(&self.bytes.as_slice()[start..start + length])
    }

    /// Appends a frame of at most 1,518 bytes. The queue must not be full.
    pub fn push(&mut self, frame: &[u8])
        requires room { length self.old.frames < self.old.capacity }
        requires fits { length frame.now ≤ PLACE_BYTES }
        ensures { self.new ≡ record self.old { frames = self.old.frames ++ frame.now ∷ [] } }
    {
        self.push_padded(frame, 0);
    }

    /// Appends a frame. If the frame has fewer than `least` bytes, zeros follow the frame up to this number of bytes.
    /// The queue must not be full, and neither the frame nor `least` may exceed 1,518 bytes.
    pub fn push_padded(&mut self, frame: &[u8], least: usize)
        requires room { length self.old.frames < self.old.capacity }
        requires fits { length frame.now ≤ PLACE_BYTES }
        requires least_fits { least ≤ PLACE_BYTES }
        ensures { self.new ≡ record self.old {
          frames = self.old.frames ++ (frame.now ++ replicate (least - length frame.now) 0) ∷ [];
        } }
    {
        let length = frame.len().max(least);
        // The new frame's place is the one after the newest frame's. If this is after the last place, it is place 0.
        let behind = usize::from(self.first) + self.lengths.len();
        let start = wrap(behind, self.lengths.capacity()) * PLACE_BYTES;
        write_padded(self.bytes.as_mut_slice(), start, frame, length);
        // The buffer of lengths isn't full, so the call returns no length that it dropped.
        let _ = self.lengths.push_back(length as u16);
    }

    /// Removes the oldest frame, if there is one.
    pub fn pop(&mut self)
        ensures { self.new ≡ record self.old { frames = drop 1 self.old.frames } }
    {
        // The next frame is in the next place, and is then the oldest one.
        if self.lengths.pop_front().is_some() {
            self.first = wrap(usize::from(self.first) + 1, self.lengths.capacity()) as u8;
        }
    }

    /// Removes all frames.
    #[tactic(auto, unfolding(crate::specs::QueuePlaces::placed_frames))]
    pub fn clear(&mut self)
        ensures { self.new ≡ record self.old { frames = [] } }
    {
        // In an empty queue, `first` is the place of the next frame, and may be any place.
        self.lengths.clear();
    }

    /// Returns the frame with this index, without a copy. The oldest frame has index 0, and the index must be below the
    /// number of frames.
    pub fn frame_at(&self, index: usize) -> &[u8]
        requires { index < length self.now.frames }
        ensures frame { slice_get self.now.frames index ≡ Some result.now }
        ensures fits { length result.now ≤ PLACE_BYTES }
    {
        let length = usize::from(*self.lengths.get(index).unwrap());
        let place = wrap(usize::from(self.first) + index, self.lengths.capacity());
        let start = place * PLACE_BYTES;
        &self.bytes.as_slice()[start..start + length]
    }

    /// Feeds the number of frames to a hasher, and then the length and bytes of each frame, the oldest first. Queues
    /// with the same frames feed the same bytes.
    pub fn feed<H: Hasher>(&self, hasher: &mut H)
        ensures { hasher.new ≡ fold H.write hasher.old (frames_writes self.now.frames) }
    {
        let count = usize::from(self.len());
        hasher.write_usize(count);
        for index in 0..count {
            let frame = self.frame_at(index);
            hasher.write_usize(frame.len());
            hasher.write(frame);
        }
    }
}

/// Returns the index of a place after at most one wrap: `place` if it is below the capacity, else `place - capacity`.
/// So the place after the last one is place 0.
fn wrap(place: usize, capacity: usize) -> usize
    ensures { result ≡ wrapped capacity place }
{
    if place < capacity {
        place
    } else {
        place - capacity
    }
}

/// Writes `total` bytes from index `start` on: the frame, and then zeros. These bytes must be inside `bytes`, and
/// `total` must be at least the frame's length. The other bytes don't change.
fn write_padded(bytes: &mut [u8], start: usize, frame: &[u8], total: usize)
    requires lies { start + total ≤ length bytes.old }
    requires fits { length frame.now ≤ total }
    ensures { bytes.new ≡ take start bytes.old ++ (frame.now ++ replicate (total - length frame.now) 0)
        ++ drop (start + total) bytes.old }
{
    let place = &mut bytes[start..start + total];
    place[..frame.len()].copy_from_slice(frame);
    place[frame.len()..].fill(0);
}
