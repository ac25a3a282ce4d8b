//! Frames in one buffer, one after the other.
ghost use Rattle.std.specs.Prelude.{◌≡◌, ◌<◌, ◌^◌, ◌++◌, ◌∷◌, ◌↔◌, [], List, ℕ, length, sum, IsTrue, OnOk, OnErr};
ghost use Rattle.std.specs.Iterator.{at_most, YieldsFirstRef};
ghost use Rattle.pcap_trace.specs.Frames.{cut_into};

use std::alloc::{AllocError, Global};
use std::marker::Model;

/// A list of frames, each of any number of bytes below 2^32. In contracts, the value is the list of the frames, each as
/// the list of its bytes.
///
/// The frames are in one piece of memory, one after the other. Their lengths are in another piece of memory, four bytes
/// each.
#[derive(Drop)]
pub struct Frames {
    /// The bytes of all frames, one frame after the other.
    bytes: Vec<u8>,
    /// The length of each frame.
    lengths: Vec<u32>,
}

impl Model for Frames {
    ghost Value = { List (List ℕ) };

    ghost view = { λ f. cut_into f.lengths.items f.bytes.items };

    ghost invariant = { λ f. sum f.lengths.items ≡ length f.bytes.items };
}

impl Frames {
    /// Returns an empty list. The call allocates nothing.
    pub fn new(alloc: Global) -> Self
        ensures { result ≡ [] }
    {
        Frames {
            bytes: Vec::new(alloc),
            lengths: Vec::new(alloc),
        }
    }

    /// Returns the number of frames.
    pub fn len(&self) -> usize
        ensures { result ≡ length self.now }
    {
        self.lengths.len()
    }

    /// Returns whether the list has no frames.
    pub fn is_empty(&self) -> bool
        ensures { IsTrue result ↔ (self.now ≡ []) }
    {
        self.len() == 0
    }

    /// Makes room for one more frame, of at most `bytes` bytes. The list doesn't change. The contract doesn't state the
    /// size of the room.
    ///
    /// # Errors
    ///
    /// If memory is refused.
    pub fn reserve(&mut self, bytes: usize) -> Result<(), AllocError>
        ensures { self.new ≡ self.old }
    {
        self.lengths.reserve(1)?;
        self.bytes.reserve(bytes)
    }

    /// Appends a frame of fewer than 2^32 bytes.
    ///
    /// # Errors
    ///
    /// Only if memory is refused; then the list doesn't change.
    #[inline(always)]
    pub fn push(&mut self, frame: &[u8]) -> Result<(), AllocError>
        requires { length frame.now < 2 ^ 32 }
        ensures ok { OnOk result (self.new ≡ self.old ++ frame.now ∷ []) }
        ensures err { OnErr result (self.new ≡ self.old) }
    {
        // With room for the length, nothing can fail after the bytes are stored.
        self.lengths.reserve(1)?;
        self.bytes.extend_from_slice(frame)?;
        self.lengths.push_reserved(frame.len() as u32);
        Ok(())
    }

    /// Returns the frames, in order.
    pub fn iter(&self) -> Iter<'_>
        ensures { result ≡ self.now }
    {
        Iter {
            bytes: self.bytes.as_slice(),
            lengths: self.lengths.as_slice(),
        }
    }
}

/// The frames of a [`Frames`] that are left, in order. In contracts, the value is the list of these frames. After the
/// last frame, `next` always returns `None`.
#[derive(Drop)]
pub struct Iter<'a> {
    bytes: &'a [u8],
    lengths: &'a [u32],
}

impl<'a> Model for Iter<'a> {
    ghost Value = { List (List ℕ) };

    ghost view = { λ i. cut_into i.lengths.now i.bytes.now };

    ghost invariant = { λ i. sum i.lengths.now ≡ length i.bytes.now };
}

impl<'a> Iterator for Iter<'a> {
    type Item = &'a [u8];

    ghost next_gives = { YieldsFirstRef (λ s. s) };

    ghost remaining = { λ s. at_most (length s) };

    /// Returns the next frame, complete, or `None` if no frame is left.
    fn next(&mut self) -> Option<&'a [u8]> {
        let (length, rest) = self.lengths.split_first()?;
        let (frame, after) = self.bytes.split_at(*length as usize);
        self.lengths = rest;
        self.bytes = after;
        Some(frame)
    }
}
