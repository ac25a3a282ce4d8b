// Lists of frames.

ghost use Rattle.std.specs.Prelude.{◌≡◌, ◌++◌, ◌∷◌, ◌==◌, [], IfNone, IfSome, OnErr, OnOk, length};

use std::alloc::{AllocError, Global};
use std::collections::VecDeque;
use std::marker::Model;

/// A frame that waits. In contracts, the value is the list of its bytes.
#[derive(Drop)]
pub struct WaitingFrame {
    bytes: Vec<u8>,
}

impl Model for WaitingFrame {
    ghost use Rattle.std.specs.Prelude.{List, ℕ};

    ghost Value = { List ℕ };

    ghost view = { λ frame. frame.bytes.items };
}

impl Clone for WaitingFrame {
    ghost is_clone = { λ frame copy. copy ≡ frame };

    /// Returns a frame with the same bytes. Fails only if memory was refused.
    fn clone(&self) -> Result<WaitingFrame, AllocError> {
        Ok(WaitingFrame {
            bytes: self.bytes.clone()?,
        })
    }
}

impl WaitingFrame {
    /// Returns the bytes of the frame.
    pub fn as_slice(&self) -> &[u8]
        ensures { result.now ≡ self.now }
    {
        self.bytes.as_slice()
    }
}

/// Frames that wait, to arrive or to be fetched, the oldest first. In contracts, the value is the list of these frames.
#[derive(Drop)]
pub struct Frames {
    frames: VecDeque<WaitingFrame>,
}

impl Model for Frames {
    ghost use Rattle.std.specs.Prelude.{List, ℕ};

    ghost Value = { List (List ℕ) };

    ghost view = { λ list. list.frames.items };
}

impl Clone for Frames {
    ghost is_clone = { λ frames copy. copy ≡ frames };

    /// Returns the same frames, in the same order. Fails only if memory was refused.
    fn clone(&self) -> Result<Frames, AllocError> {
        Ok(Frames {
            frames: self.frames.clone()?,
        })
    }
}

impl Frames {
    /// Returns a list without a frame.
    pub fn new(alloc: Global) -> Frames
        ensures { result ≡ [] }
    {
        Frames {
            frames: VecDeque::new(alloc),
        }
    }

    /// Returns whether there is no frame.
    pub fn is_empty(&self) -> bool
        ensures { result ≡ (length self.now == 0) }
    {
        self.frames.is_empty()
    }

    /// Returns the number of frames.
    pub fn len(&self) -> usize
        ensures { result ≡ length self.now }
    {
        self.frames.len()
    }

    /// Adds a copy of a frame after all others. If memory is refused, nothing changes.
    pub fn push(&mut self, alloc: Global, frame: &[u8]) -> Result<(), AllocError>
        ensures ok { OnOk result (self.new ≡ self.old ++ frame.now ∷ []) }
        ensures err { OnErr result (self.new ≡ self.old) }
    {
        let bytes = Vec::from_slice(alloc, frame)?;
        self.frames.push_back(WaitingFrame { bytes })?;
        Ok(())
    }

    /// Removes and returns the oldest frame, or returns `None` if there is no frame.
    pub fn pop(&mut self) -> Option<WaitingFrame>
        ensures none { IfNone result ((self.old ≡ []) × (self.new ≡ [])) }
        ensures some { IfSome result (λ frame. self.old ≡ frame ∷ self.new) }
    {
        self.frames.pop_front()
    }
}
