// Frames whose bytes are on the heap.

ghost use Rattle.std.specs.Cmp.{partial_equiv_from_equiv};
ghost use Rattle.std.specs.Cmp.Lexicographic.{nat_list_eq_equiv, pointwise};
ghost use Rattle.std.specs.Prelude.{nat_eq};

use descriptors::LONGEST_LEGAL;
use std::alloc::{AllocError, Global};
use std::marker::Model;

/// An Ethernet frame of at most 1,518 bytes, without its frame check sequence. The bytes of the frame are on the heap,
/// so a type that contains such a frame is small.
///
/// [`with_room`](HeapFrame::with_room) allocates the memory of a frame, so that [`fill`](HeapFrame::fill) allocates no
/// memory. In contracts, a frame is the list of its bytes.
#[derive(Debug, Drop)]
pub struct HeapFrame {
    /// The bytes of the frame; there is room for 1,518.
    bytes: Vec<u8>,
}

impl Model for HeapFrame {
    ghost use Rattle.std.specs.Prelude.{List, ℕ};

    ghost Value = { List ℕ };

    ghost use Rattle.stations.specs.FrameRoom.{HasFrameRoom};

    ghost view = { λ frame. frame.bytes.items };

    ghost invariant = { HasFrameRoom };
}

impl HeapFrame {
    ghost use Rattle.std.specs.Prelude.{◌≡◌, ◌≤◌, [], length, IfOk};

    /// Returns an empty frame, with room for 1,518 bytes.
    ///
    /// # Errors
    ///
    /// Returns an error only if an allocation fails.
    pub fn with_room(alloc: Global) -> Result<HeapFrame, AllocError>
        ensures { IfOk result (λ frame. frame ≡ []) }
    {
        Ok(HeapFrame {
            bytes: Vec::with_capacity(alloc, LONGEST_LEGAL)?,
        })
    }

    /// Replaces the bytes of the frame with these bytes, at most 1,518. The call allocates no memory.
    pub fn fill(&mut self, bytes: &[u8])
        requires fits { length bytes.now ≤ LONGEST_LEGAL }
        ensures { self.new ≡ bytes.now }
    {
        self.bytes.clear();
        // There is room for 1,518 bytes, so the call returns no error.
        let _ = self.bytes.extend_from_slice(bytes);
    }

    /// Returns the bytes of the frame.
    pub fn as_slice(&self) -> &[u8]
        ensures value { result.now ≡ self.now }
        ensures fits { length result.now ≤ LONGEST_LEGAL }
    {
        self.bytes.as_slice()
    }
}

impl PartialEq for HeapFrame {
    ghost eq = { pointwise nat_eq };

    ghost laws = { partial_equiv_from_equiv nat_list_eq_equiv };

    fn eq(&self, other: &HeapFrame) -> bool {
        self.bytes.as_slice() == other.bytes.as_slice()
    }
}

impl Eq for HeapFrame {
    ghost laws = { nat_list_eq_equiv };
}
