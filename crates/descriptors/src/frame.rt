ghost use Rattle.std.specs.Prelude.{◌≡◌, ◌==◌, ◌≤◌, ◌↔◌, ⊤, [], length, IsSome, IfSome};
ghost use Rattle.descriptors.specs.Frames.{is_sendable};

use arrayvec::ArrayVec;
use std::alloc::AllocError;
use std::marker::Model;

/// The least number of bytes of a frame on the wire, without its check sequence (IEEE 802.3, 4.4.2: minFrameSize less 4
/// bytes).
pub const SHORTEST_LEGAL: usize = 60;

/// The greatest number of bytes of a frame on the wire, without its check sequence (IEEE 802.3, 4.4.2:
/// maxBasicFrameSize of 1,518 bytes less 4, and 4 for a VLAN tag).
pub const LONGEST_LEGAL: usize = 1518;

/// The least number of bytes of a frame that can be sent: two addresses and the Length/Type field (IEEE 802.3, 3.1.1).
/// After padding, such a frame has [`SHORTEST_LEGAL`] bytes on the wire.
pub const SHORTEST_SENDABLE: usize = 14;

/// The greatest number of bytes of a frame that can be sent.
pub const LONGEST_SENDABLE: usize = LONGEST_LEGAL;

/// Returns whether a frame can be sent: whether it has 14 to 1,518 bytes.
pub fn is_sendable(frame: &[u8]) -> bool
    ensures { result ≡ is_sendable frame.now }
{
    (SHORTEST_SENDABLE..=LONGEST_SENDABLE).contains(&frame.len())
}

/// An Ethernet frame of at most 1,518 bytes: destination address to end of data, without the check sequence.
///
/// The bytes are in the value itself, so no call allocates memory.
#[derive(Debug, Drop, PartialEq, Eq)]
pub struct Frame {
    bytes: ArrayVec<u8, LONGEST_LEGAL>,
}

impl Model for Frame {
    ghost use Rattle.std.specs.Prelude.{List, ℕ, ◌≤◌, length};

    ghost Value = { List ℕ };

    ghost view = { λ frame. frame.bytes.items };

    ghost invariant = { λ frame. length frame.bytes.items ≤ 1518 };

    ghost inverse = { λ bytes. record { bytes = record { items = bytes } } };
}

impl Frame {
    /// The greatest number of bytes of a frame.
    pub const MAX_LEN: usize = LONGEST_LEGAL;

    /// Returns an empty frame.
    pub fn new() -> Frame
        ensures { result ≡ [] }
    {
        Frame {
            bytes: ArrayVec::new(),
        }
    }

    /// Returns the frame with these bytes. There must be at most 1,518 bytes, the room of a frame.
    pub fn from_slice(bytes: &[u8]) -> Frame
        requires { length bytes.now ≤ 1518 }
        ensures { result ≡ bytes.now }
    {
        let mut frame = Frame {
            bytes: ArrayVec::new(),
        };
        // There are at most 1,518 bytes, so the call doesn't fail.
        let _ = frame.bytes.try_extend_from_slice(bytes);
        frame
    }

    /// Returns the frame with these bytes, or `None` exactly if there are more than 1,518 bytes.
    pub fn try_from_slice(bytes: &[u8]) -> Option<Frame>
        ensures fits { IsSome result ↔ (length bytes.now ≤ 1518) }
        ensures value { IfSome result (λ frame. frame ≡ bytes.now) }
    {
        if bytes.len() > Frame::MAX_LEN {
            return None;
        }
        Some(Frame::from_slice(bytes))
    }

    /// Returns the number of bytes of the frame.
    pub fn len(&self) -> usize
        ensures value { result ≡ length self.now }
        ensures fits { result ≤ 1518 }
    {
        self.bytes.len()
    }

    /// Returns whether the frame is empty.
    pub fn is_empty(&self) -> bool
        ensures { result ≡ (length self.now == 0) }
    {
        self.bytes.is_empty()
    }

    /// Returns the bytes of the frame.
    pub fn as_slice(&self) -> &[u8]
        ensures value { result.now ≡ self.now }
        ensures fits { length result.now ≤ 1518 }
    {
        self.bytes.as_slice()
    }
}

/// Cloning allocates no memory, so it never fails.
impl Clone for Frame {
    ghost is_clone = { λ frame copy. copy ≡ frame };

    ghost is_infallible = { λ _. ⊤ };

    /// Returns a frame with the same bytes. The result is never an error.
    fn clone(&self) -> Result<Frame, AllocError> {
        Ok(Frame::from_slice(self.as_slice()))
    }
}

impl Default for Frame {
    ghost is_default = { λ frame. frame ≡ [] };

    /// Returns an empty frame.
    fn default() -> Frame {
        Frame::new()
    }
}
