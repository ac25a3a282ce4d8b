// The frames of the offered descriptors of a transmit ring, as they are put onto the wire.

ghost use Rattle.std.specs.Prelude.{◌≡◌, ◌≤◌, ◌<◌, ◌+◌, ◌-◌, ◌*◌, ◌⊎◌, ◌++◌, ◌∷◌, [], All, IfSome, IsSome, length};
ghost use Rattle.std.specs.Prelude.{vec_capacity, if◌then◌else◌};
ghost use Rattle.dma_memory.specs.HostMemory.{LiesIn};
ghost use Rattle.descriptors.specs.Ring.{address_of, count_of, offered_places};
ghost use Rattle.tx_engine.specs.Fetching.{as_sent, transmit_descriptor_at, named_by};
ghost use Rattle.tx_engine.specs.QueuedFrames.{CanBeCopied, queued_in};

use arrayvec::ArrayVec;
use descriptors::{Frame, Ring, SHORTEST_LEGAL, TX_DESC_BYTES, TxDesc};
use dma_memory::HostMemory;

/// Returns the number of zeros that follow a frame of `length` bytes on the wire. If `pad` is true, zeros pad a frame
/// of fewer than 60 bytes to 60 bytes. If `pad` is false, no zeros follow.
fn zeros_after(length: usize, pad: bool) -> usize
    ensures zeros { result ≡ (if pad then 60 - length else 0) }
    ensures most { result ≤ 60 }
{
    if pad {
        SHORTEST_LEGAL.saturating_sub(length)
    } else {
        0
    }
}

/// Appends bytes to a list. The list must have at most 1,518 bytes afterwards.
fn extend(whole: &mut ArrayVec<u8, 1518>, bytes: &[u8])
    requires { length whole.old.items + length bytes.now ≤ 1518 }
    ensures { whole.new.items ≡ whole.old.items ++ bytes.now }
{
    // There is room, so the call never fails.
    let _ = whole.try_extend_from_slice(bytes);
}

/// Returns a frame of at most 1,518 bytes as it is put onto the wire: if `pad` is true, zeros pad a frame of fewer than
/// 60 bytes to 60 bytes.
fn frame_as_sent(bytes: &[u8], pad: bool) -> Frame
    requires short { length bytes.now ≤ 1518 }
    ensures { result ≡ as_sent pad bytes.now }
{
    let mut whole: ArrayVec<u8, 1518> = ArrayVec::new();
    extend(&mut whole, bytes);
    let zeros = [0; SHORTEST_LEGAL];
    let count = zeros_after(bytes.len(), pad);
    extend(&mut whole, &zeros[..count]);
    Frame::from_slice(whole.as_slice())
}

/// Appends a frame of at most 1,518 bytes, as it is put onto the wire, padded if `pad` is true. The list must have room
/// for the frame.
fn append_as_sent(bytes: &[u8], pad: bool, frames: &mut Vec<Frame>)
    requires short { length bytes.now ≤ 1518 }
    requires room { length frames.old.items < vec_capacity frames.old }
    ensures frames { frames.new.items ≡ frames.old.items ++ as_sent pad bytes.now ∷ [] }
    ensures room { vec_capacity frames.old ≤ vec_capacity frames.new }
{
    // There is room, so the call allocates nothing and never fails.
    let _ = frames.push(frame_as_sent(bytes, pad));
}

/// Returns the descriptor in slot `place` of a ring. The ring must be inside memory, and `place` must be the index of a
/// slot. The result is then never `None`.
fn descriptor_in(memory: &HostMemory, ring: &Ring, place: u16) -> Option<TxDesc>
    requires ring { LiesIn memory.now ring.now.base (16 * count_of ring.now) }
    requires place { place < count_of ring.now }
    ensures there { IsSome result }
    ensures value { IfSome result (λ desc. desc ≡ transmit_descriptor_at memory.now (address_of ring.now place)) }
{
    let address = ring.descriptor(place, memory.size())?;
    let mut bytes = [0; TX_DESC_BYTES];
    memory.load(address, &mut bytes).ok()?;
    Some(TxDesc::from_bytes(&bytes))
}

/// Returns the bytes that the descriptor in slot `place` of a ring points to. The ring and these bytes, at most 1,518,
/// must be inside memory, and `place` must be the index of a slot. The result is then never `None`.
fn queued_bytes<'a>(memory: &'a HostMemory, ring: &Ring, place: u16) -> Option<&'a [u8]>
    requires ring { LiesIn memory.now ring.now.base (16 * count_of ring.now) }
    requires place { place < count_of ring.now }
    requires lies { CanBeCopied memory.now (address_of ring.now place) }
    ensures there { IsSome result }
    ensures bytes { IfSome result (λ bytes.
        bytes.now ≡ named_by memory.now (transmit_descriptor_at memory.now (address_of ring.now place))) }
    ensures short { IfSome result (λ bytes. length bytes.now ≤ 1518) }
{
    let desc = descriptor_in(memory, ring, place)?;
    memory.view(desc.address, usize::from(desc.length)).ok()
}

/// Appends the frames of the offered descriptors, as they are put onto the wire, padded if `pad` is true. The list must
/// have room for these frames. The ring and the frames must be inside memory, and no frame may exceed 1,518 bytes. If a
/// descriptor is offered, head must be the index of a slot.
pub fn append_queued(memory: &HostMemory, ring: &Ring, pad: bool, frames: &mut Vec<Frame>)
    requires ring { LiesIn memory.now ring.now.base (16 * count_of ring.now) }
    requires slot { (ring.now.head < count_of ring.now) ⊎ (offered_places ring.now ≡ []) }
    requires lie { All (λ slot. CanBeCopied memory.now (address_of ring.now slot)) (offered_places ring.now) }
    requires room { length frames.old.items + length (offered_places ring.now) ≤ vec_capacity frames.old }
    ensures frames { frames.new.items ≡ frames.old.items ++ queued_in pad memory.now ring.now }
    ensures room { vec_capacity frames.old ≤ vec_capacity frames.new }
{
    let count = ring.count();
    // If head isn't the index of a slot, no descriptor is offered.
    if u32::from(ring.head) >= count {
        return;
    }
    let mut place = ring.head;
    // The number of offered descriptors that are still to be read. `Ring::distance` would require that the tail is the
    // index of a slot.
    let mut left = (u32::from(ring.tail) + count - u32::from(ring.head)) % count;
    while left > 0 {
        // The result is never `None`.
        let Some(bytes) = queued_bytes(memory, ring, place) else {
            return;
        };
        append_as_sent(bytes, pad, frames);
        place = ring.next(place);
        left -= 1;
    }
}
