// The frames in the finished slots of a receive ring, and the bytes of the piece in progress.

ghost use Rattle.std.specs.Prelude.{◌≡◌, ◌≤◌, ◌<◌, ◌+◌, ◌++◌, ◌⊎◌, [], All, IfSome, IfNone, IsSome};
ghost use Rattle.std.specs.Prelude.{length, vec_capacity, true, false};
ghost use Rattle.dma_memory.specs.HostMemory.{LiesIn, bytes_at};
ghost use Rattle.descriptors.specs.Ring.{address_of, count_of};
ghost use Rattle.rx_engine.specs.Descriptors.{descriptor_at, named_address};
ghost use Rattle.rx_engine.specs.Held.{bytes_of_work};
ghost use Rattle.registers.specs.Bits.{is_set};
ghost use Rattle.descriptors.specs.RxStatus.{dd, eop, status_bits};
ghost use Rattle.rx_engine.specs.Pieces.{begun_from, frames_from};
ghost use Rattle.rx_engine.specs.FinishedSlots.{LiesWhole, NamesMemory, finished_in, named};
ghost use Rattle.rx_engine.specs.JoinedPieces.{AreShort, piece_alone};
ghost use Rattle.rx_engine.specs.Slots.{outstanding, done_slots};

use crate::engine::Work;
use arrayvec::ArrayVec;
use bitflags::Flags;
use descriptors::{Frame, RX_DESC_BYTES, Ring, RxDesc, RxStatus};
use dma_memory::HostMemory;

/// Adds the next piece to the frame whose beginning is in `begun`. If the frame ends in the piece, appends the frame to
/// the list and clears `begun`. The frame must have at most 1,518 bytes with this piece. If the frame ends, the list
/// must have room for one more frame.
pub fn append_piece(
    bytes: &[u8],
    ends: bool,
    begun: &mut ArrayVec<u8, 1518>,
    frames: &mut Vec<Frame>,
)
    requires short { AreShort begun.old.items (piece_alone ends bytes.now) }
    requires room { ends ≡ true → length frames.old.items < vec_capacity frames.old }
    ensures begun { begun.new.items ≡ begun_from begun.old.items (piece_alone ends bytes.now) }
    ensures frames { frames.new.items ≡ frames.old.items ++ frames_from begun.old.items (piece_alone ends bytes.now) }
    ensures room { vec_capacity frames.old ≤ vec_capacity frames.new }
{
    // There is room in both lists, so neither call fails.
    let _ = begun.try_extend_from_slice(bytes);
    if ends {
        let _ = frames.push(Frame::from_slice(begun.as_slice()));
        begun.clear();
    }
}

/// Returns whether a descriptor is done: DD is set.
fn shows_done(desc: &RxDesc) -> bool
    ensures { result ≡ is_set (status_bits desc.now.status) dd }
{
    desc.status.contains(RxStatus::DD)
}

/// Returns whether a frame ends in the descriptor's piece: EOP is set.
fn shows_end(desc: &RxDesc) -> bool
    ensures { result ≡ is_set (status_bits desc.now.status) eop }
{
    desc.status.contains(RxStatus::EOP)
}

/// Returns the descriptor in slot `place` of a ring. The whole ring must be inside memory, and `place` must be the
/// index of a slot. The result is then never `None`.
fn descriptor_in(memory: &HostMemory, ring: &Ring, place: u16) -> Option<RxDesc>
    requires ring { LiesWhole memory.now ring.now }
    requires place { place < count_of ring.now }
    ensures there { IsSome result }
    ensures value { IfSome result (λ desc. desc ≡ descriptor_at memory.now (address_of ring.now place)) }
{
    let address = ring.descriptor(place, memory.size())?;
    let bytes = memory.view(address, RX_DESC_BYTES).ok()?;
    Some(RxDesc::from_bytes(bytes.first_chunk()?))
}

/// Returns the bytes of the piece in slot `place` of a ring, and whether a frame ends in the piece. Returns `None` if
/// and only if the slot isn't done. The ring must be inside memory, and so must the piece if the slot is done. `place`
/// must be the index of a slot.
fn finished_piece<'a>(memory: &'a HostMemory, ring: &Ring, place: u16) -> Option<(&'a [u8], bool)>
    requires ring { LiesWhole memory.now ring.now }
    requires place { place < count_of ring.now }
    requires lies { is_set (status_bits (descriptor_at memory.now (address_of ring.now place)).status) dd ≡ true
        → NamesMemory memory.now (address_of ring.now place) }
    ensures none { IfNone result
        (is_set (status_bits (descriptor_at memory.now (address_of ring.now place)).status) dd ≡ false) }
    ensures done { IfSome result (λ piece.
        is_set (status_bits (descriptor_at memory.now (address_of ring.now place)).status) dd ≡ true) }
    ensures bytes { IfSome result (λ piece. piece.0.now
        ≡ bytes_at memory.now (named memory.now (address_of ring.now place)).address
        (named memory.now (address_of ring.now place)).size) }
    ensures ends { IfSome result (λ piece. piece.1
        ≡ is_set (status_bits (descriptor_at memory.now (address_of ring.now place)).status) eop) }
{
    let desc = descriptor_in(memory, ring, place)?;
    if !shows_done(&desc) {
        return None;
    }
    // The piece of a done slot is inside memory, so the view succeeds.
    let piece = memory.view(desc.address, usize::from(desc.length)).ok()?;
    Some((piece, shows_end(&desc)))
}

/// Returns the bytes of the piece in progress, at the address in its descriptor. The descriptor and the piece must be
/// inside memory. The result is then never `None`.
pub fn bytes_in_progress<'a>(memory: &'a HostMemory, work: &Work) -> Option<&'a [u8]>
    requires descriptor { LiesIn memory.now work.now.descriptor 16 }
    requires piece { LiesIn memory.now (named_address memory.now work.now.descriptor) work.now.length }
    ensures there { IsSome result }
    ensures bytes { IfSome result (λ bytes. bytes.now ≡ bytes_of_work memory.now work.now) }
{
    let mut bytes = [0; RX_DESC_BYTES];
    memory.load(work.descriptor, &mut bytes).ok()?;
    let address = RxDesc::from_bytes(&bytes).address;
    memory.view(address, usize::from(work.length)).ok()
}

/// Appends the frames that end in the finished slots of a ring: the outstanding slots from slot `oldest` on, before the
/// first one that isn't done. The first piece continues the frame whose beginning is in `begun`. Afterwards `begun`
/// contains the beginning of the frame that doesn't end in these slots. `oldest` must be the index of a slot, unless no
/// slot is outstanding. The ring and its finished pieces must be inside memory. The list must have room for these
/// frames, and each frame must have at most 1,518 bytes.
pub fn append_finished(
    memory: &HostMemory,
    ring: &Ring,
    oldest: u16,
    begun: &mut ArrayVec<u8, 1518>,
    frames: &mut Vec<Frame>,
)
    requires ring { LiesWhole memory.now ring.now }
    requires slot { (oldest < count_of ring.now) ⊎ (outstanding ring.now oldest ≡ []) }
    requires lie { All (NamesMemory memory.now) (done_slots memory.now ring.now oldest) }
    requires short { AreShort begun.old.items (finished_in memory.now ring.now oldest) }
    requires room { length frames.old.items
        + length (frames_from begun.old.items (finished_in memory.now ring.now oldest)) ≤ vec_capacity frames.old }
    ensures begun { begun.new.items ≡ begun_from begun.old.items (finished_in memory.now ring.now oldest) }
    ensures frames { frames.new.items
        ≡ frames.old.items ++ frames_from begun.old.items (finished_in memory.now ring.now oldest) }
    ensures room { vec_capacity frames.old ≤ vec_capacity frames.new }
{
    let count = ring.count();
    // If `oldest` isn't the index of a slot, no slot is outstanding.
    if u32::from(oldest) >= count {
        return;
    }
    let mut place = oldest;
    // The number of outstanding slots that are still to be read. `Ring::distance` would require that the tail is the
    // index of a slot.
    let mut left = (u32::from(ring.tail) + count - u32::from(oldest)) % count;
    while left > 0 {
        let Some((bytes, ends)) = finished_piece(memory, ring, place) else {
            return;
        };
        append_piece(bytes, ends, begun, frames);
        place = ring.next(place);
        left -= 1;
    }
}
