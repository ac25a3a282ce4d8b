// The data step, which writes a piece of a frame to a host's memory.

ghost use Rattle.std.specs.Prelude.{◌≡◌, ◌≤◌, ◌*◌, ◌↔◌, length, nat_le, true, false, IsTrue, IsNone, IsSome, IfSome};
ghost use Rattle.descriptors.specs.Ring.{HasValidIndices, address_of};
ghost use Rattle.dma_memory.specs.Areas.{ChangesOnly, area_at};
ghost use Rattle.dma_memory.specs.HostMemory.{LiesIn, with_bytes};
ghost use Rattle.rx_engine.specs.Descriptors.{named_address};
ghost use Rattle.rx_engine.specs.Receiver.{IsReceiver};
ghost use Rattle.rx_engine.specs.Moving.{HasFrameToMove, CanMove, engine_after_data, is_last, next_piece};
ghost use Rattle.rx_engine.specs.Moving.{ring_after_data, moved_answer, IsEnabledAndOffered};
ghost use Rattle.rx_engine.specs.Moving.{memory_after_data, IsMoved, IsPartMoved, IfMoved, is_half_offered};

use crate::storing::store_in;
use crate::{RxEngine, Work};
use descriptors::{RX_DESC_BYTES, Ring, RxDesc};
use dma_memory::HostMemory;
use registers::Rctl;

/// The result of a data step.
#[derive(Clone, Copy, Debug, PartialEq, Eq)]
pub enum Data {
    /// There was nothing to do, and nothing changed.
    Nothing,
    /// A piece of the oldest frame is in memory and in progress. More pieces of this frame follow.
    Part {
        /// Whether exactly half of the ring's descriptors are now offered ("13.4.17 Interrupt Cause Read Register",
        /// RXDMT0).
        half_offered: bool,
    },
    /// The last piece of the oldest frame is in memory and in progress.
    Moved {
        /// Whether exactly half of the ring's descriptors are now offered, as for `Part`.
        half_offered: bool,
    },
    /// The engine moved no piece, and moves none until a reset (our choice).
    Fault,
}

impl Data {
    /// Returns the result of a step that moved a piece. `ends` is whether this piece is the last one of its frame.
    fn of_piece(ends: bool, half_offered: bool) -> Data
        ensures { result ≡ moved_answer ends half_offered }
    {
        if ends {
            Data::Moved { half_offered }
        } else {
            Data::Part { half_offered }
        }
    }
}

/// Writes the next piece of the packet buffer's oldest frame to the buffer that the descriptor at the head points to.
/// The piece is the rest of the frame, but at most the number of bytes that RCTL.BSIZE selects. The piece is then in
/// progress, and the head advances ("3.2.6 Receive Descriptor Queue Structure"). After its last piece, the frame is
/// removed from the packet buffer.
///
/// Returns `Nothing` if RCTL.EN is 0, the engine is stopped, a piece is in progress, the packet buffer is empty, or
/// head equals tail.
///
/// Otherwise returns `Fault` if head or tail isn't the index of a slot, or if RCTL.BSEX is set. Also returns `Fault` if
/// the descriptor or the destination of the piece isn't inside memory. A fault changes neither the memory, the ring,
/// nor the packet buffer. After a fault, `rx_data` returns `Nothing` until a reset (our choice).
pub fn rx_data(
    engine: &mut RxEngine,
    ring: &mut Ring,
    control: Rctl,
    memory: &mut HostMemory,
) -> Data
    // `HasFrameToMove`: no condition for `Nothing` is true. `CanMove`: no condition for `Fault` is true.
    ensures nothing { (result ≡ Data.Nothing) ↔ (¬ (HasFrameToMove control.0 ring.old engine.old)) }
    ensures fault { (result ≡ Data.Fault)
        ↔ (HasFrameToMove control.0 ring.old engine.old
        × (¬ (CanMove control.0 ring.old memory.old (length (next_piece control.0 engine.old))))) }
    ensures part { IsPartMoved result
        ↔ (HasFrameToMove control.0 ring.old engine.old
        × CanMove control.0 ring.old memory.old (length (next_piece control.0 engine.old))
        × (is_last control.0 engine.old ≡ false)) }
    ensures moved { IsMoved result
        ↔ (HasFrameToMove control.0 ring.old engine.old
        × CanMove control.0 ring.old memory.old (length (next_piece control.0 engine.old))
        × (is_last control.0 engine.old ≡ true)) }
    ensures half_offered { IfMoved result (λ half. half ≡ is_half_offered ring.new) }
    ensures engine { engine.new ≡ engine_after_data result control.0 ring.old engine.old }
    ensures ring { ring.new ≡ ring_after_data result ring.old }
    ensures memory { memory.new ≡ memory_after_data result control.0 ring.old engine.old memory.old }
    // Whatever the result, no byte changes outside the destination of the next piece.
    ensures only { ChangesOnly memory.old memory.new
        (area_at (named_address memory.old (address_of ring.old ring.old.head))
        (length (next_piece control.0 engine.old))) }
    // The invariant of an engine's value, for the proofs of callers.
    ensures before { IsReceiver engine.old }
    ensures after { IsReceiver engine.new }
{
    let Some(NextPiece { bytes, ends }) = next_piece(engine, ring, control) else {
        return Data::Nothing;
    };
    // A piece has at most 1,518 bytes.
    let length = bytes.len() as u16;
    let Some(descriptor) = store_piece(ring, control, memory, bytes) else {
        engine.stop();
        return Data::Fault;
    };
    engine.begin(Work {
        descriptor,
        length,
        ends,
    });
    ring.head = ring.next(ring.head);
    Data::of_piece(ends, is_half_offered(ring))
}

/// Returns whether [`rx_data`] has a frame to move, so that it wouldn't return `Nothing`.
pub fn has_frame_to_move(engine: &RxEngine, ring: &Ring, control: Rctl) -> bool
    ensures { IsTrue result ↔ HasFrameToMove control.0 ring.now engine.now }
{
    next_piece(engine, ring, control).is_some()
}

/// The next piece of the packet buffer's oldest frame, borrowed from the packet buffer.
#[derive(Clone, Copy)]
struct NextPiece<'a> {
    bytes: &'a [u8],
    /// Whether the frame ends in the piece.
    ends: bool,
}

/// Returns the piece that [`rx_data`] moves next, of 1 to 1,518 bytes, or `None` exactly if [`rx_data`] has no frame to
/// move.
fn next_piece<'a>(engine: &'a RxEngine, ring: &Ring, control: Rctl) -> Option<NextPiece<'a>>
    ensures has { IsSome result ↔ HasFrameToMove control.0 ring.now engine.now }
    ensures bytes { IfSome result (λ piece. piece.bytes.now ≡ next_piece control.0 engine.now) }
    ensures ends { IfSome result (λ piece. piece.ends ≡ is_last control.0 engine.now) }
    ensures some { IfSome result (λ piece. 1 ≤ length piece.bytes.now) }
    ensures fits { IfSome result (λ piece. length piece.bytes.now ≤ 1518) }
    // The invariant of an engine's value, for the proofs of callers.
    ensures sound { IsReceiver engine.now }
{
    let left = engine.left()?;
    if !is_enabled_and_offered(ring, control) {
        return None;
    }
    let size = usize::from(control.buffer_size());
    Some(NextPiece {
        bytes: &left[..left.len().min(size)],
        ends: is_last_piece(left.len(), size),
    })
}

/// Returns whether RCTL.EN is set, and at least one descriptor is offered.
fn is_enabled_and_offered(ring: &Ring, control: Rctl) -> bool
    ensures { IsTrue result ↔ IsEnabledAndOffered control.0 ring.now }
{
    control.is_enabled() && ring.head != ring.tail
}

/// Returns whether `left` bytes, the rest of a frame, fit into a buffer of `size` bytes, so that the next piece is the
/// last one.
fn is_last_piece(left: usize, size: usize) -> bool
    ensures { result ≡ nat_le left size }
{
    left <= size
}

/// Writes a piece to the buffer that the descriptor at the head points to. Returns the address of this descriptor.
/// Returns `None`, without a change of memory, if and only if the piece can't be moved, so that the step is a fault.
fn store_piece(ring: &Ring, control: Rctl, memory: &mut HostMemory, piece: &[u8]) -> Option<u64>
    ensures can { IsSome result ↔ CanMove control.0 ring.now memory.old (length piece.now) }
    ensures descriptor { IfSome result (λ descriptor. descriptor ≡ address_of ring.now ring.now.head) }
    ensures stored { IfSome result (λ _. memory.new
        ≡ with_bytes memory.old (named_address memory.old (address_of ring.now ring.now.head)) piece.now) }
    ensures fault { IsNone result → memory.new ≡ memory.old }
    ensures only { ChangesOnly memory.old memory.new
        (area_at (named_address memory.old (address_of ring.now ring.now.head)) (length piece.now)) }
{
    if !ring.has_valid_indices() || control.extends_buffer_size() {
        return None;
    }
    let descriptor = ring.descriptor(ring.head, memory.size())?;
    let buffer = buffer_named_at(memory, descriptor)?;
    if store_in(memory, buffer, piece) {
        Some(descriptor)
    } else {
        None
    }
}

/// Returns the buffer address in the descriptor at an address, or `None` exactly if that descriptor isn't inside
/// memory.
fn buffer_named_at(memory: &HostMemory, descriptor: u64) -> Option<u64>
    ensures lies { IsSome result ↔ LiesIn memory.now descriptor 16 }
    ensures value { IfSome result (λ address. address ≡ named_address memory.now descriptor) }
{
    let bytes = memory.view(descriptor, RX_DESC_BYTES).ok()?;
    // The view has 16 bytes, so `first_chunk` never returns `None`.
    Some(RxDesc::from_bytes(bytes.first_chunk()?).address)
}

/// Returns whether exactly half of the ring's descriptors are offered, from head up to, but not including, tail. Head
/// and tail must be indices of slots.
fn is_half_offered(ring: &Ring) -> bool
    requires { HasValidIndices ring.now }
    ensures { result ≡ is_half_offered ring.now }
{
    2 * ring.distance(ring.head, ring.tail) == ring.count()
}
