ghost use Rattle.std.specs.Prelude.{◌≡◌, ◌==◌, ◌<◌, ◌↔◌, false, true, IsTrue, if◌then◌else◌, length};
ghost use Rattle.tx_engine.specs.Fetching.{HasNoFrameToTake, IsFetchable, pads};
ghost use Rattle.tx_engine.specs.Steps.{IfTook, Takes};
ghost use Rattle.tx_engine.specs.ToSend.{to_send};

use crate::Take;
use crate::engine::TxEngine;
use crate::fetching::fetch;
use descriptors::{Ring, SHORTEST_LEGAL};
use dma_memory::HostMemory;
use registers::Tctl;

/// Returns whether [`take`] has nothing to do, so that it would return `Nothing`. If not, the packet buffer has room
/// for a frame (clause `room`).
pub fn has_nothing_to_take(engine: &TxEngine, ring: &Ring, control: Tctl) -> bool
    ensures nothing { IsTrue result ↔ HasNoFrameToTake control.0 engine.now ring.now }
    ensures room { (result ≡ false) → length engine.now.buffer < 4 }
{
    !control.is_enabled() || engine.is_stopped() || engine.is_full() || ring.head == ring.tail
}

/// Performs one step of transmission: copies the frame that the descriptor at the head of the ring points to into the
/// packet buffer.
///
/// - `Nothing` exactly if TCTL.EN is 0, the engine is stopped, its buffer contains four frames, or head equals tail.
/// - Otherwise `Fault` exactly if one of these conditions is true. Head or tail isn't the index of a slot (a ring
///   without descriptors has no slots). The descriptor at the head isn't inside memory, or the bytes that it points to
///   aren't inside memory (addresses don't wrap). EOP is clear, DEXT is set, or the length is 0 or above 1,518. Ring
///   and buffer are then unchanged, and the engine takes no frame until a reset.
/// - Otherwise `Took`: the frame is in the buffer, and head has advanced by one slot. If TCTL.PSP is set, zeros pad a
///   frame of fewer than 60 bytes to 60 bytes.
pub fn take(engine: &mut TxEngine, ring: &mut Ring, control: Tctl, memory: &HostMemory) -> Take
    ensures nothing { (result ≡ Take.Nothing) ↔ HasNoFrameToTake control.0 engine.old ring.old }
    ensures fault { (result ≡ Take.Fault)
        ↔ ((¬ (HasNoFrameToTake control.0 engine.old ring.old)) × (¬ (IsFetchable memory.now ring.old))) }

    ensures untouched { (result ≡ Take.Nothing) → (engine.new ≡ engine.old) × (ring.new ≡ ring.old) }
    ensures stopped { (result ≡ Take.Fault) → (engine.new ≡ record engine.old { stopped = true })
        × (ring.new ≡ ring.old) }
    ensures took { IfTook result (λ _. Takes control.0 memory.now ring.old ring.new engine.old engine.new) }
    ensures fetchable { IfTook result (λ _. IsFetchable memory.now ring.old) }
    ensures emptied { IfTook result (λ emptied. emptied ≡ (ring.new.head == ring.new.tail)) }

    // Whatever the answer, the frames to be sent don't change.
    ensures to_send { to_send memory.now ring.new (pads control.0) engine.new.buffer
        ≡ to_send memory.now ring.old (pads control.0) engine.old.buffer }
{
    if has_nothing_to_take(engine, ring, control) {
        return Take::Nothing;
    }
    let Some(named) = fetch(ring, memory) else {
        engine.stop();
        return Take::Fault;
    };
    engine.push(named, least_of(control));
    ring.head = ring.next(ring.head);
    Take::Took {
        emptied: ring.head == ring.tail,
    }
}

/// Returns the least number of bytes of a frame as it is put onto the wire: 60 if TCTL.PSP is set, else 0.
fn least_of(control: Tctl) -> usize
    ensures { result ≡ (if pads control.0 then 60 else 0) }
{
    if control.pads_short_packets() {
        SHORTEST_LEGAL
    } else {
        0
    }
}
