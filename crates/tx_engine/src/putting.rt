ghost use Rattle.std.specs.Prelude.{◌≡◌, ◌↔◌, ◌∷◌, [], All, Bool, false, drop};
ghost use Rattle.dma_memory.specs.Areas.{area_at};
ghost use Rattle.descriptors.specs.declared.ring.Ring.{Ring};
ghost use Rattle.descriptors.specs.Ring.{address_of, offered_places};
ghost use Rattle.tx_engine.specs.Steps.{IfPut, IfFront, DiffersAtMostAt, status_place, written_back};
ghost use Rattle.tx_engine.specs.ToSend.{to_send, IsAwayFrom};

use crate::Put;
use crate::engine::TxEngine;
use bitflags::Flags;
use descriptors::TxStatus;
use dma_memory::HostMemory;

/// The offset of the status byte in a transmit descriptor, in bytes.
const STATUS_PLACE: u64 = 12;

/// Performs one step of transmission: puts the oldest frame of the packet buffer onto the wire. The caller can read
/// the frame with [`TxEngine::front`] before the step.
///
/// - `Nothing` exactly if the buffer is empty.
/// - Otherwise `WireFull` exactly if `wire_free` is false: the wire has no room for a frame.
/// - Otherwise `Put`: the frame is removed from the buffer. `reported` is whether the frame's descriptor asks for a
///   report (RS). If `reported` is true, the descriptor's status byte becomes 1 (DD), at the address from which `take`
///   read the descriptor. If memory ends before this byte, nothing is written.
///
/// If memory has the same size as in the call of [`take`](crate::take), the status byte is inside memory.
pub fn put(engine: &mut TxEngine, memory: &mut HostMemory, wire_free: bool) -> Put
    ensures nothing { (result ≡ Put.Nothing) ↔ (engine.old.buffer ≡ []) }
    ensures wire_full { (result ≡ Put.WireFull) ↔ ((¬ (engine.old.buffer ≡ [])) × (wire_free ≡ false)) }

    ensures untouched { (result ≡ Put.Nothing) → (engine.new ≡ engine.old) × (memory.new ≡ memory.old) }
    ensures waits { (result ≡ Put.WireFull) → (engine.new ≡ engine.old) × (memory.new ≡ memory.old) }
    ensures gone { IfPut result (λ _. engine.new ≡ record engine.old { buffer = drop 1 engine.old.buffer }) }
    ensures reported { IfPut result (λ reported. IfFront engine.old.buffer (λ queued. reported ≡ queued.rs)) }
    ensures written { IfPut result
        (λ _. IfFront engine.old.buffer (λ queued. memory.new ≡ written_back memory.old queued)) }
    // Whatever the answer, memory changes at most in the status byte of the oldest frame's descriptor.
    ensures one_byte { IfFront engine.old.buffer
        (λ queued. DiffersAtMostAt (status_place queued) memory.old memory.new) }

    // For each transmit ring and each `pad`: if the status byte is apart from each offered descriptor and its frame
    // (`IsAwayFrom`), the first of the frames to be sent is put on the wire. The other frames to be sent don't change.
    ensures to_send { IfPut result (λ _. IfFront engine.old.buffer (λ queued.
        (ring : Ring) (pad : Bool)
        → All (λ slot. IsAwayFrom memory.old (area_at (status_place queued) 1) (address_of ring slot))
        (offered_places ring)
        → to_send memory.old ring pad engine.old.buffer
        ≡ queued.frame ∷ to_send memory.new ring pad engine.new.buffer)) }
{
    if !wire_free {
        return if engine.is_empty() {
            Put::Nothing
        } else {
            Put::WireFull
        };
    }
    let Some(report) = engine.pop() else {
        return Put::Nothing;
    };
    if report.rs {
        // The address fits into 64 bits (`Report`). If memory ends before the status byte, nothing is written.
        let _ = memory.store(report.descriptor + STATUS_PLACE, &[TxStatus::DD.bits()]);
    }
    Put::Put {
        reported: report.rs,
    }
}
