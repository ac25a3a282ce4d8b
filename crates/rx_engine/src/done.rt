// The done step, which ends the piece in progress, and writes back its descriptor if the descriptor is inside memory.

ghost use Rattle.std.specs.Prelude.{◌≡◌, ◌+◌, ◌↔◌, None, IfSome};
ghost use Rattle.dma_memory.specs.Areas.{ChangesOnly, area_at};
ghost use Rattle.dma_memory.specs.HostMemory.{LiesIn, bytes_at, with_bytes};
ghost use Rattle.descriptors.specs.RxStatus.{status_of};
ghost use Rattle.rx_engine.specs.Descriptors.{named_address};
ghost use Rattle.rx_engine.specs.Receiver.{IsReceiver};
ghost use Rattle.rx_engine.specs.Finishing.{engine_after_done, finished_bytes, finished_status, memory_after_done};
ghost use Rattle.rx_engine.specs.Finishing.{StandsApart};
ghost use Rattle.rx_engine.specs.Finishing.{IsFinished};

use crate::RxEngine;
use crate::storing::store_in;
use bitflags::Flags;
use descriptors::{RX_DESC_BYTES, RxDesc, RxStatus};
use dma_memory::HostMemory;

/// The offset of the length in a receive descriptor, in bytes. All bytes from this offset on are written back.
const LENGTH_PLACE: u64 = 8;

/// The result of a done step.
#[derive(Clone, Copy, Debug, PartialEq, Eq)]
pub enum Done {
    /// No piece was in progress, and nothing changed.
    Nothing,
    /// No piece is in progress any more. The descriptor of the piece is written back if it is inside memory.
    Done,
}

/// Ends the piece in progress, and writes back its descriptor ("3.2.3 Receive Descriptor Format"). The descriptor then
/// contains the length of the piece, DD, no error, and EOP if the frame ends in this piece. Returns `Nothing` if no
/// piece is in progress.
///
/// If memory ends before the end of the descriptor, nothing is written, but the piece isn't in progress any more. This
/// case doesn't occur if `memory` has the same size as in the call of [`rx_data`](crate::rx_data) that moved the piece.
/// If the piece is inside memory and apart from its descriptor, the finished descriptor defines this piece (clause
/// `finished`).
pub fn rx_done(engine: &mut RxEngine, memory: &mut HostMemory) -> Done
    ensures nothing { (result ≡ Done.Nothing) ↔ (engine.old.work ≡ None) }
    ensures engine { engine.new ≡ engine_after_done engine.old }
    ensures memory { memory.new ≡ memory_after_done engine.old.work memory.old }
    ensures finished { IfSome engine.old.work (λ work. LiesIn memory.old work.descriptor 16
        → StandsApart memory.old work.descriptor work.length
        → IsFinished memory.new work.descriptor work.ends
        (bytes_at memory.old (named_address memory.old work.descriptor) work.length)) }
    ensures only { IfSome engine.old.work
        (λ work. ChangesOnly memory.old memory.new (area_at (work.descriptor + 8) 8)) }
    // The invariant of an engine's value, for the proofs of callers.
    ensures before { IsReceiver engine.old }
    ensures after { IsReceiver engine.new }
{
    let Some(&work) = engine.work() else {
        return Done::Nothing;
    };
    if memory.view(work.descriptor, RX_DESC_BYTES).is_ok() {
        write_back(memory, work.descriptor, work.length, work.ends);
    }
    engine.end();
    Done::Done
}

/// Returns the status of a finished descriptor: DD, and EOP if its frame ends in this descriptor.
fn status(ends: bool) -> RxStatus
    ensures { result ≡ status_of (finished_status ends) }
{
    if ends {
        RxStatus::DD.union(RxStatus::EOP)
    } else {
        RxStatus::DD
    }
}

/// Writes bytes 8 to 15 of the descriptor at an address: this length, DD, EOP if `ends` is true, and 0 in the other
/// fields. The descriptor must be inside memory. If the piece of this length is inside memory and apart from the
/// descriptor, the descriptor then defines this piece (clause `finished`).
fn write_back(memory: &mut HostMemory, descriptor: u64, length: u16, ends: bool)
    requires { LiesIn memory.old descriptor 16 }
    ensures memory { memory.new ≡ with_bytes memory.old (descriptor + 8) (finished_bytes length ends) }
    ensures finished { StandsApart memory.old descriptor length
        → IsFinished memory.new descriptor ends (bytes_at memory.old (named_address memory.old descriptor) length) }
    ensures only { ChangesOnly memory.old memory.new (area_at (descriptor + 8) 8) }
{
    // Bytes 0 to 7, the address, aren't written.
    let finished = RxDesc {
        address: 0,
        length,
        checksum: 0,
        status: status(ends),
        errors: 0,
        special: 0,
    };
    let bytes = finished.to_bytes();
    // For the prover: `descriptor + LENGTH_PLACE` fits into 64 bits. `store_in` returns true, because the descriptor is
    // inside memory.
    prove!(descriptor < memory.size());
    store_in(
        memory,
        descriptor + LENGTH_PLACE,
        &bytes[LENGTH_PLACE as usize..],
    );
}
