// The steps `TxTake` and `TxPut`, and the frame that the next `TxPut` puts onto the wire.

ghost use Rattle.std.specs.Prelude.{◌≡◌, ◌≤◌, ◌↔◌, [], length};
ghost use Rattle.std.specs.Prelude.{IfSome, IsNone};
ghost use Rattle.adapter_model.specs.DataOutcomes.{causes_of_take, outcome_of_put, outcome_of_take};
ghost use Rattle.adapter_model.specs.Outcomes.{framed, oldest_queued};
ghost use Rattle.descriptors.specs.Frames.{longest_frame};
ghost use Rattle.adapter_model.specs.State.{IsAdapter};
ghost use Rattle.adapter_model.specs.Transmitting.{PutAnswers, PutChangesOnly, TakeAnswers, after_put, after_take};
ghost use Rattle.adapter_model.specs.Transmitting.{memory_after_put};

use crate::Adapter;
use crate::outcome::Outcome;
use bitflags::Flags;
use dma_memory::HostMemory;
use registers::Cause;
use tx_engine::{Put, Take, put, take};

impl Adapter {
    /// Performs a step `TxTake`, which copies the frame that the descriptor at TDH points to into the packet buffer,
    /// and advances TDH. If TDH then equals TDT, TXQE is recorded.
    ///
    /// Returns `Nothing` if TCTL.EN is 0, the packet buffer is full, TDH equals TDT, or a fault stopped `TxTake`.
    /// Otherwise returns `Fault` if TDH or TDT isn't a slot's index, or if the descriptor isn't inside memory or can't
    /// be transmitted. A fault stops `TxTake` until a reset.
    pub(crate) fn take_frame(&mut self, memory: &HostMemory) -> Outcome<()>
        ensures answer { TakeAnswers memory.now self.old (framed result self.old) }
        ensures state { self.new ≡ after_take (framed result self.old) memory.now self.old }
        ensures adapter { IsAdapter self.new }
    {
        let file = &mut self.file;
        let mut ring = file.transmit_ring.ring();
        let answer = take(&mut self.transmitter, &mut ring, file.tctl, memory);
        file.transmit_ring.head = ring.head;
        file.causes.raise(causes_of_take(answer));
        outcome_of_take(answer)
    }

    /// Returns the frame, with its padding, that the next [`TxPut`](crate::StepKind::TxPut) puts onto the wire if the
    /// wire has room. The frame is the oldest one in the transmit packet buffer, and has at most 1,518 bytes. Returns
    /// `None` if and only if the packet buffer is empty.
    pub fn to_put(&self) -> Option<&[u8]>
        ensures none { IsNone result ↔ (self.now.transmitter.buffer ≡ []) }
        ensures oldest { IfSome result (λ frame. frame.now ≡ oldest_queued self.now.transmitter.buffer) }
        ensures fits { IfSome result (λ frame. length frame.now ≤ longest_frame) }
    {
        self.transmitter.front()
    }

    /// Performs a step `TxPut`, which puts the oldest frame of the packet buffer onto the wire. GPTC counts the frame.
    /// If the frame's descriptor asks for a report, DD is written to the descriptor's status byte (if this byte is
    /// inside memory), and TXDW is recorded. Returns `Nothing` if the packet buffer is empty. Otherwise returns
    /// `WireFull` if `wire_free` is false. In both cases, nothing changes.
    pub(crate) fn put_frame(&mut self, memory: &mut HostMemory, wire_free: bool) -> Outcome<()>
        ensures answer { PutAnswers wire_free self.old (framed result self.old) }
        ensures state { self.new ≡ after_put (framed result self.old) self.old }
        ensures memory { memory.new ≡ memory_after_put (framed result self.old) memory.old self.old }
        ensures only { PutChangesOnly self.old memory.old memory.new }
        ensures size { length memory.new ≡ length memory.old }
        ensures adapter { IsAdapter self.new }
    {
        let answer = put(&mut self.transmitter, memory, wire_free);
        self.file.note_put(answer);
        outcome_of_put(answer)
    }
}

/// Returns the outcome of a step `TxTake` with this answer of the engine.
fn outcome_of_take(answer: Take) -> Outcome<()>
    ensures { result ≡ outcome_of_take answer }
{
    match answer {
        Take::Nothing => Outcome::Nothing,
        Take::Took { .. } => Outcome::Took,
        Take::Fault => Outcome::Fault,
    }
}

/// Returns the causes that a step `TxTake` with this answer of the engine records: TXQE if a frame was taken, and TDH
/// now equals TDT.
fn causes_of_take(answer: Take) -> Cause
    ensures { result.0 ≡ causes_of_take answer }
{
    match answer {
        Take::Took { emptied: true } => Cause::TXQE,
        _ => Cause::empty(),
    }
}

/// Returns the outcome of a step `TxPut` with this answer of the engine.
fn outcome_of_put(answer: Put) -> Outcome<()>
    ensures { result ≡ outcome_of_put answer }
{
    match answer {
        Put::Nothing => Outcome::Nothing,
        Put::WireFull => Outcome::WireFull,
        Put::Put { .. } => Outcome::Put(()),
    }
}
