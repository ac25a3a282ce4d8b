// Arrivals and steps of reception.

ghost use Rattle.std.specs.Prelude.{◌≡◌, length};
ghost use Rattle.adapter_model.specs.DataOutcomes.{causes_of_data, outcome_of_data, outcome_of_done};
ghost use Rattle.adapter_model.specs.Outcomes.{framed};
ghost use Rattle.adapter_model.specs.State.{IsAdapter};
ghost use Rattle.adapter_model.specs.Receiving.{DataAnswers, DataChangesOnly, DoneAnswers, DoneChangesOnly, IsFate};
ghost use Rattle.adapter_model.specs.Receiving.{after_arrive, after_data, after_done, memory_after_data_step};
ghost use Rattle.adapter_model.specs.Receiving.{is_ending, memory_after_done_step};

use crate::Adapter;
use crate::outcome::Outcome;
use bitflags::Flags;
use dma_memory::HostMemory;
use registers::Cause;
use rx_engine::{Data, Done, Fate, RxEngine, arrive, rx_data, rx_done};

impl Adapter {
    /// Delivers a frame from the wire, and returns its fate: the first variant of [`Fate`] that applies. The fate
    /// depends on the frame's length, on RCTL, on the receive filter, and on the room in the packet buffer, whose size
    /// PBA selects.
    ///
    /// If the frame is missed, MPC counts it, and RXO is recorded. If the frame is stored or missed while RDH equals
    /// RDT, RNBC counts it (our choice). If a write of PBA makes the packet buffer smaller, the frames in the buffer
    /// remain. While the buffer has no room for a frame that would otherwise be stored, this frame is missed.
    pub fn arrive(&mut self, frame: &[u8]) -> Fate
        ensures fate { IsFate self.old frame.now result }
        ensures state { self.new ≡ after_arrive result frame.now self.old }
        ensures adapter { IsAdapter self.new }
    {
        let room = self.packet_buffer.bytes();
        let fate = arrive(&mut self.receiver, &self.file.filter, room, frame);
        self.file.note_arrival(fate);
        fate
    }

    /// Performs a step `RxData`, which writes the next piece of the packet buffer's oldest frame to memory. If exactly
    /// half of the ring's descriptors are then offered, RXDMT0 is recorded.
    ///
    /// Returns `Nothing` if RCTL.EN is 0, the packet buffer is empty, no descriptor is offered, a piece is in progress,
    /// or a fault stopped `RxData`. Otherwise returns `Fault` if RCTL.BSEX is set, if RDH or RDT isn't a slot's index,
    /// or if descriptor or destination aren't inside memory. A fault stops `RxData` until a reset.
    pub(crate) fn move_piece(&mut self, memory: &mut HostMemory) -> Outcome<()>
        ensures answer { DataAnswers memory.old self.old (framed result self.old) }
        ensures state { self.new ≡ after_data (framed result self.old) self.old }
        ensures memory { memory.new ≡ memory_after_data_step (framed result self.old) memory.old self.old }
        ensures only { DataChangesOnly self.old memory.old memory.new }
        ensures size { length memory.new ≡ length memory.old }
        ensures adapter { IsAdapter self.new }
    {
        let file = &mut self.file;
        let mut ring = file.receive_ring.ring();
        let answer = rx_data(&mut self.receiver, &mut ring, file.filter.rctl(), memory);
        file.receive_ring.head = ring.head;
        file.causes.raise(causes_of_data(answer));
        outcome_of_data(answer)
    }

    /// Performs a step `RxDone`, which writes back the descriptor of the piece in progress, if the descriptor is inside
    /// memory. If the frame ends in this piece, RXT0 is recorded, and GPRC counts the frame. Returns `Nothing` if no
    /// piece is in progress.
    pub(crate) fn finish_piece(&mut self, memory: &mut HostMemory) -> Outcome<()>
        ensures answer { DoneAnswers self.old (framed result self.old) }
        ensures state { self.new ≡ after_done (framed result self.old) self.old }
        ensures memory { memory.new ≡ memory_after_done_step memory.old self.old }
        ensures only { DoneChangesOnly self.old memory.old memory.new }
        ensures size { length memory.new ≡ length memory.old }
        ensures adapter { IsAdapter self.new }
    {
        // `rx_done` removes the piece in progress, so this call is before `rx_done`.
        let ends = is_ending(&self.receiver);
        let answer = rx_done(&mut self.receiver, memory);
        self.file.note_finished(ends);
        outcome_of_done(answer)
    }
}

/// Returns whether a piece is in progress that is the last one of its frame.
fn is_ending(engine: &RxEngine) -> bool
    ensures { result ≡ is_ending engine.now.work }
{
    match engine.work() {
        Some(work) => work.ends,
        None => false,
    }
}

/// Returns the outcome of a step `RxDone` with this answer of the engine.
fn outcome_of_done(answer: Done) -> Outcome<()>
    ensures { result ≡ outcome_of_done answer }
{
    match answer {
        Done::Nothing => Outcome::Nothing,
        Done::Done => Outcome::Done,
    }
}

/// Returns the outcome of a step `RxData` with this answer of the engine.
fn outcome_of_data(answer: Data) -> Outcome<()>
    ensures { result ≡ outcome_of_data answer }
{
    match answer {
        Data::Nothing => Outcome::Nothing,
        Data::Part { .. } => Outcome::Part,
        Data::Moved { .. } => Outcome::Moved,
        Data::Fault => Outcome::Fault,
    }
}

/// Returns the causes that a step `RxData` with this answer of the engine records: RXDMT0 if a piece was moved, and
/// exactly half of the ring's descriptors are now offered.
fn causes_of_data(answer: Data) -> Cause
    ensures { result.0 ≡ causes_of_data answer }
{
    match answer {
        Data::Part { half_offered: true } | Data::Moved { half_offered: true } => Cause::RXDMT0,
        _ => Cause::empty(),
    }
}
