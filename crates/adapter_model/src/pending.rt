// The frames that a host and its adapter hold, and the frames still to be sent.

ghost use Rattle.std.specs.Prelude.{◌≡◌, ◌≤◌, ◌<◌, ◌+◌, ◌++◌, ◌∷◌, [], length, map, true, vec_capacity};
ghost use Rattle.adapter_model.specs.HostFrames.{frames_held, frames_to_send, pieces_in_slots};
ghost use Rattle.adapter_model.specs.Pending.{CanReadHeld, CanReadSending};
ghost use Rattle.rx_engine.specs.Pieces.{frames_of};

use crate::Adapter;
use arrayvec::ArrayVec;
use descriptors::Frame;
use dma_memory::HostMemory;
use rx_engine::{RxEngine, append_finished, append_piece, bytes_in_progress};
use tx_engine::{TxEngine, append_queued};

impl Adapter {
    /// Lists the frames that are dropped if the driver resets the adapter now. `oldest` is the driver's oldest receive
    /// slot.
    /// - Appends the frames still to be sent to `sending`: first those in the transmit packet buffer, then those of the
    ///   offered transmit descriptors. The latter are padded to 60 bytes, whether TCTL.PSP is set or not.
    /// - Appends the frames held to `holding`. First come those that end in finished slots, from slot `oldest` on, or
    ///   in the slot in progress. The frames in the receive packet buffer follow.
    ///
    /// The rings, the data of offered transmit descriptors, and the pieces in these receive slots must be inside
    /// memory. The descriptor of the piece in progress must be inside memory, too. No frame may exceed 1,518 bytes. TDH
    /// must be the index of a slot if a transmit slot is offered, and so must `oldest` if a receive slot is outstanding
    /// (`specs/Pending.antt`). Both lists must have room for these frames: the call allocates no memory.
    pub fn pending(
        &self,
        memory: &HostMemory,
        oldest: u16,
        sending: &mut Vec<Frame>,
        holding: &mut Vec<Frame>,
    )
        requires sending { CanReadSending (record { memory = memory.now; adapter = self.now }) }
        requires holding { CanReadHeld oldest (record { memory = memory.now; adapter = self.now }) }
        requires sending_room { length sending.old.items
            + length (frames_to_send (record { memory = memory.now; adapter = self.now })) ≤ vec_capacity sending.old }
        requires holding_room { length holding.old.items
            + length (frames_held oldest (record { memory = memory.now; adapter = self.now }))
            ≤ vec_capacity holding.old }
        ensures sending { sending.new.items ≡ sending.old.items
            ++ frames_to_send (record { memory = memory.now; adapter = self.now }) }
        ensures holding { holding.new.items ≡ holding.old.items
            ++ frames_held oldest (record { memory = memory.now; adapter = self.now }) }
        // `holding` keeps its room, so a caller may append later frames without an allocation.
        ensures holding_capacity { vec_capacity holding.old ≤ vec_capacity holding.new }
    {
        let pad = true;
        append_to_put(&self.transmitter, sending);
        append_queued(memory, &self.file.transmit_ring.ring(), pad, sending);
        self.append_in_slots(memory, oldest, holding);
        append_buffered(&self.receiver, holding);
    }

    /// Appends to `holding` the frames that end in finished slots, from slot `oldest` of the receive ring on, or in the
    /// slot in progress. The list must have room for these frames. As for [`pending`](Adapter::pending), the slots and
    /// their pieces must be inside memory, and no frame may exceed 1,518 bytes (`CanReadHeld`).
    fn append_in_slots(&self, memory: &HostMemory, oldest: u16, holding: &mut Vec<Frame>)
        requires can { CanReadHeld oldest (record { memory = memory.now; adapter = self.now }) }
        requires room { length holding.old.items
            + length (frames_of (pieces_in_slots oldest (record { memory = memory.now; adapter = self.now })))
            ≤ vec_capacity holding.old }
        ensures frames { holding.new.items ≡ holding.old.items
            ++ frames_of (pieces_in_slots oldest (record { memory = memory.now; adapter = self.now })) }
        ensures room { vec_capacity holding.old ≤ vec_capacity holding.new }
    {
        let ring = self.file.receive_ring.ring();
        // The beginning of the frame that doesn't end in the slots read so far.
        let mut begun: ArrayVec<u8, 1518> = ArrayVec::new();
        append_finished(memory, &ring, oldest, &mut begun, holding);
        // The descriptor and the piece are inside memory, so `bytes_in_progress` never returns `None`.
        if let Some(work) = self.receiver.work()
            && let Some(bytes) = bytes_in_progress(memory, work)
        {
            append_piece(bytes, work.ends, &mut begun, holding);
        }
    }
}

/// Appends the frames in the transmit packet buffer, oldest first. The list must have room for these frames.
fn append_to_put(engine: &TxEngine, frames: &mut Vec<Frame>)
    requires room { length frames.old.items + length engine.now.buffer ≤ vec_capacity frames.old }
    ensures frames { frames.new.items ≡ frames.old.items ++ map (λ queued. queued.frame) engine.now.buffer }
    ensures room { vec_capacity frames.old ≤ vec_capacity frames.new }
{
    for index in 0..usize::from(engine.len()) {
        append_frame(engine.frame_at(index), frames);
    }
}

/// Appends the frames in the receive packet buffer, oldest first. The list must have room for these frames.
fn append_buffered(engine: &RxEngine, frames: &mut Vec<Frame>)
    requires room { length frames.old.items + length engine.now.buffer ≤ vec_capacity frames.old }
    ensures frames { frames.new.items ≡ frames.old.items ++ engine.now.buffer }
    ensures room { vec_capacity frames.old ≤ vec_capacity frames.new }
{
    for index in 0..usize::from(engine.buffered()) {
        append_frame(engine.frame_at(index), frames);
    }
}

/// Appends a frame with these bytes, at most 1,518. The list must have room for this frame.
fn append_frame(bytes: &[u8], frames: &mut Vec<Frame>)
    requires short { length bytes.now ≤ 1518 }
    requires room { length frames.old.items < vec_capacity frames.old }
    ensures frames { frames.new.items ≡ frames.old.items ++ bytes.now ∷ [] }
    ensures room { vec_capacity frames.old ≤ vec_capacity frames.new }
{
    // There is room, so the call allocates nothing and never fails.
    let _ = frames.push(Frame::from_slice(bytes));
}
