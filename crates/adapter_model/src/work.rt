// Whether a step has something to do.

ghost use Rattle.std.specs.Prelude.{◌≡◌, ◌≢◌, ◌↔◌, [], None, IsTrue};
ghost use Rattle.adapter_model.specs.Receiving.{HasFrameAndDescriptor};
ghost use Rattle.adapter_model.specs.Steps.{TellsWork};
ghost use Rattle.adapter_model.specs.Transmitting.{HasNothingToTake};

use crate::Adapter;
use crate::step::StepKind;
use rx_engine::has_frame_to_move;
use tx_engine::has_nothing_to_take;

impl Adapter {
    /// Returns whether a step of this kind has something to do: its outcome isn't `Nothing`. The result depends
    /// neither on memory nor on the wire: [`TxPut`](StepKind::TxPut) has something to do even if the wire is full.
    pub fn has_work(&self, kind: StepKind) -> bool
        ensures work { TellsWork kind result self.now }
    {
        match kind {
            StepKind::TxTake => self.has_frame_to_take(),
            StepKind::TxPut => self.has_frame_to_put(),
            StepKind::RxData => self.has_piece_to_move(),
            StepKind::RxDone => self.has_piece_in_progress(),
            StepKind::EepromTick => self.eeprom_has_work(),
            StepKind::PhyTick => self.phy_has_work(),
        }
    }

    /// Returns whether a step `TxTake` would take a frame or be a fault: TCTL.EN is set, a descriptor is offered, the
    /// packet buffer has room, and no fault has stopped `TxTake`.
    fn has_frame_to_take(&self) -> bool
        ensures { IsTrue result ↔ (¬ (HasNothingToTake self.now)) }
    {
        !has_nothing_to_take(
            &self.transmitter,
            &self.file.transmit_ring.ring(),
            self.file.tctl,
        )
    }

    /// Returns whether a frame is in the transmit packet buffer.
    fn has_frame_to_put(&self) -> bool
        ensures { IsTrue result ↔ (self.now.transmitter.buffer ≢ []) }
    {
        !self.transmitter.is_empty()
    }

    /// Returns whether a step `RxData` would move a piece or be a fault: RCTL.EN is set, a frame is in the packet
    /// buffer, a descriptor is offered, no piece is in progress, and no fault has stopped `RxData`.
    fn has_piece_to_move(&self) -> bool
        ensures { IsTrue result ↔ HasFrameAndDescriptor self.now }
    {
        let ring = self.file.receive_ring.ring();
        has_frame_to_move(&self.receiver, &ring, self.file.filter.rctl())
    }

    /// Returns whether a piece is in progress.
    fn has_piece_in_progress(&self) -> bool
        ensures { IsTrue result ↔ (¬ (self.now.receiver.work ≡ None)) }
    {
        self.receiver.work().is_some()
    }
}
