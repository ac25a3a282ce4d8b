// Laws of the state in which a driver begins, and of the accesses of its initialization.

ghost use Rattle.bus.specs.Beginnings.{CausesAreEnabled, DriversBegin, LastSlotIsStored, NoFrameComes};
ghost use Rattle.bus.specs.Beginnings.{NothingIsHeld, ReceiverIsEnabled, RingsThatAreOffStay};
ghost use Rattle.bus.specs.Beginnings.{TransmitPlaceIsStored, TransmitRingIsWritten, TransmitterIsEnabled};
ghost use Rattle.bus.specs.Beginnings.{EnabledForgetsNoWork, SpareSlotIsStored};

/// A driver is ready in the state in which it begins. In this state its receive ring is set up, its transmit side is
/// set up or off, and no slot of either ring is offered.
pub fn drivers_begin()
    ensures { DriversBegin }
{}

/// A driver that is ready remains ready after these register writes of its initialization:
/// - `receiver`: a write of RCTL while no receive slot is finished or in progress, and the transmit side is off. The
///   value has BSEX 0, and BSIZE for the layout's receive buffers.
/// - `transmit_ring`: a write of TDBAL, TDBAH, TDLEN, TDH or TDT while the transmit side is off. After the write, TDH
///   must equal TDT, and the ring must be inside its place in the layout. The transmit side remains off.
/// - `transmitter`: a write of TCTL with PSP, after the registers of the transmit ring were set. After the write the
///   transmit side is set up.
/// - `causes`: a write of IMS, which changes only the mask.
///
/// `work`: no work is forgotten after a write of IMS with RXT0, if no frame ended in finished slots before, or RXT0 was
/// recorded.
#[tactic(auto, using(crate::proofs::Laws::registers_are_set))]
pub fn registers_are_set()
    ensures receiver { ReceiverIsEnabled }
    ensures transmit_ring { TransmitRingIsWritten }
    ensures transmitter { TransmitterIsEnabled }
    ensures causes { CausesAreEnabled }
    ensures work { EnabledForgetsNoWork }
{}

/// A driver that is ready remains ready after these stores of its initialization. The stores that stage slots are in
/// [`receive_slots_go_round`](crate::receive_slots_go_round).
/// - `last`: a store of the descriptor of the receive slot after the outstanding and staged slots.
/// - `spare`: a store of the descriptor of any receive slot that is neither outstanding nor staged.
/// - `transmit_ring`: a store to the place of the transmit ring, while the transmit side is off.
pub fn rings_are_stored()
    ensures last { LastSlotIsStored }
    ensures spare { SpareSlotIsStored }
    ensures transmit_ring { TransmitPlaceIsStored }
{}

/// What remains true of a driver that is ready during its initialization, whatever happens between two accesses.
/// - `frames`: if RCTL.EN is 0 and no received frame is held, RCTL.EN remains 0, and no frame is held later.
/// - `empty`: while RCTL.EN is 0 and no received frame is held, no receive slot is finished or in progress.
/// - `transmit_ring`: while the transmit side is off, the registers of the transmit ring don't change.
pub fn rings_stay()
    ensures frames { NoFrameComes }
    ensures empty { NothingIsHeld }
    ensures transmit_ring { RingsThatAreOffStay }
{}
