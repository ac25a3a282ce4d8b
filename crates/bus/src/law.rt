// Laws of what may happen between two accesses, and of the accesses of a driver.

ghost use Rattle.adapter_model.specs.World.{receive_ring, transmit_ring};
ghost use Rattle.bus.specs.Composition.{HappeningsJoin, NothingHappens, SoundStays};
ghost use Rattle.bus.specs.Faults.{FaultsNeverCome};
ghost use Rattle.bus.specs.IdleRings.{HappeningsKeepIdle, IdleAfterPowerOn, IdleAfterReset, IdleRingsAreSound};
ghost use Rattle.bus.specs.IdleRings.{OtherWritesKeepIdle, ReadsKeepIdle, StoresKeepIdle, WritesKeepIdle};
ghost use Rattle.bus.specs.RegisterSetting.{ManySlotsCanBeOffered, OffersWait, OtherWritesLeaveFrames};
ghost use Rattle.bus.specs.RegisterSetting.{ReadsLeaveFrames, ReceiverCanBeSet, TransmitRingCanBeSet};
ghost use Rattle.bus.specs.RegisterSetting.{TransmitStaysIdle, TransmitterCanBeSet};
ghost use Rattle.bus.specs.RunsOfSlots.{RunsCanBeTaken};
ghost use Rattle.bus.specs.SlotOffers.{FramesCanBeOffered, SlotsCanBeOffered};
ghost use Rattle.bus.specs.DriversSlots.{DriversSideStaysAlways};
ghost use Rattle.bus.specs.LargeBuffers.{LargeBuffersTakeFrames};
ghost use Rattle.bus.specs.KnownRings.{KnownRingStays, ReceiveTailMoves, TransmitTailMoves};
ghost use Rattle.bus.specs.WritableSlots.{DriversReceiveSlotsCanBeWritten, DriversTransmitSlotsCanBeWritten};
ghost use Rattle.bus.specs.WritableSlots.{SlotsFromTailBelongToDriver, TailSlotsBelongToDriver};
ghost use Rattle.bus.specs.DriversStores.{DriversStoresLeaveForeign, DriversStoresLeaveFrames};
ghost use Rattle.bus.specs.SpareMemory.{AreasStayApart};
ghost use Rattle.bus.specs.StepsAndArrivals.{ArrivalsHappen, StepsHappen};
ghost use Rattle.bus.specs.FreedSlots.{WrittenSlotsCanBeFreed};
ghost use Rattle.bus.specs.Trails.{TrailsHappen};

/// Laws of `Happens`, what adapter steps and deliveries may do in an interval between two accesses.
/// - `joins`: two consecutive intervals form one. In its `Past`, the lists of both are appended, and the numbers of
///   missed frames and of ticks are added.
/// - `nothing`: an interval may be empty.
/// - `sound`: if the conditions of the law hold before an interval, they hold after it, for the same oldest slots.
pub fn intervals_compose()
    ensures joins { HappeningsJoin }
    ensures nothing { NothingHappens }
    ensures sound { SoundStays }
{}

/// Any list of adapter steps and deliveries may happen between two accesses (`Happens`). Each step must have an
/// outcome, and each delivery a fate, that the adapter's contract allows.
#[tactic(auto, using(crate::proofs::Trails::trails_happen))]
pub fn any_steps_may_happen()
    ensures { TrailsHappen }
{}

/// Each step of an adapter, and each delivery of a frame to it, may happen between two accesses (`Happens`). The step
/// has an outcome, or the delivery a fate, that the adapter's contract allows. This is true in every state of the
/// adapter and its memory, whichever slots a driver counts as its oldest.
#[tactic(auto, using(crate::proofs::StepInstances::arrivals_happen, crate::proofs::StepInstances::steps_happen))]
pub fn steps_are_instances()
    ensures steps { StepsHappen }
    ensures arrivals { ArrivalsHappen }
{}

/// If the conditions of the law hold and both engines can run, no step has the outcome `Fault`. By the law, both
/// engines can still run afterwards.
#[tactic(auto, using(crate::proofs::RunningEngines::faults_never_come))]
pub fn faults_never_come()
    ensures { FaultsNeverCome }
{}

/// What doesn't change between two accesses of a driver, if the conditions of the law hold before. These conditions
/// hold again, and the lists of finished and written-back slots only grow. An area that the adapter may not write
/// doesn't change, and remains such an area. The same slots are outstanding. The descriptors of finished slots and
/// their pieces of frames don't change. The descriptors of written-back slots and of the driver's own slots of both
/// rings don't change either. The addresses in receive descriptors don't change. Of a transmit descriptor, only the
/// status may change.
pub fn drivers_side_stays()
    ensures { DriversSideStaysAlways }
{}

/// The effect of a driver's store to bytes inside memory. The bytes must be apart from all outstanding descriptors, and
/// from the frames and buffers that the conditions of the law name.
/// - `frames`: the conditions still hold, and the slots, the frames held and the frames to be sent are the same. Frames
///   that are cut into buffers of some size are still cut in this way. Pieces that fit into such buffers still fit, and
///   engines that could run still can run.
/// - `foreign`: an area that the adapter may not write remains such an area.
pub fn drivers_stores_leave_frames()
    ensures frames { DriversStoresLeaveFrames }
    ensures foreign { DriversStoresLeaveForeign }
{}

/// A driver may write the descriptor of each slot that isn't outstanding: such a slot is the driver's.
/// - `received`, `sent`: if the conditions of the law hold, the driver's slots of either ring are inside memory, and
///   the adapter may not write them. [`drivers_stores_leave_frames`] applies to a store to such a slot.
/// - `from_tail`: the slots from the tail up to, but not including, the oldest one are the driver's. If the tail is the
///   oldest slot, all slots are the driver's.
/// - `tail`: the slot at the tail is the driver's.
pub fn drivers_slots_can_be_written()
    ensures received { DriversReceiveSlotsCanBeWritten }
    ensures sent { DriversTransmitSlotsCanBeWritten }
    ensures from_tail { SlotsFromTailBelongToDriver }
    ensures tail { TailSlotsBelongToDriver }
{}

/// A driver knows a ring's base, its number of slots and its tail, and that the head is one of the slots. This remains
/// true whatever happens between two accesses.
#[tactic(auto, using(crate::proofs::Laws::known_rings_stay))]
pub fn known_rings_stay()
    ensures received { KnownRingStays receive_ring }
    ensures sent { KnownRingStays transmit_ring }
{}

/// A write of an index below 65,536 to RDT or TDT changes only this register.
pub fn tails_can_be_moved()
    ensures receive { ReceiveTailMoves }
    ensures transmit { TransmitTailMoves }
{}

/// A driver may offer its next receive slot, the one at RDT, by advancing RDT by one. RDH, RDT and the driver's oldest
/// slot must be slots of the ring, and the slot after RDT must not be the oldest one. DD must be clear in the
/// descriptor at RDT. If RCTL.EN is set, the slot's buffer must be inside memory, apart from all areas that the
/// conditions of the law name.
///
/// Before the offer, the conditions of the law must hold. After it, they hold again, the frames held and to be sent are
/// the same, and the slot is the last outstanding one. Engines that could run still can run. An area that the adapter
/// may not write remains such an area, if it is apart from bytes 8 to 15 of the descriptor. If RCTL.EN is set, the area
/// must also be apart from the buffer.
pub fn slots_can_be_offered()
    ensures { SlotsCanBeOffered }
{}

/// A driver may offer its next transmit slot, the one at TDT, by advancing TDT by one. TDH, TDT and the driver's oldest
/// slot must be slots of the ring, and the slot after TDT must not be the oldest one. TCTL.PSP must be set. The
/// descriptor at TDT must ask for a report, and its DD must be clear. The slot's data must be inside memory, apart from
/// all areas that the conditions of the law name.
///
/// After the offer, the conditions of the law hold again. The slot's frame, padded, is the last one to be sent. If the
/// descriptor can be transmitted, engines that could run still can run. An area that the adapter may not write remains
/// such an area, if it is apart from byte 12 of the descriptor.
pub fn frames_can_be_offered()
    ensures { FramesCanBeOffered }
{}

/// If frames are cut into receive buffers with room for each legal frame, no frame has more than one piece. Each slot
/// that is finished or in progress then contains a complete frame.
pub fn large_buffers_take_frames()
    ensures { LargeBuffersTakeFrames }
{}

/// A driver takes a run of its oldest finished receive slots, of which only the last has EOP. For this, the driver
/// counts the slot after the run as its oldest. Then the conditions of the law hold, and the slots of the run are the
/// driver's. The frame of these slots, with its pieces joined, is removed from the front of the frames held. The
/// adapter may not write the frame any more.
pub fn runs_can_be_taken()
    ensures { RunsCanBeTaken }
{}

/// A driver frees its oldest written-back transmit slot by counting the next slot as its oldest. Then the conditions of
/// the law hold, and the slot is the driver's.
pub fn written_slots_can_be_freed()
    ensures { WrittenSlotsCanBeFreed }
{}

/// Spare memory is apart from both rings, and from all buffers and data that outstanding slots point to. Whatever
/// happens, spare memory remains spare and apart from all areas that the conditions of the law name, and the adapter
/// may not write it. The finished pieces and the piece in progress must fit into a receive buffer, and they still fit
/// afterwards.
pub fn areas_stay_apart()
    ensures { AreasStayApart }
{}

/// An idle adapter has no piece in progress, no moved byte in the receive packet buffer, and no frame to be sent. Its
/// rings offer no slot, and are in memory, apart from each other. An idle adapter meets the conditions of the law, with
/// the tails as the driver's oldest slots. An adapter is idle after power-on and after a reset, with a memory of any
/// size.
#[tactic(auto, using(crate::proofs::Laws::sound_idle_rings))]
pub fn idle_rings_are_sound()
    ensures sound { IdleRingsAreSound }
    ensures after_power_on { IdleAfterPowerOn }
    ensures after_reset { IdleAfterReset }
{}

/// An idle adapter ([`idle_rings_are_sound`]) remains idle until a register of a ring is written. So the conditions of
/// the law hold in each state of initialization up to the first offered slot. The adapter remains idle:
/// - `happenings`: whatever happens between two accesses.
/// - `reads`, `stores`: after a read of any register, and after a store inside memory.
/// - `other_writes`: after a write of any register that isn't a ring's, even after a reset.
/// - `writes`: after a write of any register, if head then equals tail in each ring, and both rings are in memory,
///   apart from each other.
#[tactic(auto, using(crate::proofs::Laws::idle_rings_stay_idle))]
pub fn idle_rings_stay_idle()
    ensures happenings { HappeningsKeepIdle }
    ensures reads { ReadsKeepIdle }
    ensures stores { StoresKeepIdle }
    ensures other_writes { OtherWritesKeepIdle }
    ensures writes { WritesKeepIdle }
{}

/// A driver may offer several receive slots by one write of RDT, if each can be offered after the slot before it
/// ([`slots_can_be_offered`]). After the write, the conditions of the law hold, and these slots are the last
/// outstanding ones. The frames held and to be sent are the same. Engines that could run still can run.
pub fn many_slots_can_be_offered()
    ensures { ManySlotsCanBeOffered }
{}

/// Accesses of a driver to registers, except offers of slots by RDT and TDT. If the conditions of the law hold before
/// an access, they hold after it. Engines that could run still can run, except after a write of RCTL with BSEX. Slots
/// and frames are the same, except for `transmit_ring`.
/// - `receive_control`: a write of RCTL, if all areas that the conditions then name are inside memory, apart from one
///   another.
/// - `transmit_control`: a write of TCTL, if PSP is set in the written value or TDH equals TDT.
/// - `transmit_ring`: the setup of a transmit ring while no frame is in the transmit packet buffer. TDH must equal TDT,
///   and the ring must be inside memory, apart from all other areas. The conditions then hold with TDT as the oldest
///   slot. No transmit slot is outstanding, no frame is to be sent, and received frames are the same.
/// - `others`: a write of a register other than RCTL, TCTL and the registers of both rings, if it isn't a reset.
/// - `reads`: a read of any register.
#[tactic(auto, using(crate::proofs::Laws::registers_can_be_set))]
pub fn registers_can_be_set()
    ensures receive_control { ReceiverCanBeSet }
    ensures transmit_control { TransmitterCanBeSet }
    ensures transmit_ring { TransmitRingCanBeSet }
    ensures others { OtherWritesLeaveFrames }
    ensures reads { ReadsLeaveFrames }
{}

/// What doesn't change while a driver initializes, whatever happens between two of its accesses:
/// - `offers`: the offered receive slots and the addresses of their buffers. No slot is finished or in progress.
///   RCTL.EN must be 0, no frame may be held, and the driver's oldest slot must be a slot of the ring. Frames must be
///   cut into buffers of one size, at least one byte, so that no slot contains a part of a frame.
/// - `transmit_ring`: if TDH, TDT and the driver's oldest slot are equal, TDH and TDT remain equal, and no frame is in
///   the transmit packet buffer.
pub fn rings_wait()
    ensures offers { OffersWait }
    ensures transmit_ring { TransmitStaysIdle }
{}
