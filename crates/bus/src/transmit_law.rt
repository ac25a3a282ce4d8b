// Laws of a driver's transmit side.

ghost use Rattle.bus.specs.TransmitSteps.{DataIsStored, DescriptorIsStored, FrameIsOffered};
ghost use Rattle.bus.specs.TransmitSteps.{NextSlotBelongsToDriver, NoneIsWrittenBack, SendsEndWithTail};
ghost use Rattle.bus.specs.TransmitSteps.{SlotIsFreed, SlotsHaveFrames, SlotsKeepBytes, TailIsMoved};

/// What a driver that is ready, with its transmit side set up, knows of a transmit slot that isn't outstanding.
/// - `next`: the slot at the tail is such a slot.
/// - `data_stored`: the driver remains ready after a store of any bytes into the slot's buffer, from its start on.
/// - `descriptor`: the driver remains ready after a store of any bytes into the slot's descriptor.
/// - `stay`: buffer and descriptor keep their bytes, whatever happens between two accesses.
pub fn transmit_slots_are_stored()
    ensures next { NextSlotBelongsToDriver }
    ensures data_stored { DataIsStored }
    ensures descriptor { DescriptorIsStored }
    ensures stay { SlotsKeepBytes }
{}

/// How a driver whose transmit side is set up sends the frame in the slot at the tail.
/// - `moved`: a write of TDT with the place after the tail advances the tail by one.
/// - `offered`: after this write, the frame, padded, is the last frame to be sent. The frame must have 14 to 1,518
///   bytes. Before the write, at least two slots must not be outstanding.
/// - `accesses`: in a call that frees slots and sends a frame, this write is the last access, after loads and stores.
#[tactic(auto, using(crate::proofs::Laws::frames_are_offered))]
pub fn frames_are_offered()
    ensures moved { TailIsMoved }
    ensures offered { FrameIsOffered }
    ensures accesses { SendsEndWithTail }
{}

/// What a driver whose transmit side is set up knows of its outstanding transmit slots.
/// - `done`: if DD is set in the descriptor of the oldest outstanding slot, the driver may free this slot.
/// - `waits`: if DD is clear in this descriptor, or no slot is outstanding, no slot is written back.
/// - `frames`: the number of outstanding slots is the number of written-back slots plus the number of frames to be
///   sent. There are fewer frames to be sent than slots in the ring.
#[tactic(auto, using(crate::proofs::Laws::slots_are_freed))]
pub fn slots_are_freed()
    ensures done { SlotIsFreed }
    ensures waits { NoneIsWrittenBack }
    ensures frames { SlotsHaveFrames }
{}
