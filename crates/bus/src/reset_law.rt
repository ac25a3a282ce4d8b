// Laws of a driver that resets its adapter.

ghost use Rattle.bus.specs.Resets.{DriversRest, ReceiverIsDisabled, ResetForgetsSlots, ResetKeepsSum};
ghost use Rattle.bus.specs.Resets.{RestKeepsMemory};

/// A driver that is ready may disable the receiver and reset its adapter, whatever its slots contain.
/// - `disabled`: the driver remains ready after a write of RCTL in which EN and BSEX are 0.
/// - `forgets`: after the reset the adapter is at rest: its rings are idle, its engines hold no frame, and RCTL and MPC
///   are 0 (`IsAtRest`). The buffers of all slots are free. Pieces of frames that receivers hold are still in their
///   buffers.
/// - `sum`: the reset loses no count of missed frames if MPC is 0 before.
/// - `memory`: an adapter at rest doesn't write memory, whatever happens between two accesses.
/// - `rests`: the adapter remains at rest, and no frame is put on the wire, stored or missed, whatever happens between
///   two accesses.
#[tactic(auto, using(crate::proofs::Laws::drivers_reset))]
pub fn drivers_reset()
    ensures disabled { ReceiverIsDisabled }
    ensures forgets { ResetForgetsSlots }
    ensures sum { ResetKeepsSum }
    ensures memory { RestKeepsMemory }
    ensures rests { DriversRest }
{}
