// Laws of the registers that a driver reads and writes.

ghost use Rattle.bus.specs.ControlWrites.{ReceiveControlWrites, TransmitControlWrites, TransmitRingWrites};
ghost use Rattle.bus.specs.RegisterReadings.{CausesAreRead, MissesAreRead, OthersAreRead};

/// What a driver that is ready knows after a read of a register. The driver remains ready.
/// - `causes`: after a read of ICR no cause is recorded; frames, slots and counts are the same.
/// - `misses`: after a read of MPC the driver adds the value to its sum of missed frames, which must be below 2^64.
/// - `others`: a read of any other register changes nothing that the driver knows, and clears no recorded cause.
#[tactic(auto, using(crate::proofs::Laws::registers_are_read))]
pub fn registers_are_read()
    ensures causes { CausesAreRead }
    ensures misses { MissesAreRead }
    ensures others { OthersAreRead }
{}

/// A write of RCTL, of TCTL or of a register of the transmit ring changes only this register. The register stores the
/// kept bits of the value. The clauses state the world after the write by the definitions that the other laws use, such
/// as `with_receive_control`.
#[tactic(auto, using(crate::proofs::Laws::registers_are_written))]
pub fn registers_are_written()
    ensures transmit_ring { TransmitRingWrites }
    ensures receive_control { ReceiveControlWrites }
    ensures transmit_control { TransmitControlWrites }
{}
