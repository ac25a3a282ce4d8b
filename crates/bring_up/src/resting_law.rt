// Laws of a driver that begins with an adapter at rest.

ghost use Rattle.bring_up.specs.NoFrames.{ClearingWritesNoRegister, NewTransmitRingStays, NoFramesStay};
ghost use Rattle.bring_up.specs.NoFrames.{StagingWritesNoRegister};
ghost use Rattle.bring_up.specs.RestingRings.{DriversBeginAgain, DriversBeginAtRest};

/// Let an adapter be at rest, its receive ring be set up with no slot offered, and its transmit ring have its reset
/// values. Let the counts of the layout be valid, memory contain the whole layout, and each buffer be free exactly
/// once. Then a new driver, which has offered no slot, is ready with its transmit side off. RCTL.EN is 0, and no frame
/// is held or to be sent.
pub fn drivers_begin_at_rest()
    ensures { DriversBeginAtRest }
{}

/// Let the counts of a driver's layout be valid, its adapter be reset, and its receive ring be set up again with no
/// slot offered. Then the driver, without its slots from before the reset, is ready with its transmit side off. Others
/// hold the same pieces of frames. RCTL.EN is 0, and no frame is held or to be sent.
pub fn drivers_begin_again()
    ensures { DriversBeginAgain }
{}

/// What remains true while a driver sets up its receive ring.
/// - `quiet`: let RCTL.EN be 0, no frame be held or to be sent, and the transmit side be off. These facts remain true
///   while RCTL isn't written, and the driver takes and accepts no frame. Meanwhile, no frame is put on the wire,
///   stored or missed.
/// - `transmit_ring`: while the transmit side is off, the registers of the transmit ring keep their reset values until
///   one of them is written.
/// - `staged`, `cleared`: the stores that stage slots, and those that clear descriptors, write no register.
pub fn drivers_without_frames_stay_so()
    ensures quiet { NoFramesStay }
    ensures transmit_ring { NewTransmitRingStays }
    ensures staged { StagingWritesNoRegister }
    ensures cleared { ClearingWritesNoRegister }
{}
