// Only a driver's writes change the settings of its adapter, and an adapter at rest remains at rest while its driver
// sets it up.

ghost use Rattle.bus.specs.AdaptersAtRest.{AccessesKeepRest, HappeningsKeepRest, RestAfterReset, RestIsIdle};
ghost use Rattle.bus.specs.Settings.{HappeningsLeaveSettings, SettingsJoin, StaysOff, WritesSet};

/// Laws of a driver's settings: the contents of the registers of control, mask, filter, rings and packet buffer that
/// only a driver changes.
/// - `happenings`: what happens between two accesses doesn't change the settings.
/// - `writes`: the settings after a write of any register, even a reset, depend only on the write and the settings
///   before it.
/// - `joins`: if the driver's writes determine the settings after each of two consecutive intervals, they determine the
///   settings after both.
/// - `stays_off`: if RCTL.EN is 0, it remains 0 while RCTL isn't written, even after a reset.
pub fn writes_alone_set()
    ensures happenings { HappeningsLeaveSettings }
    ensures writes { WritesSet }
    ensures joins { SettingsJoin }
    ensures stays_off { StaysOff }
{}

/// An adapter is at rest if its rings are idle, its engines hold no frame and aren't stopped, and RCTL and MPC are 0.
/// - `idle`: the rings of an adapter at rest are idle, and its engines can run.
/// - `after_reset`: an adapter is at rest after a reset.
/// - `happenings`: whatever happens between two accesses, an adapter at rest remains at rest. Meanwhile, no frame is
///   stored, missed or put on the wire.
/// - `accesses`: an adapter at rest remains at rest after each access within memory, except a write of RCTL or of a
///   ring's register.
pub fn adapters_rest()
    ensures idle { RestIsIdle }
    ensures after_reset { RestAfterReset }
    ensures happenings { HappeningsKeepRest }
    ensures accesses { AccessesKeepRest }
{}
