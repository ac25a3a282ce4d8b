// Laws of MDIC and the PHY over all lists of writes, reads and ticks.

ghost use Rattle.mdic_phy.specs.MdicHistory.{AccessesByHistory, MdicByHistory, ToldByHistory};
ghost use Rattle.mdic_phy.specs.PhyHistory.{ControlByHistory, LatchByHistory, LinkByHistory};

/// The condition under which the link is up, after any list of ticks, reads and writes since the PHY was new. With
/// `After(d)`, d at least 1, the link is up exactly if at least d ticks, but no reset, followed the last start of
/// negotiation. With `Never`, the link is always down.
pub fn link_by_history()
    ensures { LinkByHistory }
{}

/// The value of the PHY's status register, after any list of ticks, reads and writes since the PHY was new. Bit 5 is
/// set exactly if the link is up. Bit 2, which is latched low, is set exactly if the link is up and the register was
/// read after the last reset or restart.
pub fn latch_by_history()
    ensures { LatchByHistory }
{}

/// The value of the PHY's control register, after any list of ticks, reads and writes since the PHY was new. The value
/// is bit 12 of the last value written to this register. Without a write of the register, or if the last write was a
/// reset, the value is 0x1000.
pub fn control_by_history()
    ensures { ControlByHistory }
{}

/// The accesses that MDIC makes to the PHY. Any list of writes of MDIC and ticks changes the PHY as the following
/// events at the PHY do. Each tick is such an event. If a command for PHYADD 1 was written right before a tick, its
/// access follows the tick. A write makes no access if another write follows it before a tick, or no tick has followed
/// yet.
pub fn accesses_by_history()
    ensures { AccessesByHistory }
{}

/// The value of MDIC, after any list of writes and ticks. The value depends only on the last written value, and on the
/// PHY's register at the first tick after this write, if any. If the write contains a command, this tick sets R, and
/// also E if PHYADD isn't 1. If PHYADD is 1, a read command also stores the PHY's register in DATA.
pub fn mdic_by_history()
    ensures { MdicByHistory }
{}

/// What a tick reports to the adapter, after any list of writes of MDIC and ticks ([`Ticked`](crate::Ticked)). By this
/// report, the adapter records LSC exactly if the link changes from down to up. The adapter records MDAC exactly if the
/// event right before the tick is a write that contains a command and sets I. If no countdown is running and no command
/// is pending, nothing is reported.
pub fn told_by_history()
    ensures { ToldByHistory }
{}
