// The settings of an adapter after initialization.

ghost use Rattle.bring_up.specs.ConfiguredAdapters.{LinkComesFirst, RingsComeLast, SetupsAgree};
ghost use Rattle.bring_up.specs.ConfiguredAdapters.{WritesConfigure};

/// What the register writes of initialization do.
/// - `configure`: these writes configure an adapter, whatever its settings were before, and don't change its EEPROM.
///   The configuration must be valid, and the words written to MTA and VFTA must have exactly the bits of its groups
///   and VLANs.
/// - `rings_last`: if the tables have 128 words, no write before those of the rings is a write of RCTL or of a ring's
///   register.
/// - `link_first`: if the tables have 128 words, the writes of the filter, of the rings and after the rings write
///   neither CTRL nor MDIC.
/// - `agree`: a driver's setup determines PBA.RXA and the registers of the filter except MTA.
pub fn writes_configure()
    ensures configure { WritesConfigure }
    ensures rings_last { RingsComeLast }
    ensures link_first { LinkComesFirst }
    ensures agree { SetupsAgree }
{}
