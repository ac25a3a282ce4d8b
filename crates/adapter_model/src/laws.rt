//! Laws of register accesses, steps and arrivals. The functions do nothing: their contracts are the laws.

ghost use Rattle.adapter_model.specs.AccessLaws.{AccessesByOffset, OffsetsByTable, OthersStayAtRead, OthersStayAtWrite};
ghost use Rattle.adapter_model.specs.AccessLaws.{OutsideIsIgnored, PlainReadsBack, PowerOnByTable, ResetByTable};
ghost use Rattle.adapter_model.specs.AccessLaws.{TouchedByWrites};
ghost use Rattle.adapter_model.specs.Frames.{ArrivalGrowsFrames, DataLeavesFrames, DoneFinishesPiece, PuttingTakesFirst};
ghost use Rattle.adapter_model.specs.Frames.{TakingLeavesFrames};
ghost use Rattle.adapter_model.specs.History.{PlainByHistory};
ghost use Rattle.adapter_model.specs.Parts.{PartsHaveTheirLaws};

/// Laws of the registers' offsets, by the table of [`offsets`](crate::offsets).
/// - `offsets`: each register has one offset, and no two registers have the same offset. All offsets are multiples of 4
///   below 0x5800.
/// - `register`: an access at an offset is an access of the register at this offset.
/// - `outside`: if no register is at an offset, a read returns 0, and neither a read nor a write changes anything.
pub fn offsets_by_table()
    ensures offsets { OffsetsByTable }
    ensures register { AccessesByOffset }
    ensures outside { OutsideIsIgnored }
{}

/// The effect of an access on what registers read, by the table of [`offsets`](crate::offsets), in every state.
/// - `read_back`: if a register's row has kept bits, the register reads the kept bits of the value right after a write
///   that isn't a reset.
/// - `others_at_write`: a write of one register doesn't change what other registers read. The exceptions: a write of
///   CTRL with RST resets the adapter, CTRL.SLU changes STATUS, ICS changes ICR, and IMC changes IMS.
/// - `touched`: what STATUS reads after a write of CTRL without RST, ICR after a write of ICS, and IMS after a write of
///   IMC.
/// - `others_at_read`: a read of one register doesn't change what any other register reads.
pub fn accesses_by_table()
    ensures read_back { PlainReadsBack }
    ensures others_at_write { OthersStayAtWrite }
    ensures touched { TouchedByWrites }
    ensures others_at_read { OthersStayAtRead }
{}

/// The reset values of registers, by the table of [`offsets`](crate::offsets).
/// - `power_on`: after power-on, each register reads its reset value.
/// - `reset`: after a write of CTRL with RST, whatever its other bits, each register except PBA reads its reset value.
///   PBA, the PHY and the EEPROM don't change.
pub fn resets_by_table()
    ensures power_on { PowerOnByTable }
    ensures reset { ResetByTable }
{}

/// The value of a register whose row in the table has kept bits, after any list of accesses, steps and arrivals since
/// power-on. If the register was written after the last reset, it reads the kept bits of the last written value.
/// Otherwise it reads its reset value. RDH and TDH read this value only until a step advances the head.
pub fn plain_by_history()
    ensures { PlainByHistory }
{}

/// What EERD, MDIC and the PHY contain after any accesses, steps and arrivals since power-on. The laws of the crates
/// `eeprom` and `mdic_phy` define this by the writes and ticks among these events. For EERD, only the events after the
/// last reset by CTRL.RST count. For MDIC, the reset counts as a write of 0, which contains no command.
pub fn parts_have_their_laws()
    ensures { PartsHaveTheirLaws }
{}

/// The effect of steps on the frames to be sent, and of steps and arrivals on the frames held.
///
/// The frames to be sent are those in the transmit packet buffer, then those of the offered transmit descriptors. The
/// descriptors from TDH up to, but not including, TDT are offered.
/// - `taking`: `TxTake` doesn't change this list.
/// - `putting`: `TxPut` removes the frame that it puts, the first one. The status byte that the step may write must be
///   apart from the offered descriptors and their data.
///
/// The frames held are those that end in finished slots or in the slot in progress, then those in the receive packet
/// buffer. The pieces of each frame are joined. The slots must contain the moved bytes of the packet buffer's oldest
/// frame (`HasBegun`). For `arrival` and `done`, the receive engine must meet its invariant.
/// - `arrival`: a stored frame is added at the end of this list. With any other fate, the list doesn't change.
/// - `data`: `RxData` doesn't change this list. The bytes that it writes must be apart from the descriptor at RDH.
/// - `done`: `RxDone` doesn't change this list, and makes the piece in progress the last finished piece. The piece and
///   its descriptor must be inside memory, apart from each other.
pub fn frames_by_steps()
    ensures taking { TakingLeavesFrames }
    ensures putting { PuttingTakesFirst }
    ensures arrival { ArrivalGrowsFrames }
    ensures data { DataLeavesFrames }
    ensures done { DoneFinishesPiece }
{}
