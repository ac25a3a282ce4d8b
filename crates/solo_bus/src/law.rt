// The conditions of the law can be met.

ghost use Rattle.solo_bus.specs.SoundWorlds.{HasFinished, HasFramesInBuffer, HasFramesInRing, HasRings, HasPieceInWork};
ghost use Rattle.solo_bus.specs.SoundWorlds.{HasWrittenBack, SomeSound};

/// States that the conditions of the bus law can be met. For each clause, there is a world in which they hold, frames
/// fit into their buffers, and both engines can run. The function does nothing: its contract is the law. In the worlds
/// of the clauses:
/// - `rings`: both rings are set up, and receive slots are offered.
/// - `work`: a piece of a received frame is in progress.
/// - `finished`: the oldest receive slot is finished.
/// - `written`: the oldest transmit slot is written back.
/// - `in_ring`: transmit slots are offered, and frames are to be sent.
/// - `in_buffer`: frames are in the transmit packet buffer.
pub fn conditions_can_be_met()
    ensures rings { SomeSound HasRings }
    ensures work { SomeSound HasPieceInWork }
    ensures finished { SomeSound HasFinished }
    ensures written { SomeSound HasWrittenBack }
    ensures in_ring { SomeSound HasFramesInRing }
    ensures in_buffer { SomeSound HasFramesInBuffer }
{}
