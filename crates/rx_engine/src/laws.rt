// The effect of arrivals and steps on the frames held.

ghost use Rattle.rx_engine.specs.Held.{ArrivalGrowsHeld, DataKeepsHeld, DoneKeepsHeld, FinishedStays};
ghost use Rattle.rx_engine.specs.Held.{OtherBytesLeaveSlots};

/// Laws of the frames that a host and its engine hold. First come the frames that end in finished slots or in the slot
/// in progress, each with its pieces joined. The frames in the packet buffer follow. The first three laws require and
/// preserve `HasBegun`: the pieces in slots after the last end of a frame, joined, are the moved bytes of the packet
/// buffer's oldest frame.
/// - `arrival`: a stored frame is added after the others. An arrival with another fate doesn't change the frames held.
/// - `data`: a data step doesn't change the frames held, if the destination of the piece is apart from the piece's
///   descriptor.
/// - `done`: if the piece in progress and its descriptor are inside memory and apart, a done step makes the piece a
///   finished piece. The frames held don't change.
/// - `others`: a write inside memory, apart from the piece in progress and its descriptor, doesn't change the piece.
/// - `finished`: a finished descriptor remains finished with the same piece while no byte of the descriptor or the
///   piece changes.
///
/// The function does nothing: its contract is the laws.
pub fn frames_held_by_the_receive_engine()
    ensures arrival { ArrivalGrowsHeld }
    ensures data { DataKeepsHeld }
    ensures done { DoneKeepsHeld }
    ensures others { OtherBytesLeaveSlots }
    ensures finished { FinishedStays }
{}
