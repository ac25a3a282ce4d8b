ghost use Rattle.tx_engine.specs.ToSend.{TakingMovesFrames, PuttingTakesFront, OtherBytesLeaveFrames};
ghost use Rattle.tx_engine.specs.ToSend.{OfferingAddsFrames};

/// Laws of the frames to be sent. These are the frames in the transmit packet buffer, and then those of the offered
/// descriptors, from head up to, but not including, tail.
/// - `take`: if head and tail are indices of different slots, a take step moves the frame at the head to the end of the
///   buffer. The list doesn't change.
/// - `put`: a put step removes the first frame of the list, which is the oldest one in the buffer.
/// - `others`: a write inside memory doesn't change the list if it overlaps neither the first ten bytes of these
///   descriptors (a frame's address and length) nor their frames.
/// - `offer`: if the tail advances by one slot, the frame of the slot at the old tail is added at the end of the list.
///   Head and tail must be indices of slots, and the tail must not advance to the head.
///
/// The function does nothing: its contract is the laws.
pub fn frames_to_be_sent()
    ensures take { TakingMovesFrames }
    ensures put { PuttingTakesFront }
    ensures others { OtherBytesLeaveFrames }
    ensures offer { OfferingAddsFrames }
{}
