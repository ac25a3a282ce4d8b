//! Laws of the outcomes of ticks, of the counts of a host, and of the slots that a driver offers.

ghost use Rattle.host_calls.specs.AnswersLaws.{AbsentHostsAnswerNothing, CountsGoByOutcomes, FaultNeverComes};
ghost use Rattle.host_calls.specs.AnswersLaws.{FaultNeverComesAroundReset, GoAnswersNothing, NoSlotIsOffered};
ghost use Rattle.host_calls.specs.AnswersLaws.{OneIsTaken, ReceiveTailWritesAreCounted, SidesStayEnabled};
ghost use Rattle.host_calls.specs.AnswersLaws.{OutcomesFollowFromCounts, TailsOfferSlots};
ghost use Rattle.host_calls.specs.AnswersLaws.{TransmitTailWritesAreCounted, WaitingFramesGoByOutcomes};

/// The outcome of each tick of a host follows from the counts and the waiting frames at the start. The counts
/// (`HostCounts`) are the head, tail and size of each ring, and the numbers of frames and bytes in the packet buffers.
/// The counts also state what is enabled, in progress or pending. They don't determine what a write of MDIC does, so
/// the laws exclude such writes of the host's driver.
/// - `outcomes`: the outcome of a tick follows from the counts and the waiting frames at the start, changed by what
///   happened before the tick. Only the fate of a delivered frame doesn't follow. No engine of the host may be stopped
///   at the start, and no step may be a fault.
/// - `counts`: the counts of the host at the end are those at the start, changed by all outcomes and accesses.
/// - `waiting`: the frames that finally wait at a host's end of its wire are those at the start, changed by all
///   outcomes.
/// - `faultless`: the condition of `outcomes` on engines and faults is met if no access resets the host's adapter, and
///   no engine is stopped at the end.
/// - `around_reset`: this condition is also met if one access resets the adapter, and no engine is stopped right before
///   this access or at the end.
pub fn outcomes_follow_from_counts()
    ensures outcomes { OutcomesFollowFromCounts }
    ensures counts { CountsGoByOutcomes }
    ensures waiting { WaitingFramesGoByOutcomes }
    ensures faultless { FaultNeverComes }
    ensures around_reset { FaultNeverComesAroundReset }
{}

/// The outcomes of idle ticks.
/// - `absent`: the outcome of a tick of a host that doesn't exist is Nothing.
/// - `go`: the outcome of Go is Nothing.
pub fn idle_ticks_answer_nothing()
    ensures absent { AbsentHostsAnswerNothing }
    ensures go { GoAnswersNothing }
{}

/// Laws of the slots that a driver offers: from the head up to, but not including, the tail. For `none`, `taken` and
/// `places`, head and tail must be indices of slots. For `receive` and `transmit`, the ring may have at most 65,536
/// slots.
/// - `none`: no slot is offered exactly if the head equals the tail.
/// - `taken`: if a slot is offered and the adapter takes the slot at the head, the number of offered slots decreases
///   by one. Head and tail remain indices of slots.
/// - `places`: if the tail advances by N places, N more slots are offered. The ring must have more slots than the sum
///   of N and the slots offered before.
/// - `receive`: a write of a slot's index to RDT moves the tail of the receive ring to this slot.
/// - `transmit`: a write of a slot's index to TDT moves the tail of the transmit ring to this slot.
/// - `enabled`: without a write of CTRL, RCTL or TCTL, the receive side remains enabled or disabled, and so does the
///   transmit side.
pub fn tails_offer_slots()
    ensures none { NoSlotIsOffered }
    ensures taken { OneIsTaken }
    ensures places { TailsOfferSlots }
    ensures receive { ReceiveTailWritesAreCounted }
    ensures transmit { TransmitTailWritesAreCounted }
    ensures enabled { SidesStayEnabled }
{}
