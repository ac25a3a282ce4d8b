// Laws of what happens to frames, of their fates, and of consecutive happenings.

ghost use Rattle.host_calls.specs.DeliveryLaws.{CallsAreToldBetweenTicks, DeliveriesJoin, FatesAreJudgedByTheBuffer};
ghost use Rattle.host_calls.specs.DeliveryLaws.{FatesAreOff, FatesAreRight, FilterStays, OutcomesTellByNumber};
ghost use Rattle.host_calls.specs.DeliveryLaws.{GroupsChangeAlone, LentCallsAreTold, NoAccessIsToldAtTheEnd};
ghost use Rattle.host_calls.specs.DeliveryLaws.{OneAccessIsToldAtItsPlace, OneOutcomeTellsItsStep, OneTickLeads};
ghost use Rattle.host_calls.specs.DeliveryLaws.{OnlyTicksAreTold, OutcomesTellSteps, ReceptionsJoin, RightFatesJoin};
ghost use Rattle.host_calls.specs.DeliveryLaws.{StepsMoveFrames, TailWritesLeaveReception, WaitsJoin};
ghost use Rattle.host_calls.specs.DeliveryLaws.{WiresDecideToward, WritesChangeGroups};
ghost use Rattle.host_calls.specs.Lists.{AcceptedArePadded, GoesBehind, GoesJoin, GoesToOneEnd, GoesWithoutDrops};

use stations::Observer;

/// The outcomes of ticks determine what happened in their atomic steps.
/// - `call`: the outcomes of a call's ticks, in order, determine what happened in the steps of the call. Each outcome
///   has the number of accesses before its tick. This number is the number of `Go`s before the tick, but at most the
///   number of accesses of the complete call.
/// - `alone`: the outcome of one tick that is played outside a call determines what happened in its step, even if the
///   tick is `Go`.
/// - `leads`: the atomic step of a tick other than `Go`, played outside a call, leads from the old state of all
///   stations to the new state.
pub fn outcomes_tell_steps()
    ensures call { OutcomesTellSteps }
    ensures alone { OneOutcomeTellsItsStep }
    ensures leads { OneTickLeads }
{}

/// Clause `call` of [`outcomes_tell_steps`] applies to a call over a lent bus together with the `finish` that follows
/// it. The bus must have counted no access before the call. The observer was told the outcome of each tick of the call
/// except each `Go`, and the bus counted the call's accesses.
pub fn lent_calls_are_told<O: Observer>()
    ensures { LentCallsAreTold O.Observer }
{}

/// A happening is an entry of a network's history, such as a frame that was put on a wire (`specs/Happenings.antt`).
/// `tick_happenings_around` inserts what a call itself did, such as a join, among the happenings of the call's ticks.
/// - `between`: what the call did is inserted at one place, between two happenings of the ticks, or before or after all
///   of them. The happenings of the ticks remain the same, in the same order.
/// - `nothing`: if the call itself has no happening, the happenings of the call are those of its ticks.
/// - `access`: if the call made exactly one access, what the call did is between the happenings before this access and
///   those after it.
/// - `none`: if the call made no access, what the call did is after the happenings of all its ticks.
/// - `numbers`: take any condition on a number of accesses. The outcomes whose number meets this condition determine
///   what happened in the steps with such a number of earlier accesses.
pub fn calls_say_at_their_access()
    ensures between { CallsAreToldBetweenTicks }
    ensures nothing { OnlyTicksAreTold }
    ensures access { OneAccessIsToldAtItsPlace }
    ensures none { NoAccessIsToldAtTheEnd }
    ensures numbers { OutcomesTellByNumber }
{}

/// What atomic steps, which lead from one state of all stations to another, do to the frames of each host. Happenings
/// are entries of the network's history. Those of the steps agree with the past of the host's adapter (`past_at`): the
/// same frames were put and stored, and equally many were missed. The frames that waited at the host's end, followed by
/// those put toward the host, have reached the host in this order or still wait. The number of hosts and their wires
/// don't change, and no frame is accepted or returned.
pub fn steps_move_frames()
    ensures { StepsMoveFrames }
{}

/// The conditions under which fates are right.
/// - `fates`: each frame that reaches the host has the first fate that applies, by the filter and by the frames in the
///   packet buffer. RCTL.EN must be 1 at the start, and MTA must then have exactly the bits of the joined groups. The
///   host's driver may write no registers except RDT, TCTL, IMS and those of the transmit ring. Under these conditions,
///   the filter, the joined groups and PBA.RXA don't change.
/// - `tails`: `fates` permits writes of RDT and TDT.
/// - `off`: while RCTL.EN is 0 and RCTL isn't written, each frame that reaches a host has the fate `Off`. No frame is
///   moved from the host's receive packet buffer to memory.
/// - `filter`: if the host's driver writes only the registers that `fates` permits, the filter doesn't change.
pub fn fates_are_right()
    ensures fates { FatesAreRight }
    ensures tails { TailWritesLeaveReception }
    ensures off { FatesAreOff }
    ensures filter { FilterStays }
{}

/// A join or a leave changes the joined groups, but not the frames in the packet buffer, nor the filter except MTA
/// (`ReceivesRightly`).
/// - `written`: this holds for a join or a leave that writes a word of MTA.
/// - `alone`: this holds for a join or a leave without an access. A host makes no access if another joined group has
///   the same bit of MTA.
pub fn groups_change()
    ensures written { WritesChangeGroups }
    ensures alone { GroupsChangeAlone }
{}

/// Facts about two consecutive intervals hold for both together. Happenings are entries of the network's history.
/// - `lists`: each list of a host, such as its accepted frames, is its list for the first happenings, followed by its
///   list for the later ones. The numbers of missed frames are added.
/// - `toward`: if two maps from hosts to wires agree for each host, the same happenings put the same frames toward a
///   host with both maps. So the maps of two intervals with the same wires are interchangeable.
/// - `waits`: the frames that reached a host, followed by those that wait, are those that waited at the start, followed
///   by those put toward the host. If this is true of each of two consecutive intervals, and wires don't change, it is
///   true of both together.
/// - `fates`: marks are arrivals with their fates, moves to memory, joins, leaves, and what resets did to the receive
///   side. If the fates in two lists of marks are right, those in the joined list are right. The groups, buffered
///   frames and enable bit at the end of the first list must be those at the start of the second.
/// - `receptions`: if `ReceivesRightly` holds in each of two consecutive intervals, it holds in both together.
pub fn consecutive_intervals_join()
    ensures lists { DeliveriesJoin }
    ensures toward { WiresDecideToward }
    ensures waits { WaitsJoin }
    ensures fates { RightFatesJoin }
    ensures receptions { ReceptionsJoin }
{}

/// If the fates of all frames are right in order (`AreRightFates`), the fate of each single frame is the right one
/// (`AreRightByList`). The right fate depends on the groups in force, the frames in the packet buffer, and whether the
/// receive side is enabled at the arrival. The groups are those at the start, changed by each join and leave since. The
/// frames are those at the start, followed by those stored since. Frames that were moved to memory, or that a reset
/// dropped, are no longer in the buffer.
pub fn fates_are_judged_by_the_buffer()
    ensures { FatesAreJudgedByTheBuffer }
{}

/// Laws of lists of frames that grow at their end, and from whose end a reset removes frames.
/// - `join`: two consecutive changes of a list are together one change.
/// - `behind`: if further frames come before the list at the beginning, the same frames come before the list at the
///   end, which is otherwise the same.
/// - `one_end`: the list at the beginning and the happenings determine the list at the end.
/// - `without`: if no frame is removed, the list at the end is exactly the list at the beginning, followed by all
///   frames that were added.
/// - `padded`: the frames that are added to the frames due on a host's wire are the accepted frames, padded.
pub fn lists_grow_and_shrink()
    ensures join { GoesJoin }
    ensures behind { GoesBehind }
    ensures one_end { GoesToOneEnd }
    ensures without { GoesWithoutDrops }
    ensures padded { AcceptedArePadded }
{}
