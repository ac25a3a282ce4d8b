// Laws of the intervals of a driver's run.

ghost use Rattle.std.specs.Prelude.{◌++◌, ℕ, Bool, List, [], All};
ghost use Rattle.adapter_model.specs.World.{World};
ghost use Rattle.bus.specs.Law.{Happens};
ghost use Rattle.bus.specs.Pasts.{Past, joined};
ghost use Rattle.bus.specs.DriverState.{DriverState};
ghost use Rattle.bus.specs.Calls.{FlowsTo, GoesTo, HasNoForgottenWork, driver_did, driver_in};
ghost use Rattle.bus.specs.ReadyDrivers.{ReadyWith, Stands};
ghost use Rattle.bus.specs.ReceiveSteps.{BuffersCanComeBack, PartsAreFew, RunCanBeTaken, RunIsOfFrame};
ghost use Rattle.bus.specs.ReceiveSteps.{SlotsCanBeStaged, StagedCanBeOffered};

/// Two consecutive intervals of a driver's run form one interval. The frames taken, accepted, put and stored in this
/// interval are those of both intervals, in order. The numbers of missed frames are added.
/// - `flows`: any register may be read in the intervals.
/// - `goes`: no recorded cause is cleared in the intervals.
///
/// In the first interval, the driver takes the frames `t1` and accepts the frames `g1`, and `s1` is what happens.
/// `first_up` is whether the transmit side is set up at its end. For the second interval, these are `t2`, `g2`, `s2`
/// and `up`.
pub fn intervals_join()
    ensures flows { (first_up up : Bool) (d1 d2 d3 : DriverState) (a b c : World)
        (t1 t2 g1 g2 : List (List ℕ)) (s1 s2 : Past)
        → FlowsTo first_up (driver_in d1 a) (driver_in d2 b) (driver_did t1 g1) s1
        → FlowsTo up (driver_in d2 b) (driver_in d3 c) (driver_did t2 g2) s2
        → FlowsTo up (driver_in d1 a) (driver_in d3 c) (driver_did (t1 ++ t2) (g1 ++ g2)) (joined s1 s2) }
    ensures goes { (first_up up : Bool) (d1 d2 d3 : DriverState) (a b c : World)
        (t1 t2 g1 g2 : List (List ℕ)) (s1 s2 : Past)
        → GoesTo first_up (driver_in d1 a) (driver_in d2 b) (driver_did t1 g1) s1
        → GoesTo up (driver_in d2 b) (driver_in d3 c) (driver_did t2 g2) s2
        → GoesTo up (driver_in d1 a) (driver_in d3 c) (driver_did (t1 ++ t2) (g1 ++ g2)) (joined s1 s2) }
{}

/// What remains true in the intervals of a driver that is ready. `up` is whether its transmit side is set up.
/// - `goes`: whatever happens between two accesses, the driver remains ready. What happens is an interval of its run in
///   which no frame is taken or accepted.
/// - `work`: if no work is forgotten before an interval in which no recorded cause is cleared, no work is forgotten
///   after the interval.
/// - `handed_out`: whatever happens between two accesses, pieces of frames that receivers hold remain in their buffers.
pub fn drivers_go_on()
    ensures goes { (up : Bool) (d : DriverState) (a b : World) (past : Past)
        → ReadyWith up d a → Happens a b past → GoesTo up (driver_in d a) (driver_in d b) (driver_did [] []) past }
    ensures work { (up : Bool) (d d' : DriverState) (a b : World) (taken accepted : List (List ℕ)) (past : Past)
        → GoesTo up (driver_in d a) (driver_in d' b) (driver_did taken accepted) past
        → HasNoForgottenWork d a → HasNoForgottenWork d' b }
    ensures handed_out { (up : Bool) (d : DriverState) (a b : World) (past : Past)
        → ReadyWith up d a → Happens a b past → All (Stands d.layout b.memory) d.handed_out }
{}

/// What a driver does with the slots of its receive ring. Each action is an interval of the driver's run.
/// - `staged`: the driver stores the descriptor of the next slot, with a free buffer. After that, at least one slot
///   must remain that is neither outstanding nor staged.
/// - `offered`: the driver offers all staged slots by one write of RDT.
/// - `taken`: the driver takes the oldest finished slots if these slots contain one whole frame. After that, receivers
///   hold the pieces of the frame.
/// - `legal`: the frame of clause `taken` is legal. Each of its pieces except the last fills its buffer, and the last
///   isn't empty.
/// - `few`: the buffers of the finished slots before the first end of a frame have together at most the size of the
///   longest frame.
/// - `comes_back`: buffers whose pieces receivers held return to the pool.
#[tactic(auto, using(crate::proofs::StagedSlotOffers::staged_can_be_offered, crate::proofs::TakenSlots::parts_are_few))]
pub fn receive_slots_go_round()
    ensures staged { SlotsCanBeStaged }
    ensures offered { StagedCanBeOffered }
    ensures taken { RunCanBeTaken }
    ensures legal { RunIsOfFrame }
    ensures few { PartsAreFew }
    ensures comes_back { BuffersCanComeBack }
{}
