// Laws of trails: lists of adapter steps, deliveries and accesses.

ghost use Rattle.bus.specs.Accesses.{QuietAccessesLeaveAdapters, QuietAccessesLeaveInterrupts};
ghost use Rattle.bus.specs.Accesses.{QuietAccessesLeaveWorlds, RingWritesLeaveInterrupts};
ghost use Rattle.bus.specs.TrailCauses.{CausesAreThoseOfSteps, MasksStay, RecordedCausesStay};
ghost use Rattle.bus.specs.TrailFaults.{FaultsStay, RunningEnginesMetNoFault};

/// A fault remains visible until the next reset.
/// - `stays`: after any steps, deliveries and accesses without a reset, an engine that was stopped is
///   still stopped.
/// - `none`: if both engines run at the end and there was no reset, no step had the outcome `Fault`.
#[tactic(auto, using(crate::proofs::Laws::faults_stay_visible))]
pub fn faults_stay_visible()
    ensures stays { FaultsStay }
    ensures none { RunningEnginesMetNoFault }
{}

/// Which interrupt causes are recorded, and which are in the mask, after any steps, deliveries and
/// accesses.
/// - `recorded`: the causes that were recorded before, and those that each step and each delivery records. No access
///   may read or write ICR, write ICS or reset the adapter.
/// - `mask`: the mask doesn't change if no access writes IMS or IMC or resets the adapter.
/// - `stay`: a cause that a step or a delivery records is still recorded at the end. No access after this step or
///   delivery may read or write ICR, write ICS or reset the adapter.
#[tactic(auto, using(crate::proofs::Laws::causes_of_steps))]
pub fn causes_are_those_of_steps()
    ensures recorded { CausesAreThoseOfSteps }
    ensures mask { MasksStay }
    ensures stay { RecordedCausesStay }
{}

/// An access is quiet if it is a load, a store, or a read of any register except ICR and the counters.
/// - `adapters`: a quiet access doesn't change the adapter.
/// - `worlds`: a quiet access that isn't a store doesn't change memory either.
/// - `interrupts`: a quiet access isn't a reset, and changes neither the recorded causes nor the mask.
/// - `rings`: a write of a ring's register, such as RDT or TDT, isn't a reset, and changes neither the recorded causes
///   nor the mask.
#[tactic(auto, using(crate::proofs::Laws::quiet_accesses_leave_adapters))]
pub fn quiet_accesses_leave_adapters()
    ensures adapters { QuietAccessesLeaveAdapters }
    ensures worlds { QuietAccessesLeaveWorlds }
    ensures interrupts { QuietAccessesLeaveInterrupts }
    ensures rings { RingWritesLeaveInterrupts }
{}
