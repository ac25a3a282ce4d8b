ghost use Rattle.access_names.specs.Reasons.{ReasonsHold, ReasonsStay};

/// Suppose that the outcome of a step is a fault. Before the step, [`fault_of`](crate::fault_of) returns a fault whose
/// reason applies at that time (`holds`). After the step, `fault_of` returns the same fault (`stays`). In the
/// definitions, `fault_if_any` is the result of `fault_of`.
///
/// This function does nothing: its contract is the law.
pub fn reasons_of_faults_hold()
    ensures holds { ReasonsHold }
    ensures stays { ReasonsStay }
{}
