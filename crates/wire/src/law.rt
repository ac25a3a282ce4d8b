// Laws of runs.

ghost use Rattle.wire.specs.Laws.{NewNetworksAreLegal, RunsJoin, RunsStayLegal};

/// A run, and a second run that begins where the first run ended, form one run of the events of both.
pub fn runs_join()
    ensures { RunsJoin }
{}

/// No frame has the fate Illegal in consecutive runs that begin with a network that [`new`](crate::Lan::new) made. A
/// frame is legal if it has 60 to 1,518 bytes.
/// - `made`: a network that [`new`](crate::Lan::new) made has only legal frames, because it has no frames.
/// - `stays`: if a network has only legal frames before a run, no frame has the fate Illegal in the run. The network
///   has only legal frames after the run.
pub fn frames_are_legal()
    ensures made { NewNetworksAreLegal }
    ensures stays { RunsStayLegal }
{}
