//! The call of `pcap_bench` that passes the frames of a trace, made twice. The prover knows only the clauses of a call,
//! so these determine what is compared.

ghost use Rattle.std.specs.Prelude.{◌≡◌, ◌<◌, IfOk, IfSome, OnOk};
ghost use Rattle.receive_lane.specs.Options.{HasVlanNumber};

use pcap_bench::{BenchError, PassCounts, PassFilter, Sink, Trace, Unit};
use std::alloc::Global;

/// Calls [`pcap_bench::pass`] twice, with two sinks of the same bytes. The contract leaves open when memory is refused,
/// and when a write fails.
#[tactic(auto, using(crate::proofs::Fates::counts_are_one, crate::proofs::Fates::written_is_one))]
pub fn pass<W: Sink>(
    alloc: Global,
    trace: &Trace,
    filter: &PassFilter,
    unit: Unit,
    one: &mut W,
    other: &mut W,
) -> (
    Result<PassCounts, BenchError>,
    Result<PassCounts, BenchError>,
)
    requires countable { W.failures one.old < u64.MAX }
    requires taken { W.taken one.old ≡ W.taken other.old }
    requires failures { W.failures one.old ≡ W.failures other.old }
    requires vlan { HasVlanNumber filter.now }
    ensures counts { IfOk result.0 (λ counts. IfOk result.1 (λ others. counts ≡ others)) }
    ensures taken { IfSome (W.taken one.old)
        (λ _. OnOk result.0 (OnOk result.1 (W.taken one.new ≡ W.taken other.new))) }
{
    (
        pcap_bench::pass(alloc, trace, filter, unit, one),
        pcap_bench::pass(alloc, trace, filter, unit, other),
    )
}
