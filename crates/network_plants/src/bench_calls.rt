//! Twins of the calls `bench` and `bench_with` of `scenario_bench`. The prover knows only the clauses of a call, so
//! these must imply the clauses of its twin. The edits in `must-fail/` are wrong bodies of twins. The twin `bench_with`
//! owns its scenario, so that an edit can change the scenario before the call.

ghost use Rattle.std.specs.Prelude.{◌≡◌, ◌<◌, ◌≤◌, [], All, IfErr, IfOk, false, length, map};
ghost use Rattle.scenario.specs.SoFar.{hosts_of};
ghost use Rattle.scenario_bench.specs.Benches.{Benches, Stops, sinks_of};
ghost use Rattle.scenario_bench.specs.Given.{sockets_from};
ghost use Rattle.scenario_bench.specs.PlayedEvents.{trace_frames};
ghost use Rattle.scenario_bench.specs.WireLists.{wire_names};

use pcap_trace::{Sink, Trace, Unit};
use scenario::Scenario;
use scenario_bench::{BenchError, Summary};
use std::alloc::Global;

/// A twin of [`scenario_bench::bench`].
pub fn bench<W: Sink>(
    alloc: Global,
    scenario: &Scenario,
    traces: &[Trace],
    unit: Unit,
    sinks: &mut [W],
) -> Result<Summary, BenchError>
    requires traces { length traces.now ≡ length scenario.now.traces.items }
    requires sinks { length sinks.old ≡ length (sockets_from 0 (hosts_of scenario.now.plan.hosts.items)) }
    requires countable { All (λ (sink : W). W.failures sink < u64.MAX) sinks.old }
    ensures ok { IfOk result (λ summary. Benches unit scenario.now (map trace_frames traces.now) false summary
        (sinks_of W.taken W.failures sinks.old sinks.new [] [])) }
    ensures err { IfErr result (λ error. Stops unit scenario.now (map trace_frames traces.now) error
        (sinks_of W.taken W.failures sinks.old sinks.new [] [])) }
{
    scenario_bench::bench(alloc, scenario, traces, unit, sinks)
}

/// A twin of [`scenario_bench::bench_with`], with the clause for Ok.
pub fn bench_with<W: Sink>(
    alloc: Global,
    scenario: Scenario,
    traces: &[Trace],
    unit: Unit,
    sinks: &mut [W],
    wire_sinks: &mut [W],
    events: bool,
) -> Result<Summary, BenchError>
    requires traces { length traces.now ≡ length scenario.traces.items }
    requires sinks { length sinks.old ≡ length (sockets_from 0 (hosts_of scenario.plan.hosts.items)) }
    requires wires { length wire_sinks.old ≤ length (wire_names (hosts_of scenario.plan.hosts.items)) }
    requires countable { All (λ (sink : W). W.failures sink < u64.MAX) sinks.old }
    requires wires_countable { All (λ (sink : W). W.failures sink < u64.MAX) wire_sinks.old }
    ensures ok { IfOk result (λ summary. Benches unit scenario (map trace_frames traces.now) events summary
        (sinks_of W.taken W.failures sinks.old sinks.new wire_sinks.old wire_sinks.new)) }
{
    match scenario_bench::bench_with(alloc, &scenario, traces, unit, sinks, wire_sinks, events) {
        Ok(summary) => Ok(summary),
        Err(error) => Err(error),
    }
}

/// A twin of [`scenario_bench::bench_with`], with the clause for errors.
pub fn bench_with_err<W: Sink>(
    alloc: Global,
    scenario: &Scenario,
    traces: &[Trace],
    unit: Unit,
    sinks: &mut [W],
    wire_sinks: &mut [W],
    events: bool,
) -> Result<Summary, BenchError>
    requires traces { length traces.now ≡ length scenario.now.traces.items }
    requires sinks { length sinks.old ≡ length (sockets_from 0 (hosts_of scenario.now.plan.hosts.items)) }
    requires wires { length wire_sinks.old ≤ length (wire_names (hosts_of scenario.now.plan.hosts.items)) }
    requires countable { All (λ (sink : W). W.failures sink < u64.MAX) sinks.old }
    requires wires_countable { All (λ (sink : W). W.failures sink < u64.MAX) wire_sinks.old }
    ensures err { IfErr result (λ error. Stops unit scenario.now (map trace_frames traces.now) error
        (sinks_of W.taken W.failures sinks.old sinks.new wire_sinks.old wire_sinks.new)) }
{
    match scenario_bench::bench_with(alloc, scenario, traces, unit, sinks, wire_sinks, events) {
        Ok(played) => Ok(played),
        Err(refused) => Err(refused),
    }
}
