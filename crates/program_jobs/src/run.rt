//! The command `run`.
ghost use Rattle.std.specs.Prelude.{◌≡◌, ◌<◌, ◌≤◌, All, IfSome, length};
ghost use Rattle.scenario_bench.specs.FileNames.{sockets_in, wires_in};

use crate::events_file::create_events_sink;
use crate::fault::Fault;
use crate::output_names::{OutputNames, output_names};
use crate::run_files::find_shared;
use crate::trace_jobs::unit_of;
use pcap_bench::{
    Refusals, RunJob, Scenario, Sink, Summary, Trace, WriteError, WriterSink, bench_with,
    print_summary,
};
use program_files::{
    STANDARD_STREAM, StandardError, StandardOutput, create_all, find_folder, read_bytes,
    read_traces, report_play,
};

/// Reads and parses the scenario at this path. Fails if it can't be read, or if a line is invalid.
fn read_scenario(rt: &HostRuntime, path: &str) -> Result<Scenario, Fault> {
    let text = read_bytes(rt, path)?;
    match Scenario::read(rt.alloc(), text.as_slice()) {
        Ok(scenario) => Ok(scenario),
        Err(refusal) => Err(Fault::refused(rt.alloc(), text.as_slice(), refusal)),
    }
}

/// Plays a scenario, which feeds `traces`. Then writes the trace of each socket, and of each wire that has a sink, to
/// its sink. If the scenario feeds many frames and standard error is a terminal, first reports that the run begins.
///
/// There must be one trace for each trace that the scenario feeds, one sink for each socket, and at most one wire sink
/// for each wire. Each sink must have failed fewer than 2^64 - 1 times.
fn play_to_sinks<W: Sink>(
    rt: &HostRuntime,
    job: &RunJob<'_>,
    scenario: &Scenario,
    traces: &[Trace],
    sinks: &mut [W],
    wire_sinks: &mut [W],
) -> Result<Summary, Fault>
    requires traces { length traces.now ≡ length scenario.now.traces.items }
    requires sinks { length sinks.old ≡ sockets_in scenario.now.plan.hosts.items }
    requires wires { length wire_sinks.old ≤ wires_in scenario.now.plan.hosts.items }
    requires countable { All (λ (sink : W). W.failures sink < u64.MAX) sinks.old }
    requires wires_countable { All (λ (sink : W). W.failures sink < u64.MAX) wire_sinks.old }
{
    report_play(rt, traces);
    let unit = unit_of(job.nanos);
    let events = job.events.is_some();
    match bench_with(
        rt.alloc(),
        scenario,
        traces,
        unit,
        sinks,
        wire_sinks,
        events,
    ) {
        Ok(summary) => Ok(summary),
        Err(error) => Err(Fault::from(error)),
    }
}

/// Opens the files with these names in OUTDIR, plays a scenario, which feeds `traces`, and writes the files. The files
/// of sockets are written before those of wires. Fails if OUTDIR doesn't exist, or if a file is also another file of the
/// run. There must be one trace for each trace that the scenario feeds, one name for each socket, and at most one for
/// each wire.
fn play(
    rt: &HostRuntime,
    job: &RunJob<'_>,
    scenario: &Scenario,
    traces: &[Trace],
    names: &OutputNames,
) -> Result<Summary, Fault>
    requires traces { length traces.now ≡ length scenario.now.traces.items }
    requires sockets { length names.now.sockets.items ≡ sockets_in scenario.now.plan.hosts.items }
    requires wires { length names.now.wires.items ≤ wires_in scenario.now.plan.hosts.items }
{
    find_folder(rt, job.directory)?;
    let mut sinks = create_all(rt, job.directory, names.sockets.as_slice())?;
    let mut wire_sinks = create_all(rt, job.directory, names.wires.as_slice())?;
    find_shared(rt, job, scenario, names)?;
    play_to_sinks(
        rt,
        job,
        scenario,
        traces,
        sinks.as_mut_slice(),
        wire_sinks.as_mut_slice(),
    )
}

/// Warns on standard error if calls outside `auto` lines were refused. Neither these refusals nor a failed write of the
/// warning change the exit status.
fn warn(rt: &HostRuntime, summary: &Summary) {
    let Refusals {
        sends,
        groups,
        sockets,
    } = summary.asked;
    if sends > 0 || groups > 0 || sockets > 0 {
        let _ = eprintln!(rt;
            "nicbench: refused: sends {sends}, joins and leaves {groups}, recvs {sockets}; --events lists them"
        );
    }
}

/// Writes the lines of events to standard output, and the lines of hosts and a warning, if any, to standard error. A
/// failed write to standard error isn't an error.
fn print_to_standard_output(rt: &HostRuntime, summary: &Summary) -> Result<(), Fault> {
    if let Some(events) = &summary.events {
        events.write(&mut WriterSink::new(StandardOutput::new(rt)))?;
    }
    let _ = print_summary(summary, &mut WriterSink::new(StandardError::new(rt)));
    warn(rt, summary);
    Ok(())
}

/// Writes the lines of events to their file. Does nothing if there are no such lines, or no file for them. The file
/// must have failed fewer than 2^64 - 1 times.
fn write_events<W: Sink>(summary: &Summary, file: &mut Option<W>) -> Result<(), WriteError>
    requires { IfSome file.old (λ sink. W.failures sink < u64.MAX) }
{
    match (&summary.events, file) {
        (Some(events), Some(sink)) => events.write(sink),
        _ => Ok(()),
    }
}

/// Writes the lines of events to their file, if the job asks for them. Then writes the lines of hosts to standard
/// output, and a warning, if any, to standard error. The precondition is that of [`write_events`].
fn print_with_file<W: Sink>(
    rt: &HostRuntime,
    summary: &Summary,
    file: &mut Option<W>,
) -> Result<(), Fault>
    requires { IfSome file.old (λ sink. W.failures sink < u64.MAX) }
{
    write_events(summary, file)?;
    print_summary(summary, &mut WriterSink::new(StandardOutput::new(rt)))?;
    warn(rt, summary);
    Ok(())
}

/// Writes the lines of events to standard output or to this file, if the job asks for them. Writes the lines of hosts
/// to standard error if the lines of events are on standard output, and to standard output otherwise. The precondition
/// is that of [`write_events`].
fn print<W: Sink>(
    rt: &HostRuntime,
    job: &RunJob<'_>,
    summary: &Summary,
    file: &mut Option<W>,
) -> Result<(), Fault>
    requires { IfSome file.old (λ sink. W.failures sink < u64.MAX) }
{
    if job.events == Some(STANDARD_STREAM) {
        print_to_standard_output(rt, summary)
    } else {
        print_with_file(rt, summary, file)
    }
}

/// Opens the files of a run, plays its scenario with these traces, writes the files, and prints the lines of events and
/// of hosts. There must be one trace for each trace that the scenario feeds.
fn play_scenario(
    rt: &HostRuntime,
    job: &RunJob<'_>,
    scenario: &Scenario,
    traces: &[Trace],
) -> Result<(), Fault>
    requires { length traces.now ≡ length scenario.now.traces.items }
{
    let names = output_names(rt.alloc(), job, scenario.plan.hosts.as_slice())?;
    let mut file = create_events_sink(rt, job, scenario, &names)?;
    let summary = play(rt, job, scenario, traces, &names)?;
    print(rt, job, &summary, &mut file)
}

/// Reads SCENARIO and the traces that it feeds, plays the scenario, and writes its files. Prints a line for each host,
/// and on request a line for each event and drain.
pub fn run_scenario(rt: &HostRuntime, job: &RunJob<'_>) -> Result<(), Fault> {
    let scenario = read_scenario(rt, job.scenario)?;
    let traces = read_traces(rt, scenario.trace_names())?;
    play_scenario(rt, job, &scenario, traces.as_slice())
}
