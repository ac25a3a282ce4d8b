//! Plays a scenario.
ghost use Rattle.std.specs.Prelude.{◌≡◌, ◌<◌, ◌≤◌, ◌-◌, ◌∷◌, [], All, Bool, false, length, map, unwrap_or};
ghost use Rattle.std.specs.Prelude.{IfErr, IfOk, OnErr, OnOk};
ghost use Rattle.std.specs.List.{flat_map};
ghost use Rattle.scenario.specs.SoFar.{Drains, command_of_event, hosts_of, said_of};
ghost use Rattle.scenario_bench.specs.Benches.{AreAllWritten, Benches, IsFailedSink, Stops, StopsWriting};
ghost use Rattle.scenario_bench.specs.Benches.{sinks_of};
ghost use Rattle.scenario_bench.specs.EventLists as lists;
ghost use Rattle.run_record.specs.EventLogView.{plan_name};
ghost use Rattle.scenario_bench.specs.Given.{sockets_from};
ghost use Rattle.scenario_bench.specs.PlayedEvents.{AreOfSender, AreRecorded, HasBegunPlay};
ghost use Rattle.scenario_bench.specs.PlayedEvents.{HasPlayed};
ghost use Rattle.run_record.specs.Recording.{IsNewRecord};
ghost use Rattle.scenario_bench.specs.PlayedEvents.{StopsAtPlan, StopsWithin, TellTallies, trace_frames};
ghost use Rattle.scenario_bench.specs.PlayedEvents.{socket_texts_in, wire_texts_in};
ghost use Rattle.scenario_bench.specs.WireLists.{wire_names};
ghost use Rattle.scenario_bench.specs.Summaries.{asked_after};
ghost use Rattle.run_record.specs.RunLogs.{new_log};
ghost use Rattle.run_record.specs.Tallies.{grown_by};
ghost use Rattle.run_record.specs.Traces.{texts_in};

use crate::bench_error::BenchError;
use crate::events::{Drawn, EventsAfterSend, pieces_of};
use crate::socket_list::sockets;
use crate::wire_list::wires;
use pcap_trace::{RecordWriter, Sink, Trace, Unit, WriteError};
use rand_core::SeedableRng;
use rand_core::utils::NextWord;
use rand_pcg::Lcg64Xsh32;
use run_record::{DrainedFrames, HostSummary, Record, Refusals, Summary, Traces};
use scenario::{Command, Scenario};
use std::alloc::{AllocError, Global};
use wire::{Event, HostPlan, Lan, Plan, Stopped};

/// Hosts on wires, the record of their run, a list for the frames of a drain, and counts of refused calls.
#[derive(Drop)]
struct Play {
    lan: Lan,
    /// The record of the run so far.
    record: Record,
    /// The frames of the last drain.
    drained: DrainedFrames,
    /// The numbers of calls that were refused in the commands so far, without those of `auto` commands.
    asked: Refusals,
}

/// Returns `number` plus the difference `after` - `before`, or plus 0 if `after` is smaller. The sum saturates at the
/// greatest `u64`.
fn grown(number: u64, before: u64, after: u64) -> u64
    ensures { result ≡ grown_by (after - before) number }
{
    number.saturating_add(after.saturating_sub(before))
}

/// Returns the numbers of refused calls without those of `auto` commands, after this command. `asked` are these numbers
/// before the command. `before` and `after` count all refused calls before and after the command.
fn asked_after(asked: Refusals, command: &Command, before: Refusals, after: Refusals) -> Refusals
    ensures { result ≡ asked_after asked (said_of command.now) before after }
{
    if let Command::Auto { .. } = command {
        return asked;
    }
    Refusals {
        sends: grown(asked.sends, before.sends, after.sends),
        groups: grown(asked.groups, before.groups, after.groups),
        sockets: grown(asked.sockets, before.sockets, after.sockets),
    }
}

impl Play {
    /// Initializes the hosts of a plan, with an empty record. If `wires`, the number of traces of wires to write, isn't
    /// 0, the frames that adapters put are recorded during the run. If `events` is true, a line is recorded for each
    /// event and drain. Fails with `Plan` if no network can be made of the plan, also if memory is refused for the
    /// network. Fails with `Memory` if memory is refused for the record.
    fn new(alloc: Global, plan: &Plan, wires: usize, events: bool) -> Result<Play, BenchError>
        ensures ok { IfOk result (HasBegunPlay plan.now.hosts.items) }
        ensures puts { IfOk result (λ play. IsNewRecord wires play.record.puts) }
        ensures log { IfOk result (λ play. play.record.log ≡ new_log (map plan_name plan.now.hosts.items) events) }
        ensures err { IfErr result (StopsAtPlan plan.now.hosts.items) }
    {
        let lan = Lan::new(alloc, plan)?;
        let record = Record::new(alloc, plan.hosts.as_slice(), wires, events)?;
        let drained = DrainedFrames::new(alloc);
        Ok(Play {
            lan,
            record,
            drained,
            asked: Refusals::default(),
        })
    }

    /// Runs these events, and records their outcomes and answers. If memory is refused before an event, the error is
    /// `Run` with the number of events and drains done before this event. If memory is refused for the record during an
    /// event, the error is `Memory`.
    #[inline(always)]
    fn run(&mut self, events: &[Event<'_>]) -> Result<(), BenchError>
        ensures ok { OnOk result (HasPlayed (map command_of_event events.now) self.old self.new) }
        ensures err { IfErr result (StopsWithin (map command_of_event events.now) self.old self.new) }
    {
        let ran = self.lan.play(events, &mut self.record);
        if self.record.failed {
            return Err(BenchError::Memory);
        }
        match ran {
            Ok(()) => Ok(()),
            // `_stopped` counts only events of this call; `done` also counts the events and drains before this call.
            Err(_stopped) => {
                let done = self.record.number as usize;
                Err(BenchError::Run(Stopped { done }))
            }
        }
    }

    /// Makes room for the frames of a drain, drains a host, and records the frames that the host returned. The number
    /// of its steps isn't used. If memory is refused before or after the drain, the error is `Memory`.
    #[tactic(auto, using(crate::proofs::PlayedEvents::drained))]
    fn drain(&mut self, host: usize) -> Result<(), BenchError>
        ensures ok { OnOk result (HasPlayed (Drains host ∷ []) self.old self.new) }
        ensures err { IfErr result (StopsWithin (Drains host ∷ []) self.old self.new) }
    {
        self.drained.make_room(self.lan.drain_room(host))?;
        self.lan.drain(host, &mut self.drained);
        self.record.note_drain(host, self.drained.list.as_slice())?;
        Ok(())
    }

    /// Runs an event, and records its outcomes and answer. The errors are those of `run`.
    #[inline(always)]
    fn run_one(&mut self, event: Event<'_>) -> Result<(), BenchError>
        ensures ok { OnOk result (HasPlayed (command_of_event event.entry ∷ []) self.old self.new) }
        ensures err { IfErr result (StopsWithin (command_of_event event.entry ∷ []) self.old self.new) }
    {
        self.run(&[event])
    }

    /// Runs the events of `feed` for one frame from a host: the send, the steps that put the frame on the host's wire,
    /// and the events by which the frame arrives at the other hosts on this wire. A list that `behind` contains from an
    /// earlier frame must be for these plans and this host.
    fn feed_frame(
        &mut self,
        behind: &mut EventsAfterSend,
        plans: &[HostPlan],
        host: usize,
        frame: &[u8],
    ) -> Result<(), BenchError>
        requires before { AreOfSender (hosts_of plans.now) host behind.old }
        ensures ok { OnOk result (HasPlayed (lists.fed (hosts_of plans.now) host frame.now) self.old self.new) }
        ensures err { IfErr result (StopsWithin (lists.fed (hosts_of plans.now) host frame.now) self.old self.new) }
        ensures kept { AreOfSender (hosts_of plans.now) host behind.new }
    {
        self.run_one(Event::Send {
            host,
            frame,
            ticks: &[],
        })?;
        behind.make(plans, host, pieces_of(frame.len()))?;
        self.run(behind.list.as_slice())
    }

    /// Runs the events of `feed` from a host for each frame of a trace, in order.
    #[tactic(auto, using(crate::proofs::PlayedEvents::all_fed))]
    fn feed(
        &mut self,
        alloc: Global,
        plans: &[HostPlan],
        host: usize,
        trace: &Trace,
    ) -> Result<(), BenchError>
        ensures ok { OnOk result
            (HasPlayed (flat_map (lists.fed (hosts_of plans.now) host) trace.now.frames) self.old self.new) }
        ensures err { IfErr result (StopsWithin
            (flat_map (lists.fed (hosts_of plans.now) host) trace.now.frames) self.old self.new) }
    {
        let mut behind = EventsAfterSend::new(alloc);
        for frame in trace.frames.iter() {
            self.feed_frame(&mut behind, plans, host, frame)?;
        }
        Ok(())
    }

    /// Draws `count` random events one at a time, and runs each of them. `start` is the generator's seed. There must be
    /// at least one host.
    #[tactic(auto, using(crate::proofs::PlayedEvents::all_drawn, crate::proofs::PlayedEvents::none_drawn))]
    fn draw(&mut self, plans: &[HostPlan], count: u32, start: u64) -> Result<(), BenchError>
        requires { 0 < length plans.now }
        ensures ok { OnOk result (HasPlayed
            (map (lists.event_drawn (hosts_of plans.now)) (lists.words_drawn count start)) self.old self.new) }
        ensures err { IfErr result (StopsWithin
            (map (lists.event_drawn (hosts_of plans.now)) (lists.words_drawn count start)) self.old self.new) }
    {
        let mut generator = Lcg64Xsh32::seed_from_u64(start);
        let mut left = count;
        while left > 0 {
            let drawn = Drawn::new(plans, generator.next_word());
            self.run_one(drawn.event())?;
            left -= 1;
        }
        Ok(())
    }

    /// Runs the events of a command, or its drain. Runs no event for a `feed` if its trace isn't in `traces`. There
    /// must be at least one host.
    fn command(
        &mut self,
        alloc: Global,
        plans: &[HostPlan],
        traces: &[Trace],
        command: &Command,
    ) -> Result<(), BenchError>
        requires { 0 < length plans.now }
        ensures ok { OnOk result (HasPlayed
            (lists.events_of (hosts_of plans.now) (map trace_frames traces.now) (said_of command.now))
            self.old self.new) }
        ensures err { IfErr result (StopsWithin
            (lists.events_of (hosts_of plans.now) (map trace_frames traces.now) (said_of command.now))
            self.old self.new) }
    {
        match command {
            Command::Call { host, call, ticks } => {
                self.run_one(call.event(*host, ticks.as_slice()))
            }
            Command::Tick(tick) => self.run_one(Event::Tick(*tick)),
            Command::Feed { host, trace } => match traces.get(*trace) {
                Some(trace) => self.feed(alloc, plans, *host, trace),
                None => Ok(()),
            },
            Command::Auto { count, start } => self.draw(plans, *count, *start),
            Command::Drain { host } => self.drain(*host),
        }
    }

    /// Runs the events and drains of these commands, in order. Updates `asked` after each command. `lines` contains,
    /// for each command, the number of its line in the scenario. The record stores this number with the events and
    /// drains of the command. For a command after the end of `lines`, the number is 0. There must be at least one host.
    fn commands(
        &mut self,
        alloc: Global,
        plans: &[HostPlan],
        traces: &[Trace],
        commands: &[Command],
        lines: &[u64],
    ) -> Result<(), BenchError>
        requires { 0 < length plans.now }
        ensures ok { OnOk result (HasPlayed (lists.all_events (hosts_of plans.now) (map trace_frames traces.now)
            (map said_of commands.now)) self.old self.new) }
        ensures err { IfErr result (StopsWithin (lists.all_events (hosts_of plans.now) (map trace_frames traces.now)
            (map said_of commands.now)) self.old self.new) }
    {
        for (place, command) in commands.iter().enumerate() {
            self.record.line = lines.get(place).copied().unwrap_or(0);
            let before = self.record.log.refusals;
            self.command(alloc, plans, traces, command)?;
            self.asked = asked_after(self.asked, command, before, self.record.log.refusals);
        }
        Ok(())
    }

    /// Returns the summaries of all hosts of a plan, in order. The record must contain their counts, and the network
    /// must contain the hosts. Fails only if memory is refused.
    #[tactic(auto, using(crate::proofs::Benching::none_told))]
    fn host_summaries(
        &self,
        alloc: Global,
        plans: &[HostPlan],
    ) -> Result<Vec<HostSummary>, AllocError>
        requires tallies { length plans.now ≤ length self.now.record.hosts.items }
        requires hosts { length plans.now ≤ length self.now.lan.hosts }
        ensures { IfOk result (λ hosts. TellTallies (length plans.now) plans.now self.now hosts.items) }
    {
        let mut hosts = Vec::new(alloc);
        for (number, plan) in plans.iter().enumerate() {
            let tally = self.record.hosts[number];
            let counts = self.lan.counts(number).unwrap();
            hosts.push(HostSummary {
                name: String::from_str(alloc, plan.name.as_str())?,
                accepted: tally.accepted,
                put: tally.put,
                reached: tally.reached,
                stored: tally.stored,
                missed: counts.missed,
                exact: counts.exact,
                given: tally.given,
                unclaimed: counts.unclaimed,
                given_up: tally.resets(),
            })?;
        }
        Ok(hosts)
    }

    /// Writes the traces of sockets, and then the traces of wires, each to its sink. `of_sockets` and `of_wires` choose
    /// the frames of each trace. There must be one sink for each socket, and at most one for each wire. If there is a
    /// sink for a wire, the frames that adapters put must be recorded (`recorded`). Each sink's count of failures must
    /// be below the greatest `u64`. Fails if a sink fails.
    fn write_through<W: Sink>(
        &self,
        of_sockets: &Traces<'_>,
        of_wires: &Traces<'_>,
        writer: &mut RecordWriter,
        unit: Unit,
        sinks: &mut [W],
        wire_sinks: &mut [W],
    ) -> Result<(), WriteError>
        requires sinks { length sinks.old ≡ length (texts_in of_sockets.now self.now.record.returned) }
        requires wires { length wire_sinks.old ≤ length (texts_in of_wires.now (unwrap_or self.now.record.puts [])) }
        requires recorded { AreRecorded (length wire_sinks.old) self.now.record.puts }
        requires countable { All (λ (sink : W). W.failures sink < u64.MAX) sinks.old }
        requires wires_countable { All (λ (sink : W). W.failures sink < u64.MAX) wire_sinks.old }
        ensures ok { OnOk result
            (AreAllWritten unit (texts_in of_sockets.now self.now.record.returned)
            (texts_in of_wires.now (unwrap_or self.now.record.puts []))
            (sinks_of W.taken W.failures sinks.old sinks.new wire_sinks.old wire_sinks.new)) }
        ensures err { OnErr result
            (IsFailedSink unit (texts_in of_sockets.now self.now.record.returned)
            (texts_in of_wires.now (unwrap_or self.now.record.puts []))
            (sinks_of W.taken W.failures sinks.old sinks.new wire_sinks.old wire_sinks.new)) }
    {
        self.record.returned.write(of_sockets, writer, unit, sinks)?;
        match &self.record.puts {
            Some(puts) => puts.write(of_wires, writer, unit, wire_sinks),
            // There is no sink for a wire (`recorded`).
            None => Ok(()),
        }
    }

    /// Writes to each sink the frames of its socket, and then to each of `wire_sinks` the frames that were put on its
    /// wire. The preconditions are those of `write_through`. If memory is refused, nothing was written.
    fn write<W: Sink>(
        &self,
        alloc: Global,
        plan: &Plan,
        unit: Unit,
        sinks: &mut [W],
        wire_sinks: &mut [W],
    ) -> Result<(), BenchError>
        requires sinks { length sinks.old ≡ length (sockets_from 0 (hosts_of plan.now.hosts.items)) }
        requires wires { length wire_sinks.old ≤ length (wire_names (hosts_of plan.now.hosts.items)) }
        requires recorded { AreRecorded (length wire_sinks.old) self.now.record.puts }
        requires countable { All (λ (sink : W). W.failures sink < u64.MAX) sinks.old }
        requires wires_countable { All (λ (sink : W). W.failures sink < u64.MAX) wire_sinks.old }
        ensures ok { OnOk result
            (AreAllWritten unit (socket_texts_in plan.now.hosts.items self.now)
            (wire_texts_in plan.now.hosts.items self.now)
            (sinks_of W.taken W.failures sinks.old sinks.new wire_sinks.old wire_sinks.new)) }
        ensures err { IfErr result (λ error.
            StopsWriting unit (socket_texts_in plan.now.hosts.items self.now)
            (wire_texts_in plan.now.hosts.items self.now) error
            (sinks_of W.taken W.failures sinks.old sinks.new wire_sinks.old wire_sinks.new)) }
    {
        let plans = plan.hosts.as_slice();
        let sockets = sockets(alloc, plans)?;
        let names = wires(alloc, plans)?;
        let mut writer = RecordWriter::new(alloc, unit)?;
        let of_sockets = Traces::Sockets(sockets.as_slice());
        let of_wires = Traces::Wires(plans, names.as_slice());
        self.write_through(&of_sockets, &of_wires, &mut writer, unit, sinks, wire_sinks)?;
        Ok(())
    }

    /// Plays the commands of a scenario on the network of its plan, and then writes the traces. Returns the summary. It
    /// has the lines of events, and the record then contains no lines. `new` must have made `self` for this plan and
    /// this number of `wire_sinks`, and nothing must be recorded yet. The sinks must be as for `write`. In clause `ok`,
    /// `events` is the argument with which `new` was called.
    fn bench<W: Sink>(
        &mut self,
        alloc: Global,
        scenario: &Scenario,
        traces: &[Trace],
        unit: Unit,
        sinks: &mut [W],
        wire_sinks: &mut [W],
    ) -> Result<Summary, BenchError>
        requires begins { HasBegunPlay scenario.now.plan.hosts.items self.old }
        requires puts { IsNewRecord (length wire_sinks.old) self.old.record.puts }
        requires sinks { length sinks.old ≡ length (sockets_from 0 (hosts_of scenario.now.plan.hosts.items)) }
        requires wires { length wire_sinks.old ≤ length (wire_names (hosts_of scenario.now.plan.hosts.items)) }
        requires countable { All (λ (sink : W). W.failures sink < u64.MAX) sinks.old }
        requires wires_countable { All (λ (sink : W). W.failures sink < u64.MAX) wire_sinks.old }
        ensures ok { IfOk result (λ summary. (events : Bool)
            → self.old.record.log ≡ new_log (map plan_name scenario.now.plan.hosts.items) events
            → Benches unit scenario.now (map trace_frames traces.now) events summary
            (sinks_of W.taken W.failures sinks.old sinks.new wire_sinks.old wire_sinks.new)) }
        ensures err { IfErr result (λ error. Stops unit scenario.now (map trace_frames traces.now) error
            (sinks_of W.taken W.failures sinks.old sinks.new wire_sinks.old wire_sinks.new)) }
    {
        let plans = scenario.plan.hosts.as_slice();
        let commands = scenario.commands.as_slice();
        self.commands(alloc, plans, traces, commands, scenario.command_lines())?;
        let hosts = self.host_summaries(alloc, plans)?;
        self.write(alloc, &scenario.plan, unit, sinks, wire_sinks)?;
        Ok(Summary {
            hosts,
            refusals: self.record.log.refusals,
            asked: self.asked,
            events: self.record.log.lines.take(),
        })
    }
}

/// Plays a scenario: makes the network of its plan, and runs its events and drains in order. Then writes to each sink
/// the frames that its socket returned, as a trace (libpcap, "pcap-savefile").
///
/// The time of a frame in microseconds is the number of the frame's event or drain. The trace has this time in `unit`.
/// Events and drains are numbered from 0; the numbers saturate at the greatest `u64`.
///
/// Pass a trace for each name of [`Scenario::trace_names`], and a sink for each socket, hosts in order and the sockets
/// of each host in order. Each sink's count of failures must be below the greatest `u64`. [`bench_with`] also writes
/// the traces of wires, and returns a line for each event and drain.
///
/// # Errors
///
/// After each of these errors except `Write`, nothing was written.
/// - [`Plan`](BenchError::Plan) if no network can be made of the plan (E40 to E46), also if memory is refused for the
///   network (E45).
/// - [`Run`](BenchError::Run) (E47) if, before an event, memory is refused for what is recorded of the event, or for
///   the frames that a reset drops. The error's field `done` is the number of events and drains that were done before
///   this event; it saturates at the greatest `u64`.
/// - [`Memory`](BenchError::Memory) (E57) if memory is refused for anything else.
/// - [`Write`](BenchError::Write) (E67) if a sink failed. The sinks before this sink have their whole traces. This sink
///   has a beginning of its own trace, and the sinks after it are unchanged.
pub fn bench<W: Sink>(
    alloc: Global,
    scenario: &Scenario,
    traces: &[Trace],
    unit: Unit,
    sinks: &mut [W],
) -> Result<Summary, BenchError>
    requires traces { length traces.now ≡ length scenario.now.traces.items }
    requires sinks { length sinks.old ≡ length (sockets_from 0 (hosts_of scenario.now.plan.hosts.items)) }
    requires countable { All (λ (sink : W). W.failures sink < u64.MAX) sinks.old }
    ensures ok { IfOk result (λ summary. Benches unit scenario.now (map trace_frames traces.now) false summary
        (sinks_of W.taken W.failures sinks.old sinks.new [] [])) }
    ensures err { IfErr result (λ error. Stops unit scenario.now (map trace_frames traces.now) error
        (sinks_of W.taken W.failures sinks.old sinks.new [] [])) }
{
    bench_with(alloc, scenario, traces, unit, sinks, &mut [], false)
}

/// Plays a scenario as [`bench`] does, and at the end also writes to each of `wire_sinks` the frames that were put on
/// its wire, as a trace. If `events` is true, the summary has a line for each event and drain.
///
/// Pass the traces and the sinks of sockets as for [`bench`]. Pass in `wire_sinks` a sink for each wire of
/// [`wires`](crate::wires), in order, or for only the first wires, or no sinks. Each sink's count of failures must be
/// below the greatest `u64`.
///
/// # Errors
///
/// The errors of [`bench`]. The sinks of sockets are written before those of wires.
pub fn bench_with<W: Sink>(
    alloc: Global,
    scenario: &Scenario,
    traces: &[Trace],
    unit: Unit,
    sinks: &mut [W],
    wire_sinks: &mut [W],
    events: bool,
) -> Result<Summary, BenchError>
    requires traces { length traces.now ≡ length scenario.now.traces.items }
    requires sinks { length sinks.old ≡ length (sockets_from 0 (hosts_of scenario.now.plan.hosts.items)) }
    requires wires { length wire_sinks.old ≤ length (wire_names (hosts_of scenario.now.plan.hosts.items)) }
    requires countable { All (λ (sink : W). W.failures sink < u64.MAX) sinks.old }
    requires wires_countable { All (λ (sink : W). W.failures sink < u64.MAX) wire_sinks.old }
    ensures ok { IfOk result (λ summary. Benches unit scenario.now (map trace_frames traces.now) events summary
        (sinks_of W.taken W.failures sinks.old sinks.new wire_sinks.old wire_sinks.new)) }
    ensures err { IfErr result (λ error. Stops unit scenario.now (map trace_frames traces.now) error
        (sinks_of W.taken W.failures sinks.old sinks.new wire_sinks.old wire_sinks.new)) }
{
    let mut play = Play::new(alloc, &scenario.plan, wire_sinks.len(), events)?;
    play.bench(alloc, scenario, traces, unit, sinks, wire_sinks)
}
