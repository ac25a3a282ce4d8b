//! The record of the answers of a run: the numbers of refused calls, and on request a line for each event and drain.
ghost use Rattle.std.specs.Prelude.{◌≡◌, ◌<◌, ℕ, List, IfOk, OnErr, OnOk, map};
ghost use Rattle.std.specs.Io.KnownBytes.{Appends};
ghost use Rattle.adapter.specs.Outcomes.{with_frame};
ghost use Rattle.network_plan.specs.Answers.{answer_with};
ghost use Rattle.pcap_trace.specs.Devices.{AppendsFront, CountsFailures};
ghost use Rattle.stations.specs.ToldTicks.{tick_told};
ghost use Rattle.run_record.specs.EventLines.{end_logged, no_lines};
ghost use Rattle.run_record.specs.EventLogView.{plan_name};
ghost use Rattle.run_record.specs.RunLogs.{act_drained, answered_log, log_ended, log_heard};

use crate::event_text::{
    Place, push_answer, push_drain, push_event, push_number, push_place, push_told,
};
use adapter::Outcome;
use packet_socket::RecvError;
use pcap_trace::{Sink, WriteError, write_all};
use std::alloc::{AllocError, Global};
use std::marker::Model;
use wire::{Answer, Event, HostPlan, Tick};

/// Room for a tick with its outcome, in bytes: more than the bytes of the longest name, two numbers and the words.
const LONGEST_TOLD: usize = 96;

/// Room for a line without its ticks, in bytes.
const LONGEST_REST: usize = 192;

/// A line for each event or drain that was played, in order. During an event, the log also contains the texts of the
/// event's ticks so far, with their outcomes.
///
/// In contracts, the value is a `LogState`.
#[derive(Drop)]
pub struct EventLog {
    /// The names of the hosts, in order.
    names: Vec<String>,
    /// The texts of the current event's ticks so far, with their outcomes.
    outcomes: Vec<u8>,
    /// The lines.
    text: Vec<u8>,
}

impl Model for EventLog {
    ghost use Rattle.run_record.specs.EventLines.{LogState};

    ghost Value = { LogState };

    ghost use Rattle.run_record.specs.EventLogView.{log_state_of};

    ghost view = { log_state_of };
}

/// Numbers of calls that were refused. Each saturates at the greatest `u64`.
#[derive(Clone, Copy, Default)]
pub struct Refusals {
    /// Sends (E20 to E22).
    pub sends: u64,
    /// Joins and leaves (E23 to E26).
    pub groups: u64,
    /// Recvs from a socket that doesn't exist (E31).
    pub sockets: u64,
}

/// The record of the answers of a run.
#[derive(Drop)]
pub struct RunLog {
    /// The numbers of refused calls.
    pub refusals: Refusals,
    /// A line for each event and drain; `None` if lines aren't recorded.
    pub lines: Option<EventLog>,
}

impl EventLog {
    /// Returns a log of these hosts without lines. Fails if memory is refused.
    pub(crate) fn new(alloc: Global, plans: &[HostPlan]) -> Result<EventLog, AllocError>
        ensures { IfOk result (λ log. log ≡ no_lines (map plan_name plans.now)) }
    {
        let mut names = Vec::new(alloc);
        for plan in plans {
            names.push(plan.name.clone()?)?;
        }
        Ok(EventLog {
            names,
            outcomes: Vec::new(alloc),
            text: Vec::new(alloc),
        })
    }

    /// Makes room for the line of an event with `ticks` ticks. The log's value doesn't change. Fails if memory is
    /// refused.
    #[inline(never)]
    fn reserve(&mut self, ticks: usize) -> Result<(), AllocError>
        ensures { self.new ≡ self.old }
    {
        // The texts of the ticks are collected in `outcomes`, and then copied to the event's line in `text`.
        let outcomes = ticks.saturating_mul(LONGEST_TOLD);
        self.outcomes.reserve(outcomes)?;
        self.text.reserve(outcomes.saturating_add(LONGEST_REST))
    }

    /// Appends the line of the event at this place, and removes the texts of the event's ticks: `EVENT line LINE CALL
    /// ANSWER accesses N`, these texts, and a line feed. `frame` is the frame that a socket returned, if the answer has
    /// one. Fails if memory is refused.
    #[inline(never)]
    fn end(
        &mut self,
        place: Place,
        event: &Event<'_>,
        accesses: u64,
        answer: &Answer<()>,
        frame: &[u8],
    ) -> Result<(), AllocError>
        ensures { OnOk result
            (self.new ≡ end_logged place event.now accesses (answer_with frame.now answer.now) self.old) }
    {
        push_place(&mut self.text, place)?;
        push_event(&mut self.text, self.names.as_slice(), event)?;
        push_answer(&mut self.text, answer, frame)?;
        push_number(&mut self.text, b" accesses ", accesses)?;
        self.text.extend_from_slice(self.outcomes.as_slice())?;
        self.text.extend_from_slice(b"\n")?;
        self.outcomes.clear();
        Ok(())
    }

    /// Writes the lines to a sink. Allocates no memory. The sink's number of failures must be able to grow by 1.
    ///
    /// - The line of an event is `EVENT line LINE CALL ANSWER accesses N`, and then ` @N TICK OUTCOME` for each tick.
    ///   The N of a tick is the number of accesses before the tick.
    /// - The line of a drain is `EVENT line LINE drain HOST ok N`: the host returned N frames.
    ///
    /// # Errors
    ///
    /// E67 [`Write`](WriteError::Write) if the sink fails. Then a beginning of the text was written.
    pub fn write<W: Sink>(&self, sink: &mut W) -> Result<(), WriteError>
        requires { W.failures sink.old < u64.MAX }
        ensures ok { OnOk result (Appends (W.taken sink.old) (W.taken sink.new) self.now.text) }
        ensures err { OnErr result (AppendsFront (W.taken sink.old) (W.taken sink.new) self.now.text) }
        ensures failures { CountsFailures result (W.failures sink.old) (W.failures sink.new) }
    {
        write_all(sink, self.text.as_slice())
    }
}

impl RunLog {
    /// Makes room for the line of an event with `ticks` ticks, if lines are recorded. The log's value doesn't change.
    /// Fails if memory is refused.
    #[inline(always)]
    pub(crate) fn reserve(&mut self, ticks: usize) -> Result<(), AllocError>
        ensures { self.new ≡ self.old }
    {
        match &mut self.lines {
            Some(lines) => lines.reserve(ticks),
            None => Ok(()),
        }
    }

    /// Appends the text of a tick, with its outcome, to the texts of the current event's ticks, if lines are recorded.
    /// `accesses` is the number of accesses before the tick, and `frame` the frame of the outcome, if it has one.
    #[inline(always)]
    pub(crate) fn note(
        &mut self,
        tick: Tick,
        accesses: u64,
        outcome: &Outcome<()>,
        frame: &[u8],
    ) -> Result<(), AllocError>
        ensures { OnOk result
            (self.new ≡ log_heard self.old (tick_told tick accesses (with_frame frame.now outcome.now))) }
    {
        let Some(log) = &mut self.lines else {
            return Ok(());
        };
        let names = log.names.as_slice();
        push_told(&mut log.outcomes, names, tick, accesses, outcome, frame)
    }

    /// Counts an answer that refuses a send, a join or a leave, or that reports that a socket doesn't exist.
    #[inline(always)]
    fn count(&mut self, answer: &Answer<()>)
        ensures { (frame : List ℕ) → self.new ≡ answered_log (answer_with frame answer.now) self.old }
    {
        let count = &mut self.refusals;
        match answer {
            Answer::Sent(Err(_)) => count.sends = count.sends.saturating_add(1),
            Answer::Joined(Err(_)) | Answer::Left(Err(_)) => {
                count.groups = count.groups.saturating_add(1);
            }
            Answer::Received(Err(RecvError::NoSocket)) => {
                count.sockets = count.sockets.saturating_add(1);
            }
            _ => {}
        }
    }

    /// Counts the answer of the event at this place if the answer is a refusal, and records the event's line if lines
    /// are recorded. The texts of the event's ticks are then removed. `frame` is the frame that a socket returned, if
    /// the answer has one. Fails if memory is refused.
    #[inline(always)]
    pub(crate) fn end(
        &mut self,
        place: Place,
        event: &Event<'_>,
        accesses: u64,
        answer: &Answer<()>,
        frame: &[u8],
    ) -> Result<(), AllocError>
        ensures { OnOk result
            (self.new ≡ log_ended place event.now accesses (answer_with frame.now answer.now) self.old) }
    {
        self.count(answer);
        match &mut self.lines {
            Some(lines) => lines.end(place, event, accesses, answer, frame),
            None => Ok(()),
        }
    }

    /// Records the line of the drain at this place, in which a host returned `count` frames, if lines are recorded.
    /// Fails if memory is refused.
    pub(crate) fn drain(
        &mut self,
        place: Place,
        host: usize,
        count: usize,
    ) -> Result<(), AllocError>
        ensures { OnOk result (self.new ≡ act_drained place host count self.old) }
    {
        let Some(log) = &mut self.lines else {
            return Ok(());
        };
        let names = log.names.as_slice();
        push_drain(&mut log.text, names, place, host, count)
    }
}
