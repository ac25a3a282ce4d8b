//! The record of a run: counts for each host, frames that sockets returned or adapters put, numbers of refused calls,
//! and lines.
ghost use Rattle.std.specs.Prelude.{◌≡◌, ◌≤◌, ◌∷◌, [], ℕ, List, IfOk, OnOk, length, map, replicate};
ghost use Rattle.adapter.specs.Outcomes.{with_frame};
ghost use Rattle.host_calls.specs.Happenings.{tick_host, outcome_happenings};
ghost use Rattle.network_plan.specs.Answers.{answer_with};
ghost use Rattle.run_record.specs.Acts.{Drained};
ghost use Rattle.run_record.specs.DrainedView.{drained_frame};
ghost use Rattle.run_record.specs.Kept.{FramesGrow, PutsGrow, put_frames_in, returned_in};
ghost use Rattle.run_record.specs.EventLogView.{plan_name};
ghost use Rattle.run_record.specs.Recording.{IsNewRecord, NotesAnswer, answered};
ghost use Rattle.run_record.specs.RunLogs.{new_log};
ghost use Rattle.run_record.specs.Tallies.{AreNoted, TalliesGrow, TallyCounts};
ghost use Rattle.run_record.specs.Tallies.{given_up_of, no_tally};
ghost use Rattle.wire.specs.DrainedNetworks.{said_of_drain};

use crate::drained::DrainedFrame;
use crate::event_text::Place;
use crate::kept::KeptFrames;
use crate::run_log::{EventLog, Refusals, RunLog};
use crate::tally::{Passage, Tally};
use adapter::{Fate, Outcome, StepKind};
use stations::Observer;
use std::alloc::{AllocError, Global};
use wire::{Answer, Event, HostPlan, RunObserver, Tick};

/// The record of a run. As the run's observer, it is told of each tick and of the answer to each event.
#[derive(Drop)]
pub struct Record {
    /// The number of the next event or drain, from 0. It saturates at the greatest `u64`.
    pub number: u64,
    /// The number of the scenario's line of the next event or drain, from 1; 0 if no line is known.
    pub line: u64,
    /// The counts of each host.
    pub hosts: Vec<Tally>,
    /// The frames that sockets returned.
    pub returned: KeptFrames,
    /// The frames that adapters put on wires; `None` if they aren't recorded.
    pub puts: Option<KeptFrames>,
    /// The numbers of refused calls, and the lines of events and drains.
    pub log: RunLog,
    /// Whether memory was refused for a frame that a socket returned or an adapter put, or for the text of a tick or an
    /// event. The program never sets `failed` to true, because memory is allocated before the event. The proof doesn't
    /// use this fact.
    pub failed: bool,
}

/// Returns the host of a tick, or 0 for a `Go`. The outcome of a `Go` is `Nothing`, which isn't counted.
fn tick_host(tick: Tick) -> usize
    ensures { result ≡ tick_host tick }
{
    match tick {
        Tick::Go => 0,
        Tick::Step(host, _) => host,
        Tick::Deliver(host) => host,
    }
}

/// Counts one frame, to which `passage` happened, in the counts of a host, if the host exists.
fn count(hosts: &mut [Tally], host: usize, passage: Passage)
    ensures { TallyCounts host passage hosts.old hosts.new }
{
    if host < hosts.len() {
        hosts[host] = hosts[host].with(passage);
    }
}

/// Counts what happened to the frame of an outcome ([`Passage`]) at a host, if the outcome is counted and the host
/// exists. The outcome contains no frame, so the clause holds for each frame.
#[tactic(auto, using(crate::proofs::Noting::told_nothing))]
#[inline(always)]
fn note_outcome(hosts: &mut [Tally], host: usize, outcome: &Outcome<()>)
    ensures { (frame : List ℕ)
        → TalliesGrow (outcome_happenings host (with_frame frame outcome.now)) hosts.old hosts.new }
{
    let passage = match outcome {
        Outcome::Put(_) => Passage::Put,
        Outcome::Delivered(_, Fate::Stored) => Passage::Stored,
        Outcome::Delivered(_, Fate::Off) => Passage::Off,
        Outcome::Delivered(_, _) => Passage::Reached,
        _ => return,
    };
    count(hosts, host, passage);
}

/// Records the frame of an outcome at a host, if the frame was put on a wire and such frames are recorded. `number` is
/// the number of the event. The frame must have at most 1,518 bytes. The socket of a frame that was put is 0. Fails if
/// memory is refused.
#[inline(always)]
fn note_put(
    puts: &mut Option<KeptFrames>,
    host: usize,
    number: u64,
    outcome: &Outcome<()>,
    frame: &[u8],
) -> Result<(), AllocError>
    requires { length frame.now ≤ 1518 }
    ensures { OnOk result (PutsGrow (put_frames_in number (outcome_happenings host (with_frame frame.now outcome.now)))
        puts.old puts.new) }
{
    match (outcome, puts) {
        (Outcome::Put(_), Some(puts)) => puts.push(host, 0, number, frame),
        _ => Ok(()),
    }
}

/// If the answer is that of a reset and the host exists, counts the frames that the reset gave up, and notes the reset.
#[tactic(auto, using(crate::specs::RecordingLaws::grows_not))]
#[inline(never)]
fn note_reset(hosts: &mut [Tally], host: usize, answer: &Answer<()>)
    ensures { (frame : List ℕ) → TalliesGrow (given_up_of host (answer_with frame answer.now)) hosts.old hosts.new }
{
    if let Answer::Reset {
        sending,
        holding,
        ..
    } = answer
    {
        if host < hosts.len() {
            hosts[host] = hosts[host].given_up(sending.len() as u64, holding.len() as u64);
        }
    }
}

/// Counts and records the frames that a drained host returned. `number` is the number of the drain. Fails if memory is
/// refused. The clauses state 0 moves of frames from the receive packet buffer, because moves are neither counted nor
/// recorded.
fn note_drained(
    hosts: &mut [Tally],
    returned: &mut KeptFrames,
    host: usize,
    number: u64,
    given: &[DrainedFrame],
) -> Result<(), AllocError>
    ensures hosts { OnOk result
        (TalliesGrow (said_of_drain host 0 (map drained_frame given.now)) hosts.old hosts.new) }
    ensures returned { OnOk result (FramesGrow
        (returned_in number (said_of_drain host 0 (map drained_frame given.now))) returned.old returned.new) }
{
    for one in given {
        count(hosts, host, Passage::Given);
        returned.push(host, one.socket, number, one.frame.as_slice())?;
    }
    Ok(())
}

impl Record {
    /// Returns the record of these hosts before a run. Frames that adapters put are recorded unless `wires`, the number
    /// of traces of wires to write, is 0. If `events` is true, a line is recorded for each event and drain.
    pub fn new(
        alloc: Global,
        plans: &[HostPlan],
        wires: usize,
        events: bool,
    ) -> Result<Record, AllocError>
        ensures number { IfOk result (λ noted. noted.number ≡ 0) }
        ensures hosts { IfOk result (λ noted. noted.hosts.items ≡ replicate (length plans.now) no_tally) }
        ensures returned { IfOk result (λ noted. noted.returned ≡ []) }
        ensures puts { IfOk result (λ noted. IsNewRecord wires noted.puts) }
        ensures log { IfOk result (λ noted. noted.log ≡ new_log (map plan_name plans.now) events) }
    {
        let hosts = vec![in alloc; Tally::default(); plans.len()]?;
        let lines = match events {
            true => Some(EventLog::new(alloc, plans)?),
            false => None,
        };
        Ok(Record {
            number: 0,
            line: 0,
            hosts,
            returned: KeptFrames::new(alloc),
            puts: match wires {
                0 => None,
                _ => Some(KeptFrames::new(alloc)),
            },
            log: RunLog {
                refusals: Refusals::default(),
                lines,
            },
            failed: false,
        })
    }

    /// Makes room for what is recorded of an event with `ticks` ticks. What is recorded doesn't change. Fails if memory
    /// is refused.
    #[inline(always)]
    fn reserve(&mut self, event: &Event<'_>, ticks: usize) -> Result<(), AllocError>
        ensures { self.new ≡ self.old }
    {
        if let Some(puts) = &mut self.puts {
            puts.reserve(ticks)?;
        }
        self.log.reserve(ticks)?;
        match event {
            Event::Recv { .. } => self.returned.reserve(1),
            _ => Ok(()),
        }
    }

    /// Counts the frames that the answer to a send, a recv or a reset reports, and records the frame that a socket
    /// returned. Sets `failed` if memory was refused for this frame. Changes nothing for other events. `frame` must
    /// have at most 1,518 bytes.
    #[inline(always)]
    fn note_answer(&mut self, event: &Event<'_>, answer: &Answer<()>, frame: &[u8])
        requires fits { length frame.now ≤ 1518 }
        ensures { NotesAnswer (answered event.now (answer_with frame.now answer.now)) self.old self.new }
    {
        match event {
            Event::Send { host, .. } => {
                if let Answer::Sent(Ok(())) = answer {
                    count(self.hosts.as_mut_slice(), *host, Passage::Accepted);
                }
            }
            Event::Recv { host, socket, .. } => {
                if let Answer::Received(Ok(())) = answer {
                    count(self.hosts.as_mut_slice(), *host, Passage::Given);
                    let kept = self.returned.push(*host, *socket, self.number, frame);
                    self.failed |= kept.is_err();
                }
            }
            Event::Reset { host, .. } => note_reset(self.hosts.as_mut_slice(), *host, answer),
            Event::Interrupt { .. } | Event::Join { .. } | Event::Leave { .. } | Event::Tick(_) =>
                {}
        }
    }

    /// Counts and records the frames `given` that a host returned in a drain, and records the drain's line if lines are
    /// recorded. The drain has the number `self.number`, which then grows by 1. The number of frames in the host's
    /// receive packet buffer before the drain isn't recorded: the clause states 0. Fails if memory is refused.
    #[tactic(auto, using(crate::proofs::NotedEvents::drain_noted))]
    pub fn note_drain(&mut self, host: usize, given: &[DrainedFrame]) -> Result<(), AllocError>
        ensures { OnOk result
            (AreNoted (Drained host 0 (map drained_frame given.now) ∷ []) self.old self.new) }
    {
        let place = Place {
            number: self.number,
            line: self.line,
        };
        self.log.drain(place, host, given.len())?;
        let hosts = self.hosts.as_mut_slice();
        note_drained(hosts, &mut self.returned, host, self.number, given)?;
        self.number = self.number.saturating_add(1);
        Ok(())
    }
}

impl Observer for Record {
    ghost use Rattle.run_record.specs.RecordingLaws.{ticks_compose};
    ghost use Rattle.run_record.specs.Recording.{HearsTicks};

    ghost heard = { HearsTicks };

    // 2^64, which is more than the length of any list of ticks.
    ghost room_left = { λ now. 18446744073709551616 };

    ghost composes = { ticks_compose };

    #[inline(always)]
    fn note(&mut self, tick: Tick, accesses: u64, outcome: Outcome<()>, frame: &[u8]) {
        let host = tick_host(tick);
        note_outcome(self.hosts.as_mut_slice(), host, &outcome);
        self.failed |= note_put(&mut self.puts, host, self.number, &outcome, frame).is_err();
        self.failed |= self.log.note(tick, accesses, &outcome, frame).is_err();
    }
}

impl RunObserver for Record {
    ghost use Rattle.std.specs.Prelude.{⊤};
    ghost use Rattle.run_record.specs.RecordingLaws.{record_composes};
    ghost use Rattle.run_record.specs.Recording.{RecordsReplies};

    ghost ran = { RecordsReplies };

    // If memory is refused for an answer, the record only sets `failed`. So it is ready for each answer (`ready`).
    // `make_room` may refuse each event (`refuses`).
    ghost ready = { λ now event. ⊤ };

    ghost refuses = { λ now event. ⊤ };

    ghost composes_runs = { record_composes };

    #[inline(always)]
    fn make_room(&mut self, event: &Event<'_>, ticks: usize) -> bool {
        // After a failure, the record refuses each further event, so the run ends.
        !self.failed && self.reserve(event, ticks).is_ok()
    }

    // Counts the answer if it is a refusal, and records the event's line if lines are recorded (`NotesLine`). Then
    // counts and records what the answer reports (`NotesAnswer`), and adds 1 to `number`, which saturates.
    #[inline(always)]
    fn answer(&mut self, event: &Event<'_>, accesses: u64, answer: Answer<()>, frame: &[u8]) {
        let place = Place {
            number: self.number,
            line: self.line,
        };
        self.failed |= self
            .log
            .end(place, event, accesses, &answer, frame)
            .is_err();
        self.note_answer(event, &answer, frame);
        self.number = self.number.saturating_add(1);
    }
}
