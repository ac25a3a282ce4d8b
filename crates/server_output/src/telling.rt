// The observer that writes lines.

ghost use Rattle.std.specs.Prelude.{◌≡◌, ◌++◌, [], IfOk, OnOk, Some, flat_map, true};
ghost use Rattle.adapter.specs.Outcomes.{put_by, with_frame};
ghost use Rattle.played_adapter.specs.Told as told;
ghost use Rattle.server_output.specs.Answers.{IsSized, line_of};
ghost use Rattle.server_output.specs.Telling.{Ends, WroteText, step_shown, told_text};
ghost use Rattle.server_output.specs.Texts.{frame_line, line_told, said_log};

use crate::answer_error::AnswerError;
use crate::answers::{Answer, say_answer};
use crate::kept::Kept;
use crate::lines::{fate_word, kind_word, outcome_word, push_fault_line, push_parts, push_said};
use crate::output::{say, say_made, say_parts};
use access_names::EngineFault;
use adapter::{Fate, Outcome, StepKind};
use played_adapter::Observer;
use std::alloc::{AllocError, Global};
use std::io::Write;
use step_schedules::Action;

/// The observer that writes lines about what it is told, and keeps frames, faults and actions in `kept`.
///
/// After an error, the observer writes and keeps nothing more, except the error. Calls use the borrows `out` and
/// `kept`, but don't replace them: each `ghost_name`, which names a borrow, remains the same (`lent`).
#[derive(Drop)]
pub struct Lines<'a, W: Write> {
    /// The writer of the lines.
    pub out: &'a mut W,
    /// The frames, faults and actions that are kept, and which lines are written.
    pub kept: &'a mut Kept,
    /// What the log prints for the request's access or arrival: the line of the request, and after `log targets` also
    /// the name of the access's target.
    pub said: &'a [u8],
    /// The allocator of texts.
    pub alloc: Global,
    /// The error that stopped writing, or `None` if writing hasn't stopped.
    pub stopped: Option<AnswerError>,
}

/// Returns the line that reports this new level of the interrupt line.
fn level_text(level: bool) -> &'static [u8]
    ensures { result.now ≡ line_told (Some level) }
{
    if level {
        b"IRQ raise 0\n"
    } else {
        b"IRQ lower 0\n"
    }
}

/// Appends the line of the frame that a step put, if the step put a frame.
fn push_put(
    alloc: Global,
    text: &mut Vec<u8>,
    outcome: Outcome<()>,
    frame: &[u8],
) -> Result<(), AllocError>
    ensures { OnOk result (text.new.items ≡ text.old.items
        ++ flat_map frame_line (put_by (with_frame frame.now outcome))) }
{
    let Outcome::Put(()) = outcome else {
        return Ok(());
    };
    let digits = hex::encode(alloc, frame)?;
    push_parts(text, &[b"frame ", digits.as_bytes(), b"\n"])
}

/// Appends the line of the frame that a step put, and the line of the step's fault, if there are any.
fn push_shown(
    alloc: Global,
    text: &mut Vec<u8>,
    outcome: Outcome<()>,
    frame: &[u8],
    fault: Option<EngineFault>,
) -> Result<(), AllocError>
    ensures { OnOk result (text.new.items ≡ text.old.items ++ step_shown true (with_frame frame.now outcome) fault) }
{
    push_put(alloc, text, outcome, frame)?;
    match fault {
        Some(fault) => push_fault_line(text, fault),
        None => Ok(()),
    }
}

/// Returns the text about a step. It begins with the step's line of the log, if the log is on. If events are written,
/// the lines of the step's frame and of the step's fault follow, if there are any.
fn step_text(
    alloc: Global,
    log: bool,
    events: bool,
    kind: StepKind,
    outcome: Outcome<()>,
    frame: &[u8],
    fault: Option<EngineFault>,
) -> Result<Vec<u8>, AllocError>
    // `[]`: the text about a step doesn't contain the line of the request.
    ensures { IfOk result (λ text. text.items
        ≡ told_text log events [] (told.Stepped kind (with_frame frame.now outcome) fault)) }
{
    let mut text = Vec::new(alloc);
    push_said(
        &mut text,
        log,
        &[b"step ", kind_word(kind), b" -> ", outcome_word(outcome)],
    )?;
    if events {
        push_shown(alloc, &mut text, outcome, frame, fault)?;
    }
    Ok(text)
}

/// Returns the text about the arrival of an offered frame. It begins with the arrival's line of the log, if the log is
/// on. If events are written, the line of the arrival with the fate follows.
#[tactic(auto, unfolding(crate::specs::Texts::digits_arrived))]
fn arrival_text(
    alloc: Global,
    log: bool,
    events: bool,
    frame: &[u8],
    fate: Fate,
) -> Result<Vec<u8>, AllocError>
    // `[]`: the text about this arrival doesn't contain the line of the request.
    ensures { IfOk result (λ text. text.items ≡ told_text log events [] (told.OfferedArrived frame.now fate)) }
{
    // The line of the log and the line of the arrival contain the same digits.
    let digits = hex::encode(alloc, frame)?;
    let mut text = Vec::new(alloc);
    push_said(&mut text, log, &[b"arrive ", digits.as_bytes()])?;
    if events {
        let word = fate_word(fate);
        push_parts(
            &mut text,
            &[b"arrived ", word, b" ", digits.as_bytes(), b"\n"],
        )?;
    }
    Ok(text)
}

impl<'a, W: Write> Lines<'a, W> {
    /// Ends the text about a request: writes the line of the answer. If writing has stopped, writes nothing, and
    /// returns the error that stopped writing. Doesn't store an error.
    ///
    /// An answer `Bytes` must contain the number of bytes that its request asks for (`IsSized`).
    pub fn end(&mut self, answer: Answer<'_>) -> Result<(), AnswerError>
        requires { IsSized answer }
        ensures state { self.new ≡ record self.old { out = self.new.out } }
        ensures lent { self.new.out.ghost_name ≡ self.old.out.ghost_name }
        ensures ends { Ends self.old.stopped result (W.contents self.old.out.now) (W.contents self.new.out.now)
            (line_of answer.entry) }
    {
        match self.stopped {
            Some(error) => Err(error),
            None => say_answer(self.alloc, self.out, answer),
        }
    }

    /// Writes the request's line of the log (`said`), if the log is on. The observer does this when it is told of the
    /// request's access or arrival. Stores the error if this fails. Writes nothing if writing has stopped.
    fn say_request(&mut self)
        ensures state { self.new ≡ record self.old { out = self.new.out; stopped = self.new.stopped } }
        ensures lent { self.new.out.ghost_name ≡ self.old.out.ghost_name }
        ensures text { WroteText self.old.stopped self.new.stopped (W.contents self.old.out.now)
            (W.contents self.new.out.now) (said_log self.old.kept.now.log self.old.said.now) }
    {
        if self.kept.log && self.stopped.is_none() {
            self.stopped = say_parts(self.alloc, self.out, &[b"# ", self.said, b"\n"]).err();
        }
    }
}

impl<'a, W: Write> Observer for Lines<'a, W> {
    ghost use Rattle.server_output.specs.Telling.{Heard};
    ghost use Rattle.server_output.specs.TellingLaws.{written_joins, heard_stays, lent_joins, lent_stays};

    ghost heard = { λ a b told. (b.out.ghost_name ≡ a.out.ghost_name) × (b.kept.ghost_name ≡ a.kept.ghost_name)
        × Heard a.said.now b.said.now a.kept.now b.kept.now a.stopped b.stopped (W.contents a.out.now)
        (W.contents b.out.now) told };

    ghost composes = { record {
      stays = λ a. (
        lent_stays a.out.ghost_name,
        lent_stays a.kept.ghost_name,
        heard_stays a.said.now a.kept.now a.stopped (W.contents a.out.now),
      );
      joins = λ a b c first later one two. (
        lent_joins a.out.ghost_name b.out.ghost_name c.out.ghost_name one.0 two.0,
        lent_joins a.kept.ghost_name b.kept.ghost_name c.kept.ghost_name one.1 two.1,
        written_joins a.said.now b.said.now c.said.now a.kept.now b.kept.now c.kept.now a.stopped b.stopped c.stopped
            (W.contents a.out.now) (W.contents b.out.now) (W.contents c.out.now) first later one.2 two.2,
      );
    } };

    /// Keeps the step's frame and fault if events aren't written. Then writes the text about the step.
    fn stepped(
        &mut self,
        kind: StepKind,
        outcome: Outcome<()>,
        frame: &[u8],
        fault: Option<EngineFault>,
    ) {
        if self.stopped.is_some() {
            return;
        }
        let kept = self.kept.keep_step(self.alloc, outcome, frame, fault);
        if kept.is_err() {
            self.stopped = Some(AnswerError::Memory);
            return;
        }
        let text = step_text(
            self.alloc,
            self.kept.log,
            self.kept.events,
            kind,
            outcome,
            frame,
            fault,
        );
        self.stopped = say_made(self.out, text).err();
    }

    /// Writes the request's line of the log, if the log is on. The request's answer contains the fate.
    fn arrived(&mut self, _frame: &[u8], _fate: Fate) {
        self.say_request();
    }

    /// Writes the text about the arrival of an offered frame.
    fn offered_arrived(&mut self, frame: &[u8], fate: Fate) {
        if self.stopped.is_some() {
            return;
        }
        let text = arrival_text(self.alloc, self.kept.log, self.kept.events, frame, fate);
        self.stopped = say_made(self.out, text).err();
    }

    /// Writes the request's line of the log, if the log is on. The request's answer contains the value.
    fn read(&mut self, _offset: u32, _value: u32) {
        self.say_request();
    }

    /// Writes the request's line of the log, if the log is on. The line also contains what was written.
    fn written(&mut self, _offset: u32, _value: u32) {
        self.say_request();
    }

    /// Writes the request's line of the log, if the log is on. The request's answer contains the bytes.
    fn loaded(&mut self, _address: u64, _bytes: &[u8]) {
        self.say_request();
    }

    /// Writes the request's line of the log, if the log is on. The line also contains what was stored.
    fn stored(&mut self, _address: u64, _bytes: &[u8]) {
        self.say_request();
    }

    /// Records the action, if there is a recorder. Writes nothing.
    fn noted(&mut self, action: Action) {
        if self.stopped.is_some() {
            return;
        }
        if self.kept.note(action).is_err() {
            self.stopped = Some(AnswerError::Memory);
        }
    }

    /// Writes the line that reports the new level, also if the log and events are off.
    fn line(&mut self, level: bool) {
        if self.stopped.is_none() {
            self.stopped = say(self.out, level_text(level)).err();
        }
    }
}
