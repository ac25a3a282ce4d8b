//! The lines of events and drains, and their parts.
ghost use Rattle.std.specs.Prelude.{◌≡◌, ◌++◌, ℕ, List, OnOk, codes, decimal, map, string_bytes};
ghost use Rattle.adapter.specs.Outcomes.{with_frame};
ghost use Rattle.network_plan.specs.Answers.{answer_with};
ghost use Rattle.run_record.specs.EventLines as lines;
ghost use Rattle.run_record.specs.EventTexts as texts;

use adapter::{Fate, Outcome, StepKind};
use driver::{GroupError, Handled};
use itoa::Buffer;
use std::alloc::AllocError;
use wire::{Answer, Event, Tick};

/// Where an event or a drain is in the run and in the scenario.
#[derive(Clone, Copy)]
pub(crate) struct Place {
    /// The number of the event or drain, from 0; it saturates at the greatest `u64`.
    pub(crate) number: u64,
    /// The number of its line in the scenario, from 1; 0 if no line is known.
    pub(crate) line: u64,
}

/// Appends a label and a number.
pub(crate) fn push_number(text: &mut Vec<u8>, label: &[u8], number: u64) -> Result<(), AllocError>
    ensures { OnOk result (text.new.items ≡ text.old.items ++ (label.now ++ decimal number)) }
{
    let mut buffer = Buffer::new();
    text.extend_from_slice(label)?;
    text.extend_from_slice(buffer.format(number).as_bytes())
}

/// Appends a label and the name of a host. The name of a host that doesn't exist is empty.
fn push_host(
    text: &mut Vec<u8>,
    label: &[u8],
    names: &[String],
    host: usize,
) -> Result<(), AllocError>
    ensures { OnOk result
        (text.new.items ≡ text.old.items ++ (label.now ++ texts.name_at (map string_bytes names.now) host)) }
{
    text.extend_from_slice(label)?;
    match names.get(host) {
        Some(name) => text.extend_from_slice(name.as_bytes()),
        None => Ok(()),
    }
}

/// Appends a label, the name of a host, a second label and a number.
fn push_counted(
    text: &mut Vec<u8>,
    label: &[u8],
    names: &[String],
    host: usize,
    number_label: &[u8],
    number: u64,
) -> Result<(), AllocError>
    ensures { OnOk result (text.new.items ≡ text.old.items
        ++ (label.now ++ texts.name_at (map string_bytes names.now) host) ++ texts.numbered number_label.now number) }
{
    push_host(text, label, names, host)?;
    push_number(text, number_label, number)
}

/// Returns a blank, the word for a step as scenarios spell it, and a colon.
fn step_word(kind: StepKind) -> &'static [u8]
    ensures { result.now ≡ texts.step_word kind }
{
    match kind {
        StepKind::TxTake => b" txtake:",
        StepKind::TxPut => b" txput:",
        StepKind::RxData => b" rxdata:",
        StepKind::RxDone => b" rxdone:",
        StepKind::EepromTick => b" eeprom:",
        StepKind::PhyTick => b" phy:",
    }
}

/// Appends a blank, and a tick as scenarios spell it. The name of a host that doesn't exist is empty.
fn push_tick(text: &mut Vec<u8>, names: &[String], tick: Tick) -> Result<(), AllocError>
    ensures { OnOk result
        (text.new.items ≡ text.old.items ++ texts.tick_text (map string_bytes names.now) tick) }
{
    match tick {
        Tick::Go => text.extend_from_slice(b" go"),
        Tick::Step(host, kind) => push_host(text, step_word(kind), names, host),
        Tick::Deliver(host) => push_host(text, b" deliver:", names, host),
    }
}

/// Returns a blank and the word for an outcome. For a delivery, this is the word for the fate of its frame.
fn outcome_word(outcome: &Outcome<()>) -> &'static [u8]
    ensures { (frame : List ℕ) → result.now ≡ texts.outcome_field (with_frame frame outcome.now) }
{
    match outcome {
        Outcome::Took => b" took",
        Outcome::Put(_) => b" put",
        Outcome::WireFull => b" wirefull",
        Outcome::Part => b" part",
        Outcome::Moved => b" moved",
        Outcome::Done => b" done",
        Outcome::Delivered(_, Fate::Off) => b" off",
        Outcome::Delivered(_, Fate::Illegal) => b" illegal",
        Outcome::Delivered(_, Fate::Filtered) => b" filtered",
        Outcome::Delivered(_, Fate::Missed) => b" missed",
        Outcome::Delivered(_, Fate::Stored) => b" stored",
        Outcome::Ticked => b" ticked",
        Outcome::Nothing => b" nothing",
        Outcome::Fault => b" fault",
    }
}

/// Appends ` @N TICK OUTCOME`: the number N of accesses before a tick, the tick, and its outcome. If the outcome has a
/// frame, the frame's size in bytes follows.
#[inline(never)]
pub(crate) fn push_told(
    text: &mut Vec<u8>,
    names: &[String],
    tick: Tick,
    accesses: u64,
    outcome: &Outcome<()>,
    frame: &[u8],
) -> Result<(), AllocError>
    ensures { OnOk result (text.new.items ≡ text.old.items
        ++ texts.tick_line_text (map string_bytes names.now) tick accesses (with_frame frame.now outcome.now)) }
{
    push_number(text, b" @", accesses)?;
    push_tick(text, names, tick)?;
    text.extend_from_slice(outcome_word(outcome))?;
    match outcome {
        Outcome::Put(_) | Outcome::Delivered(_, _) => push_number(text, b" ", frame.len() as u64),
        _ => Ok(()),
    }
}

/// Appends an event as scenarios spell it, but without the address of a group and without ticks. The size of a frame
/// in bytes replaces its bytes. For an event that is a tick, appends only the word `tick`.
pub(crate) fn push_event(
    text: &mut Vec<u8>,
    names: &[String],
    event: &Event<'_>,
) -> Result<(), AllocError>
    ensures { OnOk result
        (text.new.items ≡ text.old.items ++ texts.event_text (map string_bytes names.now) event.now) }
{
    match event {
        Event::Send { host, frame, .. } => {
            push_counted(text, b" send ", names, *host, b" ", frame.len() as u64)
        }
        Event::Recv { host, socket, .. } => {
            push_counted(text, b" recv ", names, *host, b" ", *socket as u64)
        }
        Event::Interrupt { host, .. } => push_host(text, b" interrupt ", names, *host),
        Event::Reset { host, .. } => push_host(text, b" reset ", names, *host),
        Event::Join { host, .. } => push_host(text, b" join ", names, *host),
        Event::Leave { host, .. } => push_host(text, b" leave ", names, *host),
        Event::Tick(_) => text.extend_from_slice(b" tick"),
    }
}

/// Returns the words for the result of a join or a leave.
fn group_word(changed: Result<(), GroupError>) -> &'static str
    ensures { result.now ≡ texts.group_word changed }
{
    match changed {
        Ok(()) => "ok",
        Err(error) => error.text(),
    }
}

/// Appends a blank and these words.
fn push_words(text: &mut Vec<u8>, words: &str) -> Result<(), AllocError>
    ensures { OnOk result (text.new.items ≡ text.old.items ++ (codes " " ++ words.now)) }
{
    text.extend_from_slice(b" ")?;
    text.extend_from_slice(words.as_bytes())
}

/// Appends a blank and the words for an answer, without numbers. Appends nothing for `Ticked`, the answer to an event
/// that is a tick.
fn push_answer_word(text: &mut Vec<u8>, answer: &Answer<()>) -> Result<(), AllocError>
    ensures { (frame : List ℕ) → OnOk result
        (text.new.items ≡ text.old.items ++ texts.answer_word (answer_with frame answer.now)) }
{
    let words = match answer {
        Answer::Sent(Ok(())) | Answer::Received(Ok(())) => "ok",
        Answer::Sent(Err(error)) => error.text(),
        Answer::Received(Err(error)) => error.text(),
        Answer::Interrupted(Handled::NotMine) => "notmine",
        Answer::Interrupted(Handled::Handled { .. }) => "handled",
        Answer::Joined(changed) | Answer::Left(changed) => group_word(*changed),
        Answer::Reset { .. } => "givenup",
        Answer::Ticked => return Ok(()),
        Answer::NoHost => "nohost",
    };
    push_words(text, words)
}

/// Appends the answer to an event, and its numbers. For a recv, this is the size in bytes of `frame`, which the socket
/// returned. For an interrupt, this is the number of frames taken. For a reset, these are `SENDING HOLDING on N`: the
/// numbers of frames to be sent and of held frames that the reset gave up, and the number of its accesses up to and
/// including the one that enabled the receiver again. Other answers have no numbers. Appends nothing for `Ticked`, the
/// answer to an event that is a tick.
pub(crate) fn push_answer(
    text: &mut Vec<u8>,
    answer: &Answer<()>,
    frame: &[u8],
) -> Result<(), AllocError>
    ensures { OnOk result
        (text.new.items ≡ text.old.items ++ texts.answer_text (answer_with frame.now answer.now)) }
{
    push_answer_word(text, answer)?;
    match answer {
        Answer::Received(Ok(())) => push_number(text, b" ", frame.len() as u64),
        Answer::Interrupted(Handled::Handled { taken }) => push_number(text, b" ", *taken),
        Answer::Reset {
            sending,
            holding,
            on_after,
        } => {
            push_number(text, b" ", sending.len() as u64)?;
            push_number(text, b" ", holding.len() as u64)?;
            push_number(text, b" on ", *on_after)
        }
        _ => Ok(()),
    }
}

/// Appends `EVENT line LINE`: the number of an event or a drain, and the number of its line in the scenario.
pub(crate) fn push_place(text: &mut Vec<u8>, place: Place) -> Result<(), AllocError>
    ensures { OnOk result (text.new.items ≡ text.old.items ++ lines.place_text place) }
{
    push_number(text, b"", place.number)?;
    push_number(text, b" line ", place.line)
}

/// Appends the line of the drain at this place: `EVENT line LINE drain HOST ok N`, and a line feed. N is `count`, the
/// number of frames that the host returned.
pub(crate) fn push_drain(
    text: &mut Vec<u8>,
    names: &[String],
    place: Place,
    host: usize,
    count: usize,
) -> Result<(), AllocError>
    ensures { OnOk result (text.new.items ≡ text.old.items
        ++ lines.drain_line (map string_bytes names.now) place host count) }
{
    push_place(text, place)?;
    push_counted(text, b" drain ", names, host, b" ok ", count as u64)?;
    text.extend_from_slice(b"\n")
}
