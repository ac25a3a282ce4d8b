// The lines that a server writes.

ghost use Rattle.std.specs.Prelude.{◌≡◌, ◌++◌, ◌-◌, [], IfOk, OnOk, flat_map, length};
ghost use Rattle.server_output.specs.Texts as texts;

use access_names::{Engine, EngineFault, Reason};
use adapter::{Fate, Outcome, StepKind};
use itoa::Buffer;
use played_adapter::Frames;
use std::alloc::{AllocError, Global};

/// Returns the word of a kind of step.
pub(crate) fn kind_word(kind: StepKind) -> &'static [u8]
    ensures { result.now ≡ texts.kind_word kind }
{
    match kind {
        StepKind::TxTake => b"txtake",
        StepKind::TxPut => b"txput",
        StepKind::RxData => b"rxdata",
        StepKind::RxDone => b"rxdone",
        StepKind::EepromTick => b"eeprom",
        StepKind::PhyTick => b"phy",
    }
}

/// Returns the word of the outcome of a step. `delivered` is never written, because no step delivers a frame.
pub fn outcome_word(outcome: Outcome<()>) -> &'static [u8]
    ensures { result.now ≡ texts.outcome_word outcome }
{
    match outcome {
        Outcome::Took => b"took",
        Outcome::Put(()) => b"put",
        Outcome::WireFull => b"wirefull",
        Outcome::Part => b"part",
        Outcome::Moved => b"moved",
        Outcome::Done => b"done",
        Outcome::Delivered((), _) => b"delivered",
        Outcome::Ticked => b"ticked",
        Outcome::Nothing => b"nothing",
        Outcome::Fault => b"fault",
    }
}

/// Returns the word of the fate of a frame that arrived.
pub fn fate_word(fate: Fate) -> &'static [u8]
    ensures { result.now ≡ texts.fate_word fate }
{
    match fate {
        Fate::Off => b"off",
        Fate::Illegal => b"illegal",
        Fate::Filtered => b"filtered",
        Fate::Missed => b"missed",
        Fate::Stored => b"stored",
    }
}

/// Appends parts of a text, in order.
pub(crate) fn push_parts(text: &mut Vec<u8>, parts: &[&[u8]]) -> Result<(), AllocError>
    ensures { OnOk result (text.new.items ≡ text.old.items ++ texts.joined_parts parts.now) }
{
    for part in parts {
        text.extend_from_slice(part)?;
    }
    Ok(())
}

/// Returns the parts of a text, joined. Fails only if memory was refused.
pub fn joined(alloc: Global, parts: &[&[u8]]) -> Result<Vec<u8>, AllocError>
    ensures { IfOk result (λ text. text.items ≡ texts.joined_parts parts.now) }
{
    // The length of the text, for one allocation. A sum above `usize::MAX` becomes this maximum, which is refused.
    let mut length: usize = 0;
    for part in parts {
        length = length.saturating_add(part.len());
    }
    let mut text = Vec::with_capacity(alloc, length)?;
    push_parts(&mut text, parts)?;
    Ok(text)
}

/// If the log is on, appends the line of the log with the parts `said`: `# `, the parts, and a line feed. Otherwise
/// appends nothing.
pub(crate) fn push_said(text: &mut Vec<u8>, log: bool, said: &[&[u8]]) -> Result<(), AllocError>
    ensures { OnOk result (text.new.items ≡ text.old.items ++ texts.said_log log (texts.joined_parts said.now)) }
{
    if !log {
        return Ok(());
    }
    text.extend_from_slice(b"# ")?;
    push_parts(text, said)?;
    text.extend_from_slice(b"\n")
}

/// Returns what `restore` prints: a line with the new level of the interrupt line, if the level has changed, and then
/// the line `OK`. `level` is the new level, or `None` if the level is the same as before.
pub fn restored_text(level: Option<bool>) -> &'static [u8]
    ensures { result.now ≡ texts.line_told level ++ texts.ok_line }
{
    match level {
        Some(true) => b"IRQ raise 0\nOK\n",
        Some(false) => b"IRQ lower 0\nOK\n",
        None => b"OK\n",
    }
}

/// Returns the line of an answer with a number, in 16 hexadecimal digits. Allocates nothing. The 16 digits are after
/// the 5 bytes `OK 0x`, so the `unwrap` can't fail.
#[tactic(auto, unfolding(crate::specs::Texts::bytes_line, crate::specs::Texts::number_line))]
pub(crate) fn number_line(number: u64) -> [u8; 22]
    ensures { result ≡ texts.number_line number }
{
    let mut line = *b"OK 0x0000000000000000\n";
    hex::encode_to_slice(number.to_be_bytes(), &mut line[5..21]).unwrap();
    line
}

/// Removes the oldest frame, if there is one, and appends the word of this frame. If memory is refused, the frame is
/// lost.
fn push_frame(alloc: Global, text: &mut Vec<u8>, frames: &mut Frames) -> Result<(), AllocError>
    // The text, followed by the words of the frames that are left, is the same before and after the call.
    ensures same { OnOk result (text.new.items ++ flat_map texts.frame_word frames.new
        ≡ text.old.items ++ flat_map texts.frame_word frames.old) }
    ensures few { OnOk result (length frames.new ≡ length frames.old - 1) }
{
    let Some(frame) = frames.pop() else {
        return Ok(());
    };
    let digits = hex::encode(alloc, frame.as_slice())?;
    push_parts(text, &[b" 0x", digits.as_bytes()])
}

/// Returns the line of an answer with frames, the oldest first, and removes the frames. If memory is refused, some or
/// all frames may be lost.
pub(crate) fn frames_line(alloc: Global, frames: &mut Frames) -> Result<Vec<u8>, AllocError>
    ensures text { IfOk result (λ text. text.items ≡ texts.frames_line frames.old) }
    ensures none { OnOk result (frames.new ≡ []) }
{
    let mut text = Vec::from_slice(alloc, b"OK")?;
    let count = frames.len();
    for _frame in 0..count {
        push_frame(alloc, &mut text, frames)?;
    }
    text.extend_from_slice(b"\n")?;
    Ok(text)
}

/// Returns the word of an engine.
fn engine_word(engine: Engine) -> &'static [u8]
    ensures { result.now ≡ texts.engine_word engine }
{
    match engine {
        Engine::Transmit => b"tx",
        Engine::Receive => b"rx",
    }
}

/// Returns the word of the reason of a fault.
fn reason_word(reason: Reason) -> &'static [u8]
    ensures { result.now ≡ texts.reason_word reason }
{
    match reason {
        Reason::Ring => b"ring",
        Reason::Descriptor => b"descriptor",
        Reason::Dext => b"dext",
        Reason::Eop => b"eop",
        Reason::Length => b"length",
        Reason::Buffer => b"buffer",
        Reason::Bsex => b"bsex",
    }
}

/// Appends the words of a fault, each after a space: its engine, the head of the engine's ring, and its reason.
pub(crate) fn push_fault(text: &mut Vec<u8>, fault: EngineFault) -> Result<(), AllocError>
    ensures { OnOk result (text.new.items ≡ text.old.items ++ texts.fault_words fault) }
{
    let mut digits = Buffer::new();
    let (engine, reason) = (engine_word(fault.engine), reason_word(fault.reason));
    let index = digits.format(fault.index).as_bytes();
    push_parts(text, &[b" ", engine, b" ", index, b" ", reason])
}

/// Appends the line of a fault.
pub(crate) fn push_fault_line(text: &mut Vec<u8>, fault: EngineFault) -> Result<(), AllocError>
    ensures { OnOk result (text.new.items ≡ text.old.items ++ texts.fault_line fault) }
{
    text.extend_from_slice(b"fault")?;
    push_fault(text, fault)?;
    text.extend_from_slice(b"\n")
}
