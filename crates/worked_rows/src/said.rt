//! Replies, outcomes and fates as words, and rows of words that a network or a host plays.
//!
//! A word of a row names a call or a tick, with what follows `:` as its argument. `7*WORD` plays the word seven times.

use adapter::{Fate, Outcome};
use driver::Handled;
use stations::Numbered;
use std::alloc::Global;
use std::process::Abort;
use std::test::Fail;
use wire::{Answer, Reply};

/// A network, a host with its bus, or an adapter with its memory.
pub(crate) trait Player {
    /// Makes what the first column of a row names.
    fn named(alloc: Global, name: &str) -> Result<Self, Fail>;

    /// Plays a word, and returns what the calls and ticks of this word answered.
    fn word(&mut self, alloc: Global, name: &str, argument: &str) -> Result<String, Fail>;
}

/// Plays words in order, and returns all answers in one line.
fn play<P: Player>(alloc: Global, player: &mut P, words: &str) -> Result<String, Fail> {
    let mut line = String::new(alloc);
    for token in words.split_whitespace() {
        let (count, word) = token.split_once('*').unwrap_or(("1", token));
        let (name, argument) = word.split_once(':').unwrap_or((word, ""));
        for _ in 0..count.parse::<u16>().unwrap_or(0) {
            let said = player.word(alloc, name, argument)?;
            if !line.is_empty() && !said.is_empty() {
                line.push_str(" ")?;
            }
            line.push_str(said.as_str())?;
        }
    }
    Ok(line)
}

/// Plays a row, and checks its answers.
fn check_row<P: Player + Drop>(rt: &impl Abort, alloc: Global, row: &str) -> Result<P, Fail> {
    let (name, rest) = row.split_once(" | ").unwrap_or((row, ""));
    let (before, rest) = rest.split_once("| ").unwrap_or((rest, ""));
    let (words, wanted) = rest.split_once(" | ").unwrap_or((rest, ""));
    let mut player = P::named(alloc, name)?;
    play(alloc, &mut player, before)?;
    let said = play(alloc, &mut player, words)?;
    assert!(rt;
        !wanted.is_empty() && said.as_str() == wanted,
        "{row}\n{said}"
    );
    Ok(player)
}

/// Plays rows, each with a new player, and checks all answers. A row has four columns: what is made, words whose
/// answers aren't checked, words, and their answers. A line that begins with `#` is a comment.
pub(crate) fn check_rows<P: Player + Drop>(
    rt: &impl Abort,
    alloc: Global,
    rows: &str,
    count: u32,
) -> Result<(), Fail> {
    let mut checked = 0u32;
    for row in rows.split('\n') {
        if !row.starts_with("#") {
            check_row::<P>(rt, alloc, row)?;
            checked = checked.saturating_add(1);
        }
    }
    assert!(rt; checked == count, "{checked} rows");
    Ok(())
}

pub(crate) fn fate_word(fate: Fate) -> &'static str {
    match fate {
        Fate::Off => "off",
        Fate::Illegal => "illegal",
        Fate::Filtered => "filtered",
        Fate::Missed => "missed",
        Fate::Stored => "stored",
    }
}

pub(crate) fn outcome_word<F>(outcome: &Outcome<F>) -> &'static str {
    match outcome {
        Outcome::Took => "took",
        Outcome::Put(_) => "put",
        Outcome::WireFull => "full",
        Outcome::Part => "part",
        Outcome::Moved => "moved",
        Outcome::Done => "done",
        Outcome::Delivered(_, fate) => fate_word(*fate),
        Outcome::Ticked => "ticked",
        Outcome::Nothing => "nothing",
        Outcome::Fault => "fault",
    }
}

/// Returns a frame's length and its type.
pub(crate) fn frame_word(alloc: Global, frame: &[u8]) -> Result<String, Fail> {
    if frame.len() < 14 {
        return Ok("no frame".to_string(alloc)?);
    }
    Ok(format!(in alloc; "{}:{:02x}{:02x}", frame.len(), frame[12], frame[13])?)
}

pub(crate) fn handled_word(alloc: Global, handled: Handled) -> Result<String, Fail> {
    match handled {
        Handled::NotMine => Ok("not mine".to_string(alloc)?),
        Handled::Handled { taken } => Ok(format!(in alloc; "taken {taken}")?),
    }
}

fn answer_word(alloc: Global, reply: &Reply) -> Result<String, Fail> {
    match &reply.answer {
        Answer::Sent(Ok(())) => Ok("ok".to_string(alloc)?),
        Answer::Sent(Err(error)) => Ok(format!(in alloc; "{error}")?),
        Answer::Received(Ok(frame)) => frame_word(alloc, frame.as_slice()),
        Answer::Received(Err(error)) => Ok(format!(in alloc; "{error}")?),
        Answer::Interrupted(handled) => handled_word(alloc, *handled),
        Answer::Joined(Ok(())) => Ok("joined".to_string(alloc)?),
        Answer::Left(Ok(())) => Ok("left".to_string(alloc)?),
        Answer::Joined(Err(error)) | Answer::Left(Err(error)) => Ok(format!(in alloc; "{error}")?),
        Answer::Reset {
            sending,
            holding,
            on_after,
        } => Ok(format!(in alloc;
            "sending {} holding {} on after {on_after}",
            sending.len(),
            holding.len()
        )?),
        Answer::Ticked => Ok(String::new(alloc)),
        Answer::NoHost => Ok("no host".to_string(alloc)?),
    }
}

/// Returns the outcome of a tick, and in a call `@` and the number of accesses before the tick.
fn numbered_word(alloc: Global, one: &Numbered, is_call: bool) -> Result<String, Fail> {
    let word = outcome_word(&one.outcome);
    if is_call {
        return Ok(format!(in alloc; " {word}@{}", one.accesses)?);
    }
    Ok(word.to_string(alloc)?)
}

/// Returns the answer to an event, and the outcomes of its ticks. `@` and the number of accesses follow the answer to a
/// join, to a leave, and to a call without an access.
pub(crate) fn reply_words(alloc: Global, reply: &Reply) -> Result<String, Fail> {
    let mut line = answer_word(alloc, reply)?;
    let is_call = !line.is_empty();
    let is_counted = matches!(&reply.answer, Answer::Joined(_) | Answer::Left(_));
    if is_call && (is_counted || reply.accesses == 0) {
        line.push_str(format!(in alloc; "@{}", reply.accesses)?.as_str())?;
    }
    for one in reply.outcomes.as_slice() {
        line.push_str(numbered_word(alloc, one, is_call)?.as_str())?;
    }
    Ok(line)
}

/// Returns bytes as hexadecimal digits.
pub(crate) fn hex(alloc: Global, bytes: &[u8]) -> Result<String, Fail> {
    let mut text = String::new(alloc);
    for byte in bytes {
        text.push_str(format!(in alloc; "{byte:02x}")?.as_str())?;
    }
    Ok(text)
}
