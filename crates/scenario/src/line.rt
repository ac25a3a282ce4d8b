// Reads one line.

ghost use Rattle.std.specs.Prelude.{◌≡◌};
ghost use Rattle.scenario.specs.Answers.{IsAnswerToLine, IsLineAnswer, IsWordsAnswer, is_skipped};
ghost use Rattle.scenario.specs.SoFar.{so_far};
ghost use Rattle.scenario.specs.Words.{texts};

use crate::command::Scenario;
use crate::event_line::{read_auto, read_call, read_drain, read_feed, read_tick};
use crate::line_kind::{LineKind, kind_of};
use crate::refusal::{Fault, Stop};
use crate::setup_line::{read_host, read_item};
use std::alloc::Global;
use std::str;
use text::{word_at, words_in};

/// The maximum number of bytes of a line (our choice).
const MOST_LINE_BYTES: usize = 8192;

/// Reads the words of a line of this kind, and adds the line's host, item or command to the scenario.
///
/// # Errors
///
/// The first fault of the line, or [`Memory`](Stop::Memory) if memory is refused. Then the scenario may have changed.
fn read_kind(
    alloc: Global,
    scenario: &mut Scenario,
    kind: LineKind,
    words: &[&str],
) -> Result<(), Stop>
    ensures { IsAnswerToLine kind (so_far scenario.old) (texts words.now) result (so_far scenario.new) }
{
    match kind {
        LineKind::Host => read_host(alloc, scenario, words),
        LineKind::Item(kind) => read_item(scenario, kind, words),
        LineKind::Call(kind) => read_call(alloc, scenario, kind, words),
        LineKind::Tick => read_tick(scenario, words),
        LineKind::Feed => read_feed(alloc, scenario, words),
        LineKind::Auto => read_auto(scenario, words),
        LineKind::Drain => read_drain(scenario, words),
    }
}

/// Returns whether the line of these words is skipped: it has no word, or its first word begins with `#`.
fn is_skipped(words: &[&str]) -> bool
    ensures { result ≡ is_skipped (texts words.now) }
{
    match words.first() {
        Some(first) => first.starts_with('#'),
        None => true,
    }
}

/// Reads the words of a line, unless the line is skipped. Fails with [`Word`](Fault::Word) if the first word names no
/// kind of line; the other errors are those of `read_kind`.
fn read_words(alloc: Global, scenario: &mut Scenario, words: &[&str]) -> Result<(), Stop>
    ensures { IsWordsAnswer (so_far scenario.old) (texts words.now) result (so_far scenario.new) }
{
    if is_skipped(words) {
        return Ok(());
    }
    match kind_of(word_at(words, 0)) {
        Some(kind) => read_kind(alloc, scenario, kind, words),
        None => Err(Stop::Fault(Fault::Word)),
    }
}

/// Reads a line, and adds its host, item or command to the scenario. A skipped line adds nothing.
///
/// # Errors
///
/// The first fault of the line, or [`Memory`](Stop::Memory) if memory is refused. Then the scenario may have changed. A
/// skipped line can have only the faults [`Long`](Fault::Long) and [`Text`](Fault::Text).
pub(crate) fn read_line(alloc: Global, scenario: &mut Scenario, line: &[u8]) -> Result<(), Stop>
    ensures { IsLineAnswer (so_far scenario.old) line.now result (so_far scenario.new) }
{
    if line.len() > MOST_LINE_BYTES {
        return Err(Stop::Fault(Fault::Long));
    }
    let Ok(line) = str::from_utf8(line) else {
        return Err(Stop::Fault(Fault::Text));
    };
    let words = words_in(alloc, line)?;
    read_words(alloc, scenario, words.as_slice())
}
