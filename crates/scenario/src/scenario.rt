// Reads the text of a scenario, line by line.

ghost use Rattle.std.specs.Prelude.{◌≡◌, ◌∷◌, ◌<◌, ◌≤◌, IfErr, IfOk, IfSome, drop, length, position};
ghost use Rattle.std.specs.List.{position_or_len};
ghost use Rattle.std.specs.Str.Lines.{lines, strip_carriage_return};
ghost use Rattle.scenario.specs.Answers.{IsLineAnswer, IsScenarioRead, IsRefused};
ghost use Rattle.scenario.specs.SoFar.{nothing_read, so_far};
ghost use Rattle.scenario.specs.Words.{is_line_feed};

use crate::command::Scenario;
use crate::line::read_line;
use crate::refusal::{Refusal, Stop};
use network_plan::Plan;
use std::alloc::Global;

/// Returns the index of the first line feed, or `None` if there is no line feed.
fn first_line_feed(text: &[u8]) -> Option<usize>
    ensures place { result ≡ position is_line_feed text.now }
    ensures within { IfSome result (λ place. place < length text.now) }
{
    text.iter().position(|byte| *byte == b'\n')
}

/// Returns the number of bytes before the first line feed, or the number of all bytes if there is no line feed.
#[tactic(auto, using(crate::proofs::TextLines::feed_found, crate::proofs::TextLines::feed_missing))]
fn line_end(text: &[u8]) -> usize
    ensures end { result ≡ position_or_len is_line_feed text.now }
    ensures within { result ≤ length text.now }
{
    match first_line_feed(text) {
        Some(end) => end,
        None => text.len(),
    }
}

/// Returns a line without the carriage return at its end, if it has one.
fn without_return(line: &[u8]) -> &[u8]
    ensures { result.now ≡ strip_carriage_return line.now }
{
    let end = match line.last() {
        Some(b'\r') => line.len() - 1,
        _ => line.len(),
    };
    let (kept, _) = line.split_at(end);
    kept
}

/// Returns the first line of a text that isn't empty, without its line feed and a carriage return before the line feed.
/// Also returns the number of bytes up to and including the line feed. A text without a line feed is one line, and all
/// its bytes are returned, also a carriage return at the end.
fn first_line(text: &[u8]) -> (&[u8], usize)
    requires { 0 < length text.now }
    ensures first { lines text.now ≡ result.0.now ∷ lines (drop result.1 text.now) }
    ensures taken { 0 < result.1 }
    ensures within { result.1 ≤ length text.now }
{
    let end = line_end(text);
    // Without a line feed, `end` is the text's length.
    if end == text.len() {
        return (text, end);
    }
    let (line, _) = text.split_at(end);
    (without_return(line), end + 1)
}

/// Returns a scenario without hosts, commands and traces.
fn empty_scenario(alloc: Global) -> Scenario
    ensures { so_far result ≡ nothing_read }
{
    Scenario {
        plan: Plan {
            hosts: Vec::new(alloc),
        },
        commands: Vec::new(alloc),
        lines: Vec::new(alloc),
        traces: Vec::new(alloc),
    }
}

/// Reads the line with this number. If the line has a command, also stores the number for this command; the numbers for
/// earlier commands have been stored before. The contract states nothing about these numbers.
fn read_numbered(
    alloc: Global,
    scenario: &mut Scenario,
    bytes: &[u8],
    line: usize,
) -> Result<(), Stop>
    ensures { IsLineAnswer (so_far scenario.old) bytes.now result (so_far scenario.new) }
{
    read_line(alloc, scenario, bytes)?;
    if scenario.lines.len() < scenario.commands.len() {
        scenario.lines.push(line as u64)?;
    }
    Ok(())
}

impl Scenario {
    /// Reads the text of a scenario, up to its first faulty line. Skipped lines have numbers, too.
    ///
    /// # Errors
    ///
    /// [`Line`](Refusal::Line) for the first faulty line, with the first of its [faults](crate::Fault), or
    /// [`Memory`](Refusal::Memory) if memory was refused.
    pub fn read(alloc: Global, text: &[u8]) -> Result<Scenario, Refusal>
        ensures read { IfOk result (λ scenario. IsScenarioRead text.now (so_far scenario)) }
        ensures refused { IfErr result (IsRefused text.now) }
    {
        let mut scenario = empty_scenario(alloc);
        let mut start = 0;
        let mut line = 0;
        while start < text.len() {
            let (_, rest) = text.split_at(start);
            let (bytes, taken) = first_line(rest);
            line += 1;
            match read_numbered(alloc, &mut scenario, bytes, line) {
                Ok(()) => start += taken,
                Err(stop) => return Err(stop.at(line)),
            }
        }
        Ok(scenario)
    }
}
