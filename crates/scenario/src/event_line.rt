// Reads the lines of commands. Each `read_` function appends the line's command to the scenario. Otherwise it returns
// `Memory`, or the first of the faults `Count`, `Value` and `Name`; then the scenario may have changed. Words are
// numbered from 0, and word 0 names the kind of the line.

ghost use Rattle.std.specs.Prelude.{◌≡◌, IfErr, IfOk, OnOk, length, true};
ghost use Rattle.std.specs.Option.{SomeIff};
ghost use Rattle.std.specs.Str.Parse.{digits_value};
ghost use Rattle.scenario.specs.Answers.{AreTicks, IsAnswerToLine, IsCall, IsFaultyCall};
ghost use Rattle.scenario.specs.Meanings as meanings;
ghost use Rattle.scenario.specs.SoFar.{hosts_of, said_of, so_far};
ghost use Rattle.scenario.specs.Stops.{IfFault};
ghost use Rattle.scenario.specs.Words.{texts};
ghost use Rattle.scenario.specs.declared.line_kind.LineKind.TheVariants as line;
ghost use Rattle.scenario.specs.declared.refusal.Fault.TheVariants as faults;
ghost use Rattle.scenario.specs.declared.refusal.Stop.TheVariants as stops;

use crate::call::Call;
use crate::command::{Command, Scenario};
use crate::line_kind::CallKind;
use crate::refusal::{Fault, Stop};
use crate::spelling::{address_of, frame_of, number_of};
use crate::tick_word::{host_named, is_tick, tick_of};
use network_plan::HostPlan;
use stations::Tick;
use std::alloc::Global;
use text::{split_at_word, word_at};

/// The maximum number of events that an `auto` line draws (our choice).
const MOST_EVENTS: u64 = 1_000_000;

/// The word between the words of a call and the words of its ticks.
const SLASH: &str = "/";

/// Returns whether each word spells a tick. Whether the hosts of these ticks exist isn't tested.
fn are_ticks(words: &[&str]) -> bool
    ensures { result ≡ meanings.are_ticks (texts words.now) }
{
    words.iter().all(|word| is_tick(word))
}

/// Returns the ticks that words spell.
///
/// # Errors
///
/// [`Name`](Fault::Name) if a word spells neither `go` nor a tick at a known host, or [`Memory`](Stop::Memory) if
/// memory is refused.
fn ticks_of(alloc: Global, hosts: &[HostPlan], words: &[&str]) -> Result<Vec<Tick>, Stop>
    ensures ok { IfOk result (λ ticks. AreTicks (hosts_of hosts.now) (texts words.now) ticks.items) }
    ensures err { IfErr result (λ stop. IfFault stop (λ fault.
        (fault ≡ faults.Name) × (¬ (meanings.are_ticks_of (hosts_of hosts.now) (texts words.now) ≡ true)))) }
{
    let mut ticks = Vec::new(alloc);
    for word in words {
        let Some(tick) = tick_of(hosts, word) else {
            return Err(Stop::Fault(Fault::Name));
        };
        ticks.push(tick)?;
    }
    Ok(ticks)
}

/// Returns the number of the host with this name, and the ticks that the words `ticks` spell. These are the host of a
/// call, and the ticks that are played during the call.
///
/// # Errors
///
/// [`Value`](Fault::Value) if a word of `ticks` doesn't spell a tick, else [`Name`](Fault::Name) if the host `name` or
/// the host of a tick isn't known. Or [`Memory`](Stop::Memory) if memory is refused.
fn host_and_ticks_of(
    alloc: Global,
    hosts: &[HostPlan],
    name: &str,
    ticks: &[&str],
) -> Result<(usize, Vec<Tick>), Stop>
    ensures ok { IfOk result (λ call. IsCall (hosts_of hosts.now) name.now (texts ticks.now) (call.0, call.1.items)) }
    ensures err { IfErr result (λ stop. IfFault stop (IsFaultyCall (hosts_of hosts.now) name.now (texts ticks.now))) }
{
    if !are_ticks(ticks) {
        return Err(Stop::Fault(Fault::Value));
    }
    let Some(host) = host_named(hosts, name) else {
        return Err(Stop::Fault(Fault::Name));
    };
    let ticks = ticks_of(alloc, hosts, ticks)?;
    Ok((host, ticks))
}

/// Appends a command to the scenario's commands. Fails only if memory is refused.
fn push_command(scenario: &mut Scenario, command: Command) -> Result<(), Stop>
    ensures said { OnOk result (so_far scenario.new ≡ meanings.with_command (said_of command) (so_far scenario.old)) }
    ensures memory { IfErr result (λ stopped. stopped ≡ stops.Memory) }
{
    scenario.commands.push(command)?;
    Ok(())
}

/// Returns the number of words of a line with a call of this kind, without the slash and the ticks. The first two words
/// are the name of the call and the host.
fn size_of_call(kind: CallKind) -> usize
    ensures { result ≡ meanings.size_of_call kind }
{
    match kind {
        CallKind::Interrupt | CallKind::Reset => 2,
        CallKind::Send | CallKind::Recv | CallKind::Join | CallKind::Leave => 3,
    }
}

/// Returns the call of this kind that the words `call` spell: the words of a line, without the slash and the ticks. The
/// number of these words must be that of [`size_of_call`]. A [`Call`] doesn't contain its host, so the host's name
/// isn't read.
///
/// # Errors
///
/// [`Value`](Fault::Value) if a word doesn't have the form for its place, or [`Memory`](Stop::Memory) if memory is
/// refused.
fn asked_of(alloc: Global, kind: CallKind, call: &[&str]) -> Result<Call, Stop>
    requires { length call.now ≡ meanings.size_of_call kind }
    ensures ok { IfOk result (meanings.IsAsked kind (texts call.now)) }
    ensures err { IfErr result (λ stop. IfFault stop (λ fault.
        (fault ≡ faults.Value) × (¬ meanings.CanAsk kind (texts call.now)))) }
{
    match kind {
        CallKind::Send => match frame_of(alloc, word_at(call, 2)) {
            Ok(frame) => Ok(Call::Send(frame)),
            Err(stop) => Err(stop),
        },
        CallKind::Recv => match number_of(word_at(call, 2)) {
            // `usize` has the size of `u64`, so the cast doesn't change `socket`.
            Some(socket) => Ok(Call::Recv(socket as usize)),
            None => Err(Stop::Fault(Fault::Value)),
        },
        CallKind::Interrupt => Ok(Call::Interrupt),
        CallKind::Reset => Ok(Call::Reset),
        CallKind::Join => match address_of(word_at(call, 2)) {
            Some(group) => Ok(Call::Join(group)),
            None => Err(Stop::Fault(Fault::Value)),
        },
        CallKind::Leave => match address_of(word_at(call, 2)) {
            Some(group) => Ok(Call::Leave(group)),
            None => Err(Stop::Fault(Fault::Value)),
        },
    }
}

/// Reads a line of a call: `send HOST HEX`, `recv HOST S`, `interrupt HOST`, `reset HOST`, `join HOST ADDRESS` or
/// `leave HOST ADDRESS`. A word `/` and the words of the call's ticks may follow. Appends the call as a command.
pub(crate) fn read_call(
    alloc: Global,
    scenario: &mut Scenario,
    kind: CallKind,
    words: &[&str],
) -> Result<(), Stop>
    ensures { IsAnswerToLine (line.Call kind) (so_far scenario.old) (texts words.now) result (so_far scenario.new) }
{
    let (words, ticks) = split_at_word(words, SLASH);
    if words.len() != size_of_call(kind) {
        return Err(Stop::Fault(Fault::Count));
    }
    let call = asked_of(alloc, kind, words)?;
    let (host, ticks) = host_and_ticks_of(alloc, scenario.hosts(), word_at(words, 1), ticks)?;
    push_command(scenario, Command::Call { host, call, ticks })
}

/// Reads a line `tick TICK`, and appends the tick as a command.
pub(crate) fn read_tick(scenario: &mut Scenario, words: &[&str]) -> Result<(), Stop>
    ensures { IsAnswerToLine line.Tick (so_far scenario.old) (texts words.now) result (so_far scenario.new) }
{
    if words.len() != 2 {
        return Err(Stop::Fault(Fault::Count));
    }
    let word = word_at(words, 1);
    if !is_tick(word) {
        return Err(Stop::Fault(Fault::Value));
    }
    let Some(tick) = tick_of(scenario.hosts(), word) else {
        return Err(Stop::Fault(Fault::Name));
    };
    push_command(scenario, Command::Tick(tick))
}

/// Reads a line `feed HOST FILE`. Appends FILE to the names of traces, and a command that feeds this trace.
pub(crate) fn read_feed(alloc: Global, scenario: &mut Scenario, words: &[&str]) -> Result<(), Stop>
    ensures { IsAnswerToLine line.Feed (so_far scenario.old) (texts words.now) result (so_far scenario.new) }
{
    if words.len() != 3 {
        return Err(Stop::Fault(Fault::Count));
    }
    let Some(host) = scenario.host_named(word_at(words, 1)) else {
        return Err(Stop::Fault(Fault::Name));
    };
    let name = String::from_str(alloc, word_at(words, 2))?;
    let trace = scenario.traces.len();
    scenario.traces.push(name)?;
    push_command(scenario, Command::Feed { host, trace })
}

/// Returns the number of events that a word asks to draw, if the word is a decimal number of at most 1,000,000;
/// otherwise `None`.
fn count_of(text: &str) -> Option<u32>
    ensures { SomeIff result (meanings.is_count text.now ≡ true) (digits_value 10 text.now) }
{
    let count = number_of(text)?;
    if count > MOST_EVENTS {
        return None;
    }
    // `count` is at most 1,000,000, so the cast doesn't change it.
    Some(count as u32)
}

/// Reads a line `auto COUNT START`, and appends a command that draws COUNT events with the seed START.
pub(crate) fn read_auto(scenario: &mut Scenario, words: &[&str]) -> Result<(), Stop>
    ensures { IsAnswerToLine line.Auto (so_far scenario.old) (texts words.now) result (so_far scenario.new) }
{
    if words.len() != 3 {
        return Err(Stop::Fault(Fault::Count));
    }
    let Some(count) = count_of(word_at(words, 1)) else {
        return Err(Stop::Fault(Fault::Value));
    };
    let Some(start) = number_of(word_at(words, 2)) else {
        return Err(Stop::Fault(Fault::Value));
    };
    push_command(scenario, Command::Auto { count, start })
}

/// Reads a line `drain HOST`, and appends a command that drains the host.
pub(crate) fn read_drain(scenario: &mut Scenario, words: &[&str]) -> Result<(), Stop>
    ensures { IsAnswerToLine line.Drain (so_far scenario.old) (texts words.now) result (so_far scenario.new) }
{
    if words.len() != 2 {
        return Err(Stop::Fault(Fault::Count));
    }
    let Some(host) = scenario.host_named(word_at(words, 1)) else {
        return Err(Stop::Fault(Fault::Name));
    };
    push_command(scenario, Command::Drain { host })
}
