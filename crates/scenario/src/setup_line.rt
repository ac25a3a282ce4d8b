// Reads the lines that set up hosts, and their groups, VLANs and sockets. Each `read_` function adds the line's host or
// item to the scenario. Otherwise it returns `Memory`, or the first of the faults `Count`, `Value`, `Name` and `Order`;
// then the scenario may have changed. Words are numbered from 0, and word 0 names the kind of the line.

ghost use Rattle.std.specs.Prelude.{◌≡◌, ◌≤◌, IfErr, IfOk, length};
ghost use Rattle.std.specs.Option.{SomeIff};
ghost use Rattle.scenario.specs.Answers.{IsAnswerToLine, IsFaulty, IsHostRead};
ghost use Rattle.scenario.specs.HostOptions.{uses_in};
ghost use Rattle.scenario.specs.Meanings.{IsItem, item_in, option_words};
ghost use Rattle.scenario.specs.SoFar.{so_far};
ghost use Rattle.scenario.specs.Stops.{IfFault};
ghost use Rattle.scenario.specs.Words.{texts};
ghost use Rattle.scenario.specs.declared.line_kind.LineKind.TheVariants as line;

use crate::command::Scenario;
use crate::host_change::{Item, add_host, add_item};
use crate::host_use::{
    HostOptions, HostUse, have_right_forms, have_values_once, options_of, uses_of,
};
use crate::line_kind::ItemKind;
use crate::refusal::{Fault, Stop};
use crate::spelling::{address_of, number16_of, socket_of};
use std::alloc::Global;
use text::word_at;

/// The number of words before the options of a `host` line.
const HOST_WORDS: usize = 4;

/// The number of words of a `group`, a `vlan` and a `socket` line.
const ITEM_WORDS: usize = 3;

/// Returns the words of a `host` line after the first four: the words of its options. The line must have at least four
/// words.
fn option_words<'a, 'b>(words: &'b [&'a str]) -> &'b [&'a str]
    requires { HOST_WORDS ≤ length words.now }
    ensures { texts result.now ≡ option_words (texts words.entry.now) }
{
    let (_, options) = words.split_at(HOST_WORDS);
    options
}

/// Returns the address and the options of a `host` line with at least four words. `uses` must be the uses of options
/// that the words after the first four spell. Checks that no host has the name of the new host, and that no command
/// comes before this line.
///
/// # Errors
///
/// The first fault of the line.
fn values_in(
    scenario: &Scenario,
    words: &[&str],
    uses: &[HostUse],
) -> Result<([u8; 6], HostOptions), Fault>
    requires least { HOST_WORDS ≤ length words.now }
    requires uses { uses.now ≡ uses_in (option_words (texts words.now)) }
    ensures ok { IfOk result (λ read. IsHostRead (so_far scenario.now) (texts words.now) (read.0, read.1)) }
    ensures err { IfErr result (IsFaulty line.Host (so_far scenario.now) (texts words.now)) }
{
    if !have_values_once(uses) {
        return Err(Fault::Count);
    }
    if !have_right_forms(uses) {
        return Err(Fault::Value);
    }
    let Some(address) = address_of(word_at(words, 2)) else {
        return Err(Fault::Value);
    };
    if scenario.host_named(word_at(words, 1)).is_some() {
        return Err(Fault::Name);
    }
    if !scenario.commands.is_empty() {
        return Err(Fault::Order);
    }
    Ok((address, options_of(uses)))
}

/// Returns the address and the options of a `host` line. Checks that no host has the name of the new host, and that no
/// command comes before this line.
///
/// # Errors
///
/// The first fault of the line, or [`Memory`](Stop::Memory) if memory is refused.
fn host_values(
    alloc: Global,
    scenario: &Scenario,
    words: &[&str],
) -> Result<([u8; 6], HostOptions), Stop>
    ensures ok { IfOk result (λ read. IsHostRead (so_far scenario.now) (texts words.now) (read.0, read.1)) }
    ensures err { IfErr result (λ stop. IfFault stop (IsFaulty line.Host (so_far scenario.now) (texts words.now))) }
{
    if words.len() < HOST_WORDS {
        return Err(Stop::Fault(Fault::Count));
    }
    let uses = uses_of(alloc, option_words(words))?;
    match values_in(scenario, words, uses.as_slice()) {
        Ok(values) => Ok(values),
        Err(fault) => Err(Stop::Fault(fault)),
    }
}

/// Reads a line `host NAME ADDRESS WIRE`, followed by its options, and appends the new host.
pub(crate) fn read_host(alloc: Global, scenario: &mut Scenario, words: &[&str]) -> Result<(), Stop>
    ensures { IsAnswerToLine line.Host (so_far scenario.old) (texts words.now) result (so_far scenario.new) }
{
    let (address, options) = host_values(alloc, scenario, words)?;
    let (name, wire) = (word_at(words, 1), word_at(words, 3));
    add_host(
        alloc,
        &mut scenario.plan.hosts,
        name,
        address,
        wire,
        options,
    )?;
    Ok(())
}

/// Returns the item of this kind that a text spells; `None` if the text doesn't have the form of such an item.
fn item_of(kind: ItemKind, text: &str) -> Option<Item>
    ensures { SomeIff result (IsItem kind text.now) (item_in kind text.now) }
{
    match kind {
        ItemKind::Group => address_of(text).map(Item::Group),
        ItemKind::Vlan => number16_of(text).map(Item::Vlan),
        ItemKind::Socket => socket_of(text).map(Item::Socket),
    }
}

/// Reads a line `group HOST ADDRESS`, `vlan HOST N`, `socket HOST N` or `socket HOST all`, and adds the item to the
/// host.
pub(crate) fn read_item(scenario: &mut Scenario, kind: ItemKind, words: &[&str]) -> Result<(), Stop>
    ensures { IsAnswerToLine (line.Item kind) (so_far scenario.old) (texts words.now) result (so_far scenario.new) }
{
    if words.len() != ITEM_WORDS {
        return Err(Stop::Fault(Fault::Count));
    }
    let Some(item) = item_of(kind, word_at(words, 2)) else {
        return Err(Stop::Fault(Fault::Value));
    };
    if let Err(fault) = add_item(scenario.plan.hosts.as_mut_slice(), word_at(words, 1), item) {
        return Err(Stop::Fault(fault));
    }
    // `Order` is the last fault in the order, so it is checked after the item was added.
    if !scenario.commands.is_empty() {
        return Err(Stop::Fault(Fault::Order));
    }
    Ok(())
}
