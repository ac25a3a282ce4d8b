// Reads a deviation from the words of a line.

ghost use Rattle.std.specs.Prelude.{◌≡◌, ◌<◌, length};
ghost use Rattle.step_schedules.specs.Deviations as spec;
ghost use Rattle.step_schedules.specs.Results.{GivesView};
ghost use Rattle.step_schedules.specs.Words.{texts};

use crate::deviation::{Action, Before, Deviation, Place, Site};
use crate::schedule_error::{Fault, Stop};
use crate::spelling::{number_of, place_of};
use std::alloc::Global;
use text::{split_at_word, value_of, word_at};

/// The actions of one word, by this word.
const ACTIONS: [(&str, Action); 9] = [
    ("txtake", Action::TxTake),
    ("txput", Action::TxPut),
    ("rxdata", Action::RxData),
    ("rxdone", Action::RxDone),
    ("tx", Action::Tx),
    ("rx", Action::Rx),
    ("arrive", Action::Arrive),
    ("eeprom", Action::EepromTick),
    ("phy", Action::PhyTick),
];

/// The actions that begin with `hold`, by their second word.
const HOLDS: [(&str, Action); 2] = [("eeprom", Action::HoldEeprom), ("phy", Action::HoldPhy)];

/// The kinds of accesses, by the word that names each.
const KINDS: [(&str, Before); 2] = [("read", Before::Read), ("write", Before::Write)];

/// The kinds of requests, by the word that names each request: requests that begin a round, and `choose`.
const REQUESTS: [(&str, Before); 5] = [
    ("arrive", Before::Request),
    ("offer", Before::Request),
    ("step", Before::Request),
    ("settle", Before::Request),
    ("choose", Before::Choice),
];

/// Returns the action that one word names, or `None` if the word names no action.
#[tactic(auto, unfolding(crate::specs::Deviations::action_named))]
fn action_named(word: &str) -> Option<Action>
    ensures { result ≡ spec.action_named word.now }
{
    value_of(&ACTIONS, word)
}

/// Returns the action that chooses the number in a word, or `None` if the word isn't a number.
fn choice_of(word: &str) -> Option<Action>
    ensures { result ≡ spec.choice_in word.now }
{
    let number = number_of(word)?;
    Some(Action::Choose(number))
}

/// Returns the action that two words name, such as `hold phy` or `choose 2`, or `None` if they name no action.
#[tactic(auto, unfolding(crate::specs::Deviations::hold_named))]
fn action_of_two(first: &str, second: &str) -> Option<Action>
    ensures { result ≡ spec.action_of_two first.now second.now }
{
    if first == "hold" {
        value_of(&HOLDS, second)
    } else if first == "choose" {
        choice_of(second)
    } else {
        None
    }
}

/// Returns the action that these words name, or `None` if they name no action.
fn action_of(words: &[&str]) -> Option<Action>
    ensures { result ≡ spec.action_in (texts words.now) }
{
    if words.len() == 1 {
        return action_named(word_at(words, 0));
    }
    if words.len() == 2 {
        return action_of_two(word_at(words, 0), word_at(words, 1));
    }
    None
}

/// Returns whether an action of one or two words begins with this word.
fn begins_action(word: &str) -> bool
    ensures { result ≡ spec.begins_action word.now }
{
    action_named(word).is_some() || word == "hold" || word == "choose"
}

/// Reads the place in the first word of a line. Returns `None` if the word begins an action, because the line then has
/// no place. Rejects other words.
fn place_at(word: &str) -> Result<Option<Place>, Fault>
    ensures { result ≡ spec.place_at word.now }
{
    if let Some(place) = place_of(word) {
        return Ok(Some(place));
    }
    if begins_action(word) {
        Ok(None)
    } else {
        Err(Fault::Place)
    }
}

/// Returns the words of a line after its place, or all words if the line has no place. There must be at least one word,
/// because a place is the first word.
fn words_after<'a, 'b>(place: Option<Place>, words: &'b [&'a str]) -> &'b [&'a str]
    requires { 0 < length words.now }
    ensures { texts result.now ≡ spec.words_after_place place (texts words.entry.now) }
{
    if place.is_none() {
        return words;
    }
    let (_, rest) = words.split_at(1);
    rest
}

/// Returns the part of a word such as `ICR#3` before its first `#`, or the whole word if it has no `#`.
fn name_of(word: &str) -> &str
    ensures { result.now ≡ spec.name_in word.entry.now }
{
    match word.split_once('#') {
        Some((name, _)) => name,
        None => word,
    }
}

/// Reads the number after the first `#` of a word such as `ICR#3`. Returns `None` if the word has no `#`, and rejects
/// other text after the `#`.
fn number_after(word: &str) -> Result<Option<u32>, Fault>
    ensures { result ≡ spec.number_after_hash word.now }
{
    let Some((_, digits)) = word.split_once('#') else {
        return Ok(None);
    };
    match number_of(digits) {
        Some(number) => Ok(Some(number)),
        None => Err(Fault::Access),
    }
}

/// Returns the kind of the access or the request that these words name, or `None` for other words. A request is one
/// word, which may have a number after `#`. An access is two words: the word of its kind, and a name, which isn't
/// checked.
#[tactic(auto, unfolding(crate::specs::Deviations::event_kind_named, crate::specs::Deviations::request_named))]
fn before_of(words: &[&str]) -> Option<Before>
    ensures { result ≡ spec.before_in (texts words.now) }
{
    if words.len() == 1 {
        return value_of(&REQUESTS, name_of(word_at(words, 0)));
    }
    if words.len() == 2 {
        return value_of(&KINDS, word_at(words, 0));
    }
    None
}

/// Reads the number after the first `#` of a line's last word, such as 3 in `ICR#3`. Returns `None` if the word has no
/// `#`. Rejects other text after the `#`, and then an empty name before it.
fn named_number(word: &str) -> Result<Option<u32>, Fault>
    ensures { result ≡ spec.named_number word.now }
{
    let number = number_after(word)?;
    if name_of(word).is_empty() {
        return Err(Fault::Access);
    }
    Ok(number)
}

/// Returns whether an access or a request of this kind can be at a place. A request that begins a round is at access 0.
/// No access and no other request is at access 0.
fn is_place_of(before: Before, place: Place) -> bool
    ensures { result ≡ spec.is_place_of before place }
{
    match before {
        Before::Request => place.access == 0,
        Before::Read | Before::Write | Before::Choice => place.access > 0,
    }
}

/// Returns the site at a place, for an access or a request of the kind `before`. Rejects a place at which no access or
/// request of this kind can be.
fn site_at_place(place: Place, before: Before) -> Result<Site, Fault>
    ensures { result ≡ spec.site_at_place place before }
{
    if is_place_of(before, place) {
        Ok(Site::Place(place))
    } else {
        Err(Fault::RequestPlace)
    }
}

/// Returns the site of a deviation, from the place at the beginning of its line and the number after `#` in its last
/// word. Rejects a line with both or with neither. Rejects the number 0, and a place at which no access or request of
/// the kind `before` can be.
fn site_of(place: Option<Place>, number: Option<u32>, before: Before) -> Result<Site, Fault>
    ensures { result ≡ spec.site_in place number before }
{
    match (place, number) {
        (Some(place), None) => site_at_place(place, before),
        (Some(_), Some(_)) => Err(Fault::PlaceAndNumber),
        (None, Some(number)) if number > 0 => Ok(Site::Number(number)),
        (None, _) => Err(Fault::NoNumber),
    }
}

/// Returns whether an action chooses a number.
fn is_choice(action: Action) -> bool
    ensures { result ≡ spec.is_choice action }
{
    matches!(action, Action::Choose(_))
}

/// Returns whether an action may be before an access or a request of this kind. A chosen number is only for a request
/// `choose`, and this request takes no other action.
fn takes(before: Before, action: Action) -> bool
    ensures { result ≡ spec.takes before action }
{
    match before {
        Before::Choice => is_choice(action),
        Before::Read | Before::Write | Before::Request => !is_choice(action),
    }
}

/// Returns the site of a deviation, from the place of its line and the last word `word`. Rejects a word with an empty
/// name or with other text than a number after `#`. Then rejects an action that may not be before an access or request
/// of the kind `before`, and then what [`site_of`] rejects.
fn site_at(place: Option<Place>, action: Action, before: Before, word: &str) -> Result<Site, Fault>
    ensures { result ≡ spec.site_at place action before word.now }
{
    let number = named_number(word)?;
    if !takes(before, action) {
        return Err(Fault::Choice);
    }
    site_of(place, number, before)
}

/// A deviation without its name. The name is added last, because only its copy needs memory.
#[derive(Clone, Copy)]
struct Nameless {
    site: Site,
    action: Action,
    before: Before,
}

/// Returns the last word, or an empty text if there is no word.
fn last_word<'a>(words: &[&'a str]) -> &'a str
    ensures { result.now ≡ spec.last_word (texts words.entry.now) }
{
    if words.is_empty() {
        return "";
    }
    word_at(words, words.len() - 1)
}

/// Returns the deviation of a line, except its name, from the place, the action, and the words `event` after `before`.
/// Rejects words that name no access and no request, and then what [`site_at`] rejects.
fn nameless_at(place: Option<Place>, action: Action, event: &[&str]) -> Result<Nameless, Fault>
    ensures { result ≡ spec.nameless_at place (texts event.now) action }
{
    let Some(before) = before_of(event) else {
        return Err(Fault::Access);
    };
    let site = site_at(place, action, before, last_word(event))?;
    Ok(Nameless {
        site,
        action,
        before,
    })
}

/// Returns the deviation of a line, except its name, from the place and the words `action` and `event` before and after
/// `before`. Rejects words `action` that name no action, and then what [`nameless_at`] rejects.
fn nameless_of(place: Option<Place>, action: &[&str], event: &[&str]) -> Result<Nameless, Fault>
    ensures { result ≡ spec.nameless_in place (texts action.now) (texts event.now) }
{
    match action_of(action) {
        Some(action) => nameless_at(place, action, event),
        None => Err(Fault::Action),
    }
}

impl Nameless {
    /// Returns the deviation with a copy of this name. Fails only if memory was refused.
    fn with_name(self, alloc: Global, name: &str) -> Result<Deviation, Stop>
        ensures { GivesView spec.deviation_value result (spec.with_name name.now self) }
    {
        let name = String::from_str(alloc, name)?;
        Ok(Deviation {
            site: self.site,
            action: self.action,
            before: self.before,
            name,
        })
    }
}

/// Returns the deviation of a line, from its place, if it has one, and the other words. Rejects what [`nameless_of`]
/// rejects. Also fails if memory was refused.
fn deviation_after(alloc: Global, place: Option<Place>, words: &[&str]) -> Result<Deviation, Stop>
    ensures { GivesView spec.deviation_value result (spec.deviation_after place (texts words.now)) }
{
    let (action, event) = split_at_word(words, "before");
    let nameless = nameless_of(place, action, event).map_err(Stop::Fault)?;
    nameless.with_name(alloc, name_of(last_word(event)))
}

/// Returns the deviation of a line, from its words. There must be at least one word: the place, or the first word of
/// the action. Rejects what [`place_at`] rejects, and then what [`nameless_of`] rejects. Also fails if memory was
/// refused.
pub(crate) fn deviation_of(alloc: Global, words: &[&str]) -> Result<Deviation, Stop>
    requires { 0 < length words.now }
    ensures { GivesView spec.deviation_value result (spec.deviation_in (texts words.now)) }
{
    let place = place_at(word_at(words, 0)).map_err(Stop::Fault)?;
    deviation_after(alloc, place, words_after(place, words))
}
