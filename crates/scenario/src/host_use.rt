// The options of a `host` line.

ghost use Rattle.std.specs.Prelude.{◌≡◌, ◌∷◌, ◌≤◌, ◌↔◌, IfOk, IsTrue, count_by, drop, length};
ghost use Rattle.scenario.specs.HostOptions as options;
ghost use Rattle.scenario.specs.Words.{texts};

use crate::spelling::{number8_of, number16_of};
use mdic_phy::Link;
use std::alloc::{AllocError, Global};
use text::value_of;

/// The options of a `host` line.
#[derive(Clone, Copy, PartialEq)]
pub(crate) enum OptionKind {
    /// `rx N`: the number of receive descriptors.
    Rx,
    /// `tx N`: the number of transmit descriptors.
    Tx,
    /// `buffers N`: the number of receive buffers.
    Buffers,
    /// `rxa N`: the size of the receive packet buffer, in kilobytes.
    Rxa,
    /// `link N` or `link never`: the number of PHY ticks until the link is up, or that the link is never up.
    Link,
    /// `promiscuous`: frames for every destination address pass the filter.
    Promiscuous,
}

/// A word of a `host` line after the wire, read as the use of an option. The use of an option that takes a value
/// includes the next word, if there is one.
#[derive(Clone, Copy)]
pub(crate) enum HostUse {
    /// The word isn't an option.
    Unknown,
    /// An option that lacks its value.
    Lone(OptionKind),
    /// An option whose value doesn't have the right form.
    Unread(OptionKind),
    /// `rx` with its value.
    Rx(u16),
    /// `tx` with its value.
    Tx(u16),
    /// `buffers` with its value.
    Buffers(u16),
    /// `rxa` with its value.
    Rxa(u8),
    /// `link` with its value.
    Link(Link),
    /// `promiscuous`.
    Promiscuous,
}

/// The values of the options of a `host` line; [`OptionKind`] explains each option.
#[derive(Clone, Copy)]
pub(crate) struct HostOptions {
    pub(crate) rx: u16,
    pub(crate) tx: u16,
    pub(crate) buffers: u16,
    pub(crate) rxa: u8,
    pub(crate) link: Link,
    pub(crate) promiscuous: bool,
}

/// The values of options that a line doesn't use.
const DEFAULTS: HostOptions = HostOptions {
    rx: 8,
    tx: 8,
    buffers: 16,
    rxa: 48,
    link: Link::After(1),
    promiscuous: false,
};

impl OptionKind {
    /// Returns the use of this option with a value; `Unread` if the value doesn't have the right form. `promiscuous`
    /// takes no value, so `value` doesn't matter for it.
    fn with_value(self, value: &str) -> HostUse
        ensures { result ≡ options.use_of self value.now }
    {
        let unread = HostUse::Unread(self);
        match self {
            OptionKind::Rx => number16_of(value).map_or(unread, HostUse::Rx),
            OptionKind::Tx => number16_of(value).map_or(unread, HostUse::Tx),
            OptionKind::Buffers => number16_of(value).map_or(unread, HostUse::Buffers),
            OptionKind::Rxa => number8_of(value).map_or(unread, HostUse::Rxa),
            OptionKind::Link => link_of(value).map_or(unread, HostUse::Link),
            OptionKind::Promiscuous => HostUse::Promiscuous,
        }
    }

    /// Returns the use of this option without a value; `Lone` if the option takes a value.
    fn without_value(self) -> HostUse
        ensures { result ≡ options.lone_use self }
    {
        match self {
            OptionKind::Promiscuous => HostUse::Promiscuous,
            kind => HostUse::Lone(kind),
        }
    }

    /// Returns whether the option takes a value.
    fn takes_value(self) -> bool
        ensures { result ≡ options.takes_value self }
    {
        match self {
            OptionKind::Promiscuous => false,
            _ => true,
        }
    }
}

impl HostUse {
    /// Returns the option that is used; `None` if the word isn't an option.
    fn kind(&self) -> Option<OptionKind>
        ensures { result ≡ options.kind_of_use self.now }
    {
        match *self {
            HostUse::Unknown => None,
            HostUse::Lone(kind) => Some(kind),
            HostUse::Unread(kind) => Some(kind),
            HostUse::Rx(_) => Some(OptionKind::Rx),
            HostUse::Tx(_) => Some(OptionKind::Tx),
            HostUse::Buffers(_) => Some(OptionKind::Buffers),
            HostUse::Rxa(_) => Some(OptionKind::Rxa),
            HostUse::Link(_) => Some(OptionKind::Link),
            HostUse::Promiscuous => Some(OptionKind::Promiscuous),
        }
    }

    /// Returns whether this is a use of this option.
    fn is_of(&self, kind: OptionKind) -> bool
        ensures { result ≡ options.is_use_of kind self.now }
    {
        match self.kind() {
            Some(used) => used == kind,
            None => false,
        }
    }

    /// Returns `false` if this is an option that lacks its value, else `true`.
    fn is_whole(&self) -> bool
        ensures { result ≡ options.is_whole self.now }
    {
        !matches!(self, HostUse::Lone(_))
    }

    /// Returns whether the word is an option, and the option's value, if there is one, has the right form. So the
    /// result is `true` for an option that lacks its value.
    fn is_read(&self) -> bool
        ensures { result ≡ options.is_read self.now }
    {
        !matches!(self, HostUse::Unknown | HostUse::Unread(_))
    }
}

impl HostOptions {
    /// Returns these options after one more use. Only a use of an option whose value was read, or of `promiscuous`,
    /// changes an option.
    fn with_use(self, one: HostUse) -> HostOptions
        ensures { result ≡ options.with_use self one }
    {
        match one {
            HostUse::Rx(rx) => HostOptions { rx, ..self },
            HostUse::Tx(tx) => HostOptions { tx, ..self },
            HostUse::Buffers(buffers) => HostOptions { buffers, ..self },
            HostUse::Rxa(rxa) => HostOptions { rxa, ..self },
            HostUse::Link(link) => HostOptions { link, ..self },
            HostUse::Promiscuous => HostOptions {
                promiscuous: true,
                ..self
            },
            _ => self,
        }
    }
}

/// Returns when a link is up: `never`, or after a number of PHY ticks below 2^16. Returns `None` for any other text.
fn link_of(value: &str) -> Option<Link>
    ensures { result ≡ options.link_in value.now }
{
    if value == "never" {
        return Some(Link::Never);
    }
    number16_of(value).map(Link::After)
}

/// The names of the options.
const OPTION_KINDS: [(&str, OptionKind); 6] = [
    ("rx", OptionKind::Rx),
    ("tx", OptionKind::Tx),
    ("buffers", OptionKind::Buffers),
    ("rxa", OptionKind::Rxa),
    ("link", OptionKind::Link),
    ("promiscuous", OptionKind::Promiscuous),
];

/// Returns the option with this name; `None` if there is no such option.
#[tactic(auto, unfolding(crate::specs::HostOptions::option_named))]
fn option_of(word: &str) -> Option<OptionKind>
    ensures { result ≡ options.option_named word.now }
{
    value_of(&OPTION_KINDS, word)
}

/// Returns the use that begins with `word`, and the number of later words that belong to this use: 0 or 1. `behind`
/// contains the words after `word`.
fn first_use(word: &str, behind: &[&str]) -> (HostUse, usize)
    ensures first { options.uses_in (word.now ∷ texts behind.now)
        ≡ result.0 ∷ options.uses_in (texts (drop result.1 behind.now)) }
    ensures taken { result.1 ≤ length behind.now }
{
    let Some(kind) = option_of(word) else {
        return (HostUse::Unknown, 0);
    };
    if !kind.takes_value() {
        return (kind.without_value(), 0);
    }
    match behind.first() {
        Some(value) => (kind.with_value(value), 1),
        None => (kind.without_value(), 0),
    }
}

/// Returns the uses of options that the words after the wire spell, in order. Returns an error only if memory is
/// refused.
pub(crate) fn uses_of(alloc: Global, words: &[&str]) -> Result<Vec<HostUse>, AllocError>
    ensures { IfOk result (λ uses. uses.items ≡ options.uses_in (texts words.now)) }
{
    let mut uses = Vec::new(alloc);
    let mut place = 0;
    while place < words.len() {
        let (one, taken) = first_use(words[place], &words[place + 1..]);
        uses.push(one)?;
        place += 1 + taken;
    }
    Ok(uses)
}

/// Returns whether these uses contain at most one use of this option.
fn is_once(uses: &[HostUse], kind: OptionKind) -> bool
    ensures { IsTrue result ↔ (count_by (options.is_use_of kind) uses.now ≤ 1) }
{
    uses.iter().filter(|one| one.is_of(kind)).count() <= 1
}

/// Returns whether each option is used at most once.
fn are_once(uses: &[HostUse]) -> bool
    ensures { IsTrue result ↔ options.AreOnce uses.now }
{
    is_once(uses, OptionKind::Rx)
        && is_once(uses, OptionKind::Tx)
        && is_once(uses, OptionKind::Buffers)
        && is_once(uses, OptionKind::Rxa)
        && is_once(uses, OptionKind::Link)
        && is_once(uses, OptionKind::Promiscuous)
}

/// Returns whether each option that takes a value has one, and each option is used at most once. If not, the line has
/// the fault `Count`.
pub(crate) fn have_values_once(uses: &[HostUse]) -> bool
    ensures { IsTrue result ↔ options.HaveValuesOnce uses.now }
{
    uses.iter().all(HostUse::is_whole) && are_once(uses)
}

/// Returns whether each use is of a known option, and the option's value, if there is one, has the right form. If not,
/// a line without the fault `Count` has the fault `Value`.
pub(crate) fn have_right_forms(uses: &[HostUse]) -> bool
    ensures { IsTrue result ↔ options.HaveRightForms uses.now }
{
    uses.iter().all(HostUse::is_read)
}

/// Returns the values of the options: the defaults, changed by these uses in order.
pub(crate) fn options_of(uses: &[HostUse]) -> HostOptions
    ensures { result ≡ options.options_asked uses.now }
{
    uses.iter().copied().fold(DEFAULTS, HostOptions::with_use)
}
