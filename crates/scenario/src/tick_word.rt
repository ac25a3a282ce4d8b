// The words that spell ticks.

ghost use Rattle.std.specs.Prelude.{◌≡◌, ◌<◌, IfSome, length};
ghost use Rattle.scenario.specs.SoFar.{hosts_of, host_place};
ghost use Rattle.scenario.specs.TickWords as words;

use adapter::StepKind;
use network_plan::HostPlan;
use stations::Tick;
use text::value_of;

/// The kinds of ticks at a host.
#[derive(Clone, Copy)]
pub(crate) enum TickKind {
    /// A step of this kind of the host's adapter.
    Step(StepKind),
    /// The delivery of the oldest frame that waits at the host's end of its wire.
    Deliver,
}

impl TickKind {
    /// Returns the tick of this kind at the host with this number.
    fn at(self, host: usize) -> Tick
        ensures { result ≡ words.tick_at self host }
    {
        match self {
            TickKind::Step(kind) => Tick::Step(host, kind),
            TickKind::Deliver => Tick::Deliver(host),
        }
    }
}

/// The names of the kinds of ticks.
const TICK_KINDS: [(&str, TickKind); 7] = [
    ("txtake", TickKind::Step(StepKind::TxTake)),
    ("txput", TickKind::Step(StepKind::TxPut)),
    ("rxdata", TickKind::Step(StepKind::RxData)),
    ("rxdone", TickKind::Step(StepKind::RxDone)),
    ("eeprom", TickKind::Step(StepKind::EepromTick)),
    ("phy", TickKind::Step(StepKind::PhyTick)),
    ("deliver", TickKind::Deliver),
];

/// Returns the kind of ticks with this name; `None` if there is no such kind.
#[tactic(auto, unfolding(crate::specs::TickWords::tick_kind_named))]
fn tick_kind_of(word: &str) -> Option<TickKind>
    ensures { result ≡ words.tick_kind_named word.now }
{
    value_of(&TICK_KINDS, word)
}

/// Returns the number of the first host with this name; `None` if there is no such host.
pub(crate) fn host_named(hosts: &[HostPlan], name: &str) -> Option<usize>
    ensures place { result ≡ host_place name.now (hosts_of hosts.now) }
    ensures there { IfSome result (λ host. host < length hosts.now) }
{
    hosts.iter().position(|host| host.name.as_str() == name)
}

/// Returns whether a word spells a tick: `go`, or the name of a kind, a colon, and any text as the name of a host.
/// Whether there is such a host isn't tested.
pub(crate) fn is_tick(word: &str) -> bool
    ensures { result ≡ words.is_tick word.now }
{
    if word == "go" {
        return true;
    }
    match word.split_once(':') {
        Some((kind, _)) => tick_kind_of(kind).is_some(),
        None => false,
    }
}

/// Returns the tick that a word spells, if the word is `go`, or its kind and its host are known; otherwise `None`.
pub(crate) fn tick_of(hosts: &[HostPlan], word: &str) -> Option<Tick>
    ensures { result ≡ words.tick_named (hosts_of hosts.now) word.now }
{
    if word == "go" {
        return Some(Tick::Go);
    }
    let Some((kind, name)) = word.split_once(':') else {
        return None;
    };
    match (tick_kind_of(kind), host_named(hosts, name)) {
        (Some(kind), Some(host)) => Some(kind.at(host)),
        _ => None,
    }
}
