// The kinds of lines, by their first words.

ghost use Rattle.std.specs.Prelude.{◌≡◌};
ghost use Rattle.scenario.specs.Kinds.{line_kind_named};

use text::value_of;

/// The kinds of items that lines add to a host.
#[derive(Clone, Copy)]
pub(crate) enum ItemKind {
    /// `group`: a multicast group of the host.
    Group,
    /// `vlan`: a VLAN of the host.
    Vlan,
    /// `socket`: a socket of the host.
    Socket,
}

/// The kinds of calls of a host in a run; a reset is one of them.
#[derive(Clone, Copy)]
pub(crate) enum CallKind {
    /// `send`: the host sends a frame.
    Send,
    /// `recv`: the host asks for the oldest frame of a socket.
    Recv,
    /// `interrupt`: the host handles an interrupt.
    Interrupt,
    /// `reset`: the host resets its adapter.
    Reset,
    /// `join`: the host joins a group.
    Join,
    /// `leave`: the host leaves a group.
    Leave,
}

/// The kinds of lines. The first two set up hosts, the others are commands.
#[derive(Clone, Copy)]
pub(crate) enum LineKind {
    /// `host`: a new host.
    Host,
    /// `group`, `vlan` or `socket`: a new item of a host.
    Item(ItemKind),
    /// A host's call or reset, and the ticks that are played during the call or reset.
    Call(CallKind),
    /// `tick`: a tick outside calls.
    Tick,
    /// `feed`: a host sends the frames of a trace.
    Feed,
    /// `auto`: events drawn at random.
    Auto,
    /// `drain`: a host's sockets return all frames that the host holds for them.
    Drain,
}

/// The words that lines begin with, and the kinds of these lines.
const KINDS: [(&str, LineKind); 14] = [
    ("host", LineKind::Host),
    ("group", LineKind::Item(ItemKind::Group)),
    ("vlan", LineKind::Item(ItemKind::Vlan)),
    ("socket", LineKind::Item(ItemKind::Socket)),
    ("send", LineKind::Call(CallKind::Send)),
    ("recv", LineKind::Call(CallKind::Recv)),
    ("interrupt", LineKind::Call(CallKind::Interrupt)),
    ("reset", LineKind::Call(CallKind::Reset)),
    ("join", LineKind::Call(CallKind::Join)),
    ("leave", LineKind::Call(CallKind::Leave)),
    ("tick", LineKind::Tick),
    ("feed", LineKind::Feed),
    ("auto", LineKind::Auto),
    ("drain", LineKind::Drain),
];

/// Returns the kind of the lines that begin with this word; `None` if no kind of line begins with it.
#[tactic(auto, unfolding(crate::specs::Kinds::line_kind_named))]
pub(crate) fn kind_of(word: &str) -> Option<LineKind>
    ensures { result ≡ line_kind_named word.now }
{
    value_of(&KINDS, word)
}
