// The kinds of requests, by their first words, and the kinds of steps, by their names.

ghost use Rattle.std.specs.Prelude.{◌≡◌};
ghost use Rattle.server_requests.specs.Verbs.{takes_words, verb_named};

use crate::request::Width;
use adapter::StepKind;
use registers::PortWidth;
use text::value_of;

/// How bytes are written as a word.
#[derive(Clone, Copy)]
pub(crate) enum Encoding {
    /// `0x`, and two hexadecimal digits per byte: `read`, `write`.
    Hexadecimal,
    /// RFC 4648, section 4: `b64read`, `b64write`.
    Base64,
}

/// The kind of a request, by its first word.
#[derive(Clone, Copy)]
pub(crate) enum Verb {
    /// `readb`, `readw`, `readl`, `readq`.
    ReadNumber(Width),
    /// `writeb`, `writew`, `writel`, `writeq`.
    WriteNumber(Width),
    /// `read`, `b64read`.
    Read(Encoding),
    /// `write`, `b64write`.
    Write(Encoding),
    /// `memset`: writes bytes of the same value.
    Memset,
    /// `inb`, `inw`, `inl`: reads an I/O port.
    ReadPort(PortWidth),
    /// `outb`, `outw`, `outl`: writes an I/O port.
    WritePort(PortWidth),
    /// `endianness`.
    Endianness,
    /// `step`.
    Step,
    /// `arrive`.
    Arrive,
    /// `settle`.
    Settle,
    /// `line`.
    Line,
    /// `digest`.
    Digest,
    /// `interleave`.
    Interleave,
    /// `log`.
    Log,
    /// `wire`.
    Wire,
    /// `offer`.
    Offer,
    /// `events`.
    Events,
    /// `frames`.
    Frames,
    /// `faults`.
    Faults,
    /// `pace`.
    Pace,
    /// `clock_step`.
    ClockStep,
    /// `clock_set`.
    ClockSet,
    /// `irq_intercept_in`, `irq_intercept_out`.
    Intercept,
    /// `enabled`.
    Enabled,
    /// `choose`.
    Choose,
    /// `target`.
    Target,
    /// `rings`.
    Rings,
    /// `save`.
    Save,
    /// `restore`.
    Restore,
}

impl Verb {
    /// Returns whether a line with this kind of request may have `count` words. The first word, which names the kind,
    /// counts, too.
    pub(crate) fn takes_words(self, count: usize) -> bool
        ensures { result ≡ takes_words self count }
    {
        match self {
            Verb::Endianness | Verb::Settle | Verb::Line | Verb::Frames | Verb::Faults => count
                == 1,
            Verb::Save | Verb::Restore | Verb::Digest | Verb::Enabled | Verb::Rings => count == 1,
            Verb::ClockStep => count == 1 || count == 2,
            Verb::ReadNumber(_) | Verb::Step | Verb::Arrive | Verb::Interleave => count == 2,
            Verb::Log | Verb::Wire | Verb::Offer | Verb::Events | Verb::Pace => count == 2,
            Verb::ClockSet | Verb::Intercept | Verb::ReadPort(_) => count == 2,
            Verb::Choose => count == 2,
            Verb::WriteNumber(_) | Verb::WritePort(_) | Verb::Read(_) | Verb::Target => count == 3,
            Verb::Write(_) | Verb::Memset => count == 4,
        }
    }
}

/// The first words of requests, and the kinds of these requests. The most frequent words are first.
const VERBS: [(&str, Verb); 43] = [
    ("readl", Verb::ReadNumber(Width::Long)),
    ("writel", Verb::WriteNumber(Width::Long)),
    ("readb", Verb::ReadNumber(Width::Byte)),
    ("readw", Verb::ReadNumber(Width::Word)),
    ("readq", Verb::ReadNumber(Width::Quad)),
    ("writeb", Verb::WriteNumber(Width::Byte)),
    ("writew", Verb::WriteNumber(Width::Word)),
    ("writeq", Verb::WriteNumber(Width::Quad)),
    ("read", Verb::Read(Encoding::Hexadecimal)),
    ("write", Verb::Write(Encoding::Hexadecimal)),
    ("b64read", Verb::Read(Encoding::Base64)),
    ("b64write", Verb::Write(Encoding::Base64)),
    ("memset", Verb::Memset),
    ("inb", Verb::ReadPort(PortWidth::Byte)),
    ("inw", Verb::ReadPort(PortWidth::Word)),
    ("inl", Verb::ReadPort(PortWidth::Long)),
    ("outb", Verb::WritePort(PortWidth::Byte)),
    ("outw", Verb::WritePort(PortWidth::Word)),
    ("outl", Verb::WritePort(PortWidth::Long)),
    ("endianness", Verb::Endianness),
    ("irq_intercept_in", Verb::Intercept),
    ("irq_intercept_out", Verb::Intercept),
    ("clock_step", Verb::ClockStep),
    ("clock_set", Verb::ClockSet),
    ("step", Verb::Step),
    ("arrive", Verb::Arrive),
    ("settle", Verb::Settle),
    ("line", Verb::Line),
    ("digest", Verb::Digest),
    ("interleave", Verb::Interleave),
    ("log", Verb::Log),
    ("wire", Verb::Wire),
    ("offer", Verb::Offer),
    ("events", Verb::Events),
    ("frames", Verb::Frames),
    ("faults", Verb::Faults),
    ("pace", Verb::Pace),
    ("save", Verb::Save),
    ("restore", Verb::Restore),
    ("enabled", Verb::Enabled),
    ("choose", Verb::Choose),
    ("target", Verb::Target),
    ("rings", Verb::Rings),
];

/// Returns the kind of request with this first word, or `None` if no request has this first word.
#[tactic(auto, unfolding(crate::specs::Verbs::verb_named))]
pub(crate) fn verb_of(word: &str) -> Option<Verb>
    ensures { result ≡ verb_named word.now }
{
    value_of(&VERBS, word)
}

/// The names of the kinds of steps, and these kinds.
pub(crate) const STEP_KINDS: [(&str, StepKind); 6] = [
    ("txtake", StepKind::TxTake),
    ("txput", StepKind::TxPut),
    ("rxdata", StepKind::RxData),
    ("rxdone", StepKind::RxDone),
    ("eeprom", StepKind::EepromTick),
    ("phy", StepKind::PhyTick),
];
