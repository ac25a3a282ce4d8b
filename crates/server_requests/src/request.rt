// The requests, and their parameters.

ghost use Rattle.std.specs.Prelude.{◌≡◌};

use adapter::StepKind;
use registers::PortWidth;
use std::marker::Model;

/// The width of a number in an access.
#[derive(Clone, Copy)]
pub enum Width {
    /// 8 bits: `readb`, `writeb`.
    Byte,
    /// 16 bits: `readw`, `writew`.
    Word,
    /// 32 bits: `readl`, `writel`.
    Long,
    /// 64 bits: `readq`, `writeq`.
    Quad,
}

/// The number of bytes that a read returns, and the form of the answer.
#[derive(Clone, Copy)]
pub enum Wanted {
    /// `readb`, `readw`, `readl`, `readq`: a number of this width, whose lowest byte is at the address.
    Number(Width),
    /// `read`: this number of bytes, from the address on.
    Bytes(u64),
    /// `b64read`: this number of bytes, from the address on, answered in base64.
    Base64(u64),
}

/// The bytes of a write, or the frame of an `arrive` or `offer`. In contracts, the value is the list of these bytes.
#[derive(Drop)]
pub struct Payload {
    pub(crate) bytes: Vec<u8>,
}

impl Model for Payload {
    ghost use Rattle.std.specs.Prelude.{List, ℕ};

    ghost Value = { List ℕ };

    ghost view = { λ payload. payload.bytes.items };
}

impl Payload {
    /// Returns the bytes.
    pub fn as_slice(&self) -> &[u8]
        ensures { result.now ≡ self.now }
    {
        self.bytes.as_slice()
    }
}

/// A setting that later requests use.
#[derive(Clone, Copy)]
pub enum Setting {
    /// `interleave`: up to this number of random steps and arrivals are played before each access, except with a
    /// schedule.
    Interleave(u16),
    /// `pace`: up to this number of cycles are played after each access and each `arrive`.
    Pace(u16),
    /// `log`: `on` is whether steps, accesses and arrivals are printed. `targets` is whether the line of an access ends
    /// with the name of the access's target.
    Log { on: bool, targets: bool },
    /// `events`: whether frames put onto the wire, faults, and arrivals of offered frames are printed.
    Events(bool),
    /// `wire`: whether the wire is free. If not, the wire has no room for a frame.
    Wire(bool),
}

/// A request that returns state of the adapter or the server, and plays nothing.
#[derive(Clone, Copy)]
pub enum Look {
    /// `inb`, `inw`, `inl`: the value at this I/O port.
    Port(PortWidth, u16),
    /// `endianness`: the order of the bytes of a number in memory.
    Endianness,
    /// `line`: the level of the interrupt line.
    Line,
    /// `digest`: a digest of the state of the adapter and of memory.
    Digest,
    /// `frames`: the frames that were put onto the wire while events weren't printed, except those returned before.
    Frames,
    /// `faults`: the faults that stopped an engine while events weren't printed, except those returned before.
    Faults,
    /// `irq_intercept_in`, `irq_intercept_out`: nothing, because changes of the interrupt line are always printed.
    Intercept,
    /// `enabled`: the kinds of steps whose outcome now would be neither `nothing` nor `wirefull`.
    Enabled,
    /// `target`: the name of the register or memory that an access at this address, of this number of bytes, reaches.
    Target(u64, u64),
    /// `rings`: the base, the length in bytes, the head and the tail of the receive ring, then of the transmit ring.
    Rings,
}

/// The request of a line.
#[derive(Drop)]
pub enum Request {
    /// `readb`, `readw`, `readl`, `readq`, `read`, `b64read`: reads bytes from this address on.
    Read(Wanted, u64),
    /// `writeb`, `writew`, `writel`, `writeq`, `write`, `b64write`, `memset`: writes these bytes from an address on.
    Write(u64, Payload),
    /// Returns state of the adapter or the server, and plays nothing.
    Look(Look),
    /// `outb`, `outw`, `outl`: writes this value to this I/O port.
    WritePort(PortWidth, u16, u32),
    /// `interleave`, `pace`, `log`, `events`, `wire`: changes this setting for later requests.
    Set(Setting),
    /// `step`: the adapter takes a step of this kind.
    Step(StepKind),
    /// `arrive`: a frame is delivered to the adapter.
    Arrive(Payload),
    /// `settle`: all offered frames arrive, and then cycles are played until one does nothing, or until their maximum.
    Settle,
    /// `offer`: a frame waits for its arrival.
    Offer(Payload),
    /// `choose`: returns a number below this limit. The limit isn't 0.
    Choose(u32),
    /// `clock_step`: does what `settle` does, and then advances the clock by this number of nanoseconds.
    ClockStep(u64),
    /// `clock_set`: does what `settle` does, and then sets the clock to this time in nanoseconds, unless the clock is
    /// later.
    ClockSet(u64),
    /// `save`: keeps a copy of the state, in place of the previous copy.
    Save,
    /// `restore`: replaces the state by a copy of the state that was saved last.
    Restore,
}
