// Exchanges the frames of a host with its adapter.

ghost use Rattle.std.specs.Prelude.{◌≡◌, ◌<◌, ◌≤◌, ◌+◌, [], List, ℕ, Option, IfOk, OnOk, if◌then◌else◌};
ghost use Rattle.descriptors.specs.Frames.{is_sendable};
ghost use Rattle.dma_memory.specs.Layout.{size_of};
ghost use Rattle.adapter.specs.Keeping.{Keeps};
ghost use Rattle.drive.specs.Exchanging.{Exchanges, SendsFront, accepted_of, exchange_at, moment_of, saturated};

use crate::{DriveCounts, DriveError, DriveLimits, WatchedBus};
use descriptors::{LONGEST_LEGAL, is_sendable};
use driver::SendError;
use packet_socket::Host;
use pcap_trace::{Frames, RecordWriter, Sink, Unit, WriteError};
use text::turns;

/// The only socket of the host, which takes all frames.
const SOCKET: usize = 0;

/// A host that exchanges frames with its adapter, and the trace of the frames that the host received. Each call
/// requires a bus with at least the memory of the driver's layout.
///
/// A call with a sink requires that the sink can count another failure (`countable`). If the call returns Ok, the sink
/// hasn't failed (`failures`). After an error, the contracts state only what no call changes (`Keeps`).
#[derive(Drop)]
pub(crate) struct Exchange {
    pub(crate) host: Host,
    pub(crate) writer: RecordWriter,
    /// The number of frames received, which is the number of the next frame. The number saturates.
    pub(crate) received: u64,
    /// The number of turns in a row in which no frame was received or passed to the driver. This number saturates, and
    /// is 0 again when no more frames are sent.
    pub(crate) quiet: u64,
}

/// The numbers of frames that were passed to the driver.
#[derive(Clone, Copy)]
pub(crate) struct Handed {
    /// The number of frames that the driver accepted.
    pub(crate) sent: u64,
    /// The number of frames that have fewer than 14 or more than 1,518 bytes.
    pub(crate) illegal: u64,
}

impl Handed {
    /// Counts a frame that was passed to the driver: as sent if it has 14 to 1,518 bytes, because the driver accepts
    /// these lengths, or else as illegal.
    fn count(&mut self, frame: &[u8])
        ensures sent { self.new.sent
            ≡ (if is_sendable frame.now then saturated (self.old.sent + 1) else self.old.sent) }
        ensures illegal { self.new.illegal
            ≡ (if is_sendable frame.now then self.old.illegal else saturated (self.old.illegal + 1)) }
    {
        if is_sendable(frame) {
            self.sent = self.sent.saturating_add(1);
        } else {
            self.illegal = self.illegal.saturating_add(1);
        }
    }
}

impl Exchange {
    /// Takes all frames that wait for the socket, and appends them to the trace. Fails if the sink failed.
    fn take_all<B: WatchedBus, S: Sink>(
        &mut self,
        bus: &mut B,
        sink: &mut S,
    ) -> Result<(), WriteError>
        requires memory { size_of self.old.host.driver.layout ≤ B.Bus.extent bus.old }
        requires countable { S.failures sink.old < u64.MAX }
        ensures keeps { Keeps B.Bus bus.old bus.new }
        ensures exchanges { OnOk result (Exchanges B.Bus []
            (moment_of bus.old self.old (S.taken sink.old)) (moment_of bus.new self.new (S.taken sink.new))) }
        ensures failures { OnOk result (S.failures sink.new ≡ S.failures sink.old) }
    {
        let mut frame = [0; LONGEST_LEGAL];
        // The loop has at most 2^64 - 1 turns, so that its end can be proved.
        for _count in turns() {
            // The host has this socket, so an error means that no frame waits.
            let Ok(size) = self.host.recv(bus, SOCKET, &mut frame) else {
                break;
            };
            self.writer
                .write(sink, Unit::Micros, self.received, &frame[..size])?;
            self.received = self.received.saturating_add(1);
        }
        Ok(())
    }

    /// Makes a turn: calls the interrupt handler, and takes the frames that were received. Counts the turn in `quiet`
    /// if no frame was received, or else sets `quiet` to 0. Fails if the sink failed, or if the bus has stopped.
    pub(crate) fn turn<B: WatchedBus, S: Sink>(
        &mut self,
        bus: &mut B,
        sink: &mut S,
    ) -> Result<(), DriveError>
        requires memory { size_of self.old.host.driver.layout ≤ B.Bus.extent bus.old }
        requires countable { S.failures sink.old < u64.MAX }
        ensures keeps { Keeps B.Bus bus.old bus.new }
        ensures exchanges { OnOk result (Exchanges B.Bus []
            (moment_of bus.old self.old (S.taken sink.old)) (moment_of bus.new self.new (S.taken sink.new))) }
        ensures failures { OnOk result (S.failures sink.new ≡ S.failures sink.old) }
    {
        let before = self.received;
        self.host.interrupt(bus);
        self.take_all(bus, sink)?;
        self.quiet = if self.received == before {
            self.quiet.saturating_add(1)
        } else {
            0
        };
        match bus.fault() {
            Some(fault) => Err(DriveError::Bus(fault)),
            None => Ok(()),
        }
    }

    /// Passes a frame to the driver. Returns `false` if its transmit ring is full, and `true` if the driver accepted or
    /// rejected the frame. The call uses no sink, so `exchanges` holds for any bytes `taken` of a sink.
    fn hand<B: WatchedBus>(&mut self, bus: &mut B, frame: &[u8]) -> bool
        requires { size_of self.old.host.driver.layout ≤ B.Bus.extent bus.old }
        ensures keeps { Keeps B.Bus bus.old bus.new }
        ensures exchanges { (taken : Option (List ℕ)) → Exchanges B.Bus (if result then accepted_of frame.now else [])
            (moment_of bus.old self.old taken) (moment_of bus.new self.new taken) }
        ensures others { self.new ≡ record self.old { host = self.new.host } }
    {
        let Err(error) = self.host.send(bus, frame) else {
            return true;
        };
        error != SendError::RingFull
    }

    /// Passes a frame to the driver. While the transmit ring is full, makes a turn and tries again. Returns `false` if
    /// `quiet` is at least `idle` after such a turn: the frame wasn't passed. Otherwise sets `quiet` to 0, and returns
    /// `true`. Fails if a turn fails.
    fn send<B: WatchedBus, S: Sink>(
        &mut self,
        bus: &mut B,
        sink: &mut S,
        frame: &[u8],
        idle: u64,
    ) -> Result<bool, DriveError>
        requires memory { size_of self.old.host.driver.layout ≤ B.Bus.extent bus.old }
        requires countable { S.failures sink.old < u64.MAX }
        ensures keeps { Keeps B.Bus bus.old bus.new }
        ensures exchanges { IfOk result (λ handed. Exchanges B.Bus (if handed then accepted_of frame.now else [])
            (moment_of bus.old self.old (S.taken sink.old)) (moment_of bus.new self.new (S.taken sink.new))) }
        ensures failures { OnOk result (S.failures sink.new ≡ S.failures sink.old) }
    {
        // The loop has at most 2^64 - 1 turns, so that its end can be proved.
        for _turn in turns() {
            if self.hand(bus, frame) {
                self.quiet = 0;
                return Ok(true);
            }
            self.turn(bus, sink)?;
            if self.quiet >= idle {
                break;
            }
        }
        Ok(false)
    }

    /// Makes a turn if the interrupt line is asserted.
    fn turn_if_asserted<B: WatchedBus, S: Sink>(
        &mut self,
        bus: &mut B,
        sink: &mut S,
    ) -> Result<(), DriveError>
        requires memory { size_of self.old.host.driver.layout ≤ B.Bus.extent bus.old }
        requires countable { S.failures sink.old < u64.MAX }
        ensures keeps { Keeps B.Bus bus.old bus.new }
        ensures exchanges { OnOk result (Exchanges B.Bus []
            (moment_of bus.old self.old (S.taken sink.old)) (moment_of bus.new self.new (S.taken sink.new))) }
        ensures failures { OnOk result (S.failures sink.new ≡ S.failures sink.old) }
    {
        if !bus.is_asserted() {
            return Ok(());
        }
        self.turn(bus, sink)
    }

    /// Passes the frames of a list to the driver, in order, until `send` returns `false`. After each frame that was
    /// passed, makes a turn if the interrupt line is asserted. Fails if a turn fails.
    pub(crate) fn send_all<B: WatchedBus, S: Sink>(
        &mut self,
        bus: &mut B,
        sink: &mut S,
        frames: &Frames,
        idle: u64,
    ) -> Result<Handed, DriveError>
        requires memory { size_of self.old.host.driver.layout ≤ B.Bus.extent bus.old }
        requires countable { S.failures sink.old < u64.MAX }
        ensures keeps { Keeps B.Bus bus.old bus.new }
        ensures sends { IfOk result (λ handed. SendsFront B.Bus frames.now handed.sent handed.illegal
            (moment_of bus.old self.old (S.taken sink.old)) (moment_of bus.new self.new (S.taken sink.new))) }
        ensures failures { OnOk result (S.failures sink.new ≡ S.failures sink.old) }
    {
        let mut handed = Handed {
            sent: 0,
            illegal: 0,
        };
        for frame in frames.iter() {
            if !self.send(bus, sink, frame, idle)? {
                break;
            }
            handed.count(frame);
            self.turn_if_asserted(bus, sink)?;
        }
        Ok(handed)
    }

    /// Makes turns until `quiet` is at least `limits.idle`, or at least `limits.expect` frames were received. If
    /// `limits.expect` is `None`, only `limits.idle` ends the turns. Fails if a turn fails.
    pub(crate) fn wait<B: WatchedBus, S: Sink>(
        &mut self,
        bus: &mut B,
        sink: &mut S,
        limits: &DriveLimits,
    ) -> Result<(), DriveError>
        requires memory { size_of self.old.host.driver.layout ≤ B.Bus.extent bus.old }
        requires countable { S.failures sink.old < u64.MAX }
        ensures keeps { Keeps B.Bus bus.old bus.new }
        ensures exchanges { OnOk result (Exchanges B.Bus []
            (moment_of bus.old self.old (S.taken sink.old)) (moment_of bus.new self.new (S.taken sink.new))) }
        ensures failures { OnOk result (S.failures sink.new ≡ S.failures sink.old) }
    {
        // The loop has at most 2^64 - 1 turns, so that its end can be proved.
        for _turn in turns() {
            if limits.is_expect_met(self.received) || self.quiet >= limits.idle {
                break;
            }
            self.turn(bus, sink)?;
        }
        Ok(())
    }

    /// Sends the frames of a list (`send_all`), waits for frames (`wait`), and writes the bytes that wait for the sink.
    /// Fails if a turn fails, the sink fails, or the bus has stopped.
    pub(crate) fn run<B: WatchedBus, S: Sink>(
        &mut self,
        bus: &mut B,
        sink: &mut S,
        frames: &Frames,
        limits: &DriveLimits,
    ) -> Result<DriveCounts, DriveError>
        requires memory { size_of self.old.host.driver.layout ≤ B.Bus.extent bus.old }
        requires countable { S.failures sink.old < u64.MAX }
        ensures keeps { Keeps B.Bus bus.old bus.new }
        ensures sends { IfOk result (λ counts. SendsFront B.Bus frames.now counts.sent counts.illegal
            (moment_of bus.old self.old (S.taken sink.old))
            (exchange_at bus.new self.new.host (S.taken sink.new) counts.received)) }
        ensures failures { OnOk result (S.failures sink.new ≡ S.failures sink.old) }
        ensures missed { IfOk result (λ counts. counts.missed ≡ self.new.host.driver.missed) }
        ensures exact { IfOk result (λ counts. counts.is_exact ≡ self.new.host.driver.exact) }
    {
        let handed = self.send_all(bus, sink, frames, limits.idle)?;
        // The turns of `wait` are counted from 0, also if `send_all` ended because the transmit ring remained full.
        self.quiet = 0;
        self.wait(bus, sink, limits)?;
        self.writer.flush(sink)?;
        if let Some(fault) = bus.fault() {
            return Err(DriveError::Bus(fault));
        }
        let (missed, is_exact) = self.host.missed();
        Ok(DriveCounts {
            sent: handed.sent,
            illegal: handed.illegal,
            received: self.received,
            missed,
            is_exact,
        })
    }
}
