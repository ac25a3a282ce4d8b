// A drive: initializes an adapter, sends the frames of a list, and receives frames.

ghost use Rattle.std.specs.Prelude.{◌≡◌, ◌<◌, ◌≤◌, IfOk};
ghost use Rattle.dma_memory.specs.Layout.{size_of};
ghost use Rattle.adapter.specs.Keeping.{Keeps};
ghost use Rattle.bring_up.specs.Configuration.{configured_counts};
ghost use Rattle.drive.specs.Drives.{Drives, layout_counts};
ghost use Rattle.packet_socket.specs.HostCalls.{HostReady};

use crate::exchange::Exchange;
use crate::{BusFault, DriveCounts, DriveError, DriveLimits, DriveRings, WatchedBus};
use arrayvec::ArrayVec;
use driver::{Config, InitError};
use packet_socket::{Host, SocketKind};
use pcap_trace::{Frames, RecordWriter, Sink, Unit};
use std::alloc::Global;

/// Returns the configuration of a promiscuous driver with these rings, a receive packet buffer of 48 KB, no groups and
/// no VLANs.
fn config(rings: &DriveRings) -> Config
    ensures { configured_counts result ≡ layout_counts rings.now }
{
    Config {
        rx: rings.rx,
        tx: rings.tx,
        buffers: rings.buffers,
        rxa: 48,
        promiscuous: true,
        groups: ArrayVec::new(),
        vlans: None,
    }
}

/// Initializes the adapter, and returns a host whose only socket takes all frames. The host is ready if the bus obeys
/// the bus law. After an error of the initialization, returns the error that `reason` chooses.
fn bring_up<B: WatchedBus>(
    alloc: Global,
    bus: &mut B,
    rings: &DriveRings,
) -> Result<Host, DriveError>
    ensures keeps { Keeps B.Bus bus.old bus.new }
    ensures layout { IfOk result (λ host. host.driver.layout ≡ layout_counts rings.now) }
    ensures memory { IfOk result (λ host. size_of host.driver.layout ≤ B.Bus.extent bus.new) }
    ensures ready { B.Bus.honest bus.old → IfOk result (λ host. HostReady host (B.Bus.world bus.new)) }
{
    let mut kinds = ArrayVec::new();
    kinds.push(SocketKind::All);
    match Host::new(alloc, bus, &config(rings), kinds) {
        Ok(host) => Ok(host),
        Err(error) => Err(reason(bus.fault(), error)),
    }
}

/// Returns why an initialization failed: the fault of the bus if the bus stopped, or else the error. The reads of a
/// stopped bus return 0. So if the bus stopped, the error of the initialization isn't the reason.
fn reason(fault: Option<BusFault>, error: InitError) -> DriveError {
    match (fault, error) {
        (Some(fault), _) => DriveError::Bus(fault),
        (None, InitError::Memory) => DriveError::Memory,
        (None, error) => DriveError::Init(error),
    }
}

/// Initializes an adapter with these rings, sends the frames of a list, and receives frames, until an end that `limits`
/// determines. The frames received are written to `sink`, as a trace. The time of each frame in microseconds is the
/// frame's number, from 0 on. `sink` must have failed fewer than 2^64 - 1 times, so that it can count another failure.
///
/// The frames are passed to the driver in order, each at most once. While its transmit ring is full, and after the last
/// frame, the interrupt handler is called repeatedly. Each call reads ICR, so the bus needn't report the interrupt
/// line. The handler is also called after each frame that was passed, if the interrupt line is then asserted.
///
/// # Errors
///
/// [`Memory`](DriveError::Memory) if memory was refused, [`Init`](DriveError::Init) if the adapter wasn't initialized
/// ([`Config`](InitError::Config) if these rings aren't allowed or don't fit), [`Write`](DriveError::Write) if `sink`
/// failed, and [`Bus`](DriveError::Bus) if the bus stopped. After an error, a beginning of the trace may have been
/// written.
pub fn drive<B: WatchedBus, S: Sink>(
    alloc: Global,
    bus: &mut B,
    frames: &Frames,
    rings: &DriveRings,
    limits: &DriveLimits,
    sink: &mut S,
) -> Result<DriveCounts, DriveError>
    requires countable { S.failures sink.old < u64.MAX }
    ensures keeps { Keeps B.Bus bus.old bus.new }
    ensures drives { IfOk result
        (λ counts. Drives B.Bus rings.now frames.now counts (S.taken sink.old) (S.taken sink.new) bus.old bus.new) }
{
    let mut exchange = Exchange {
        writer: RecordWriter::new(alloc, Unit::Micros)?,
        host: bring_up(alloc, bus, rings)?,
        received: 0,
        quiet: 0,
    };
    exchange.run(bus, sink, frames, limits)
}
