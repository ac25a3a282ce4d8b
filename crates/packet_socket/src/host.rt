// A host: a driver with sockets.

ghost use Rattle.std.specs.Prelude.{◌≡◌, ◌↔◌, ◌≤◌, ◌<◌, ◌+◌, ◌++◌, [], Err, IfErr, IfOk, IsTrue, length};
ghost use Rattle.dma_memory.specs.Layout.{size_of};
ghost use Rattle.dma_memory.specs.Owners.{HasNoSecondOwner};
ghost use Rattle.descriptors.specs.Frames.{longest_frame, shortest_sent};
ghost use Rattle.bring_up.specs.Configuration.{IsValidIn};
ghost use Rattle.bring_up.specs.Device.{IsBeforeAccess};
ghost use Rattle.bring_up.specs.declared.init_error.InitError.TheVariants as InitError;
ghost use Rattle.registers.specs.Counting.{greatest_count};
ghost use Rattle.adapter.specs.Keeping.{Keeps};
ghost use Rattle.adapter.specs.DriverState.{owners};
ghost use Rattle.driver.specs.Initialisation.{Initialises, RefusesInit};
ghost use Rattle.driver.specs.SendSteps.{HasWrongLength, accepted_by, with_transmit_slots};
ghost use Rattle.driver.specs.Parts.{AreFrames, buffers_of};
ghost use Rattle.driver.specs.declared.transmit.SendError.TheVariants as SendError;
ghost use Rattle.packet_socket.specs.HostActs.{CallsUp};
ghost use Rattle.packet_socket.specs.HostCalls.{HostReady, host_at};
ghost use Rattle.packet_socket.specs.HostEffects.{SendEffect};
ghost use Rattle.packet_socket.specs.HostState.{IsNewHost, all_of, queue_at, HostState};
ghost use Rattle.packet_socket.specs.InsideHost.{IsConsistentHost, host_inside};

use crate::SocketKind;
use crate::sockets::{MOST_SOCKETS, Sockets};
use adapter::Bus;
use arrayvec::ArrayVec;
use dma_memory::Layout;
use driver::{Config, Driver, InitError, SendError};
use std::alloc::Global;
use std::marker::Model;

/// A host: a driver of an adapter, and the sockets to which received frames go.
#[derive(Drop)]
pub struct Host {
    pub(crate) driver: Driver,
    pub(crate) sockets: Sockets,
}

impl Model for Host {
    ghost Value = { HostState };

    ghost view = { host_inside };

    ghost invariant = { IsConsistentHost };
}

impl Host {
    /// Initializes the adapter by `config`, and returns a host with these sockets. Each queue has room for as many
    /// frames as there are receive buffers, so no later call allocates memory.
    ///
    /// # Errors
    ///
    /// The errors of [`Driver::init`]. E10 also if the memory for the queues can't be allocated; there is no access
    /// before this error. After an error, the call may be made again.
    pub fn new<B: Bus>(
        alloc: Global,
        bus: &mut B,
        config: &Config,
        kinds: ArrayVec<SocketKind, MOST_SOCKETS>,
    ) -> Result<Host, InitError>
        ensures keeps { Keeps B.Bus bus.old bus.new }

        // Over any bus.
        ensures config { (result ≡ Err InitError.Config) ↔ ¬ IsValidIn config.now (B.extent bus.old) }
        ensures unasked { IfErr result (λ error. IsBeforeAccess error → bus.new ≡ bus.old) }
        ensures ok { IfOk result (IsNewHost config.now kinds.items) }
        ensures had { IfOk result (λ host. IsValidIn config.now (B.extent bus.old)) }

        // Over a bus that obeys the law.
        ensures initialises { B.honest bus.old
            → IfOk result (λ host. Initialises B.Bus config.now bus.old bus.new host.driver) }
        ensures ready { B.honest bus.old → IfOk result (λ host. HostReady host (B.world bus.new)) }
        ensures refuses { B.honest bus.old → IfErr result (RefusesInit B.Bus bus.old bus.new) }
    {
        // An invalid configuration is E15 even if the memory for the queues can't be allocated.
        let layout = config.layout(bus.size())?;
        // A queued frame has at least one buffer, so a queue never needs more room than this.
        let sockets = Sockets::new(alloc, kinds, usize::from(layout.buffers()))?;
        let driver = Driver::init(alloc, bus, config)?;
        Ok(Host { driver, sockets })
    }

    /// Returns the places of the driver's rings and buffers. Calls that access memory need a bus with at least
    /// `layout().size()` bytes.
    pub fn layout(&self) -> Layout
        ensures { result ≡ self.now.driver.layout }
    {
        self.driver.layout()
    }

    /// Returns the number of sockets. Each socket has a queue (`queues`).
    pub fn socket_count(&self) -> usize
        ensures count { result ≡ length self.now.kinds }
        ensures queues { length self.now.queues ≡ length self.now.kinds }
    {
        self.sockets.len()
    }

    /// Returns the number of frames queued for a socket, or 0 if there is no such socket.
    ///
    /// The other clauses state the host's invariant. Each socket has a queue. Each queued frame has a legal length,
    /// which is the sum of the sizes of its pieces, and each piece fits into a buffer. No buffer has two owners; the
    /// queues count as owners.
    pub fn waiting(&self, socket: usize) -> usize
        ensures count { result ≡ length (queue_at self.now.queues socket) }
        ensures table { length self.now.queues ≡ length self.now.kinds }
        ensures sizes { AreFrames (all_of self.now.queues) }
        ensures one_owner { HasNoSecondOwner self.now.driver.layout.buffers
            (owners self.now.driver ++ buffers_of (all_of self.now.queues)) }
    {
        self.sockets.waiting(socket)
    }

    /// Returns the number of received frames that went to no socket. The number saturates at the greatest `u64`.
    pub fn unclaimed(&self) -> u64
        ensures { result ≡ self.now.unclaimed }
    {
        self.sockets.unclaimed()
    }

    /// Returns the driver's sum of missed frames, and whether this sum is exact. A sum below 0xFFFF_FFFF is exact. If
    /// the sum isn't exact, more frames than the sum may have been missed before the last read of MPC.
    pub fn missed(&self) -> (u64, bool)
        ensures sum { result.0 ≡ self.now.driver.missed }
        ensures exact { result.1 ≡ self.now.driver.exact }
        ensures small { result.0 < greatest_count → IsTrue result.1 }
    {
        self.driver.missed()
    }

    /// Sends a frame of 14 to 1,518 bytes by [`Driver::transmit`]. `bus` must have at least `layout().size()` bytes.
    ///
    /// # Errors
    ///
    /// E20 [`TooShort`](SendError::TooShort) if the frame has fewer than 14 bytes, E21 [`TooLong`](SendError::TooLong)
    /// if the frame has more than 1,518 bytes; both without an access. E22 [`RingFull`](SendError::RingFull) only if
    /// all slots of the transmit ring except one are still outstanding after the call has freed slots whose descriptors
    /// have DD. After E20 and E21, the host is unchanged.
    pub fn send<B: Bus>(&mut self, bus: &mut B, frame: &[u8]) -> Result<(), SendError>
        requires memory { size_of self.old.driver.layout ≤ B.extent bus.old }
        ensures keeps { Keeps B.Bus bus.old bus.new }

        // Over any bus.
        ensures others { self.new ≡ record self.old
            { driver = with_transmit_slots self.old.driver self.new.driver.oldest_transmit self.new.driver.sending } }
        ensures too_short { (result ≡ Err SendError.TooShort) ↔ (length frame.now < shortest_sent) }
        ensures too_long { (result ≡ Err SendError.TooLong) ↔ (longest_frame < length frame.now) }
        ensures nothing { HasWrongLength result → (bus.new ≡ bus.old) × (self.new ≡ self.old) }
        ensures full { result ≡ Err SendError.RingFull → self.new.driver.sending + 1 ≡ self.new.driver.layout.tx }

        // Over a bus that obeys the law. The call returns no frames (the empty list).
        ensures sends { CallsUp B.Bus [] (accepted_by result frame.now) (host_at bus.old self.old)
            (host_at bus.new self.new) (SendEffect frame.now result) }
    {
        self.driver.transmit(bus, frame)
    }
}
