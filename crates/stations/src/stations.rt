// The stations of a network.

use crate::wire_log::LOG_ENTRIES;
use crate::wires::Wires;
use adapter::{FrameCounts, Machine, Outcome, StepKind};
use descriptors::Frame;
use std::alloc::{AllocError, Global};
use std::marker::Model;

/// The stations of a network. Each host has a station: its adapter with the host's memory, and its end of a wire.
/// Stations are numbered from 0, in the order in which they were connected. A host that is passed as `host` must exist,
/// unless the call's comment states the outcome for other hosts.
///
/// In contracts, the value is a list of `StationState` (`specs/Stations.antt`).
#[derive(Drop)]
pub struct Stations {
    /// The adapter and the memory of each host, by the host's number.
    pub(crate) machines: Vec<Machine>,
    /// The wires, with the end of each host.
    pub(crate) wires: Wires,
}

impl Model for Stations {
    ghost use Rattle.std.specs.Prelude.{List};
    ghost use Rattle.stations.specs.Stations.{StationState};

    ghost Value = { List StationState };

    ghost use Rattle.stations.specs.StationsView.{stations_in, HasEndsOfWires};

    ghost view = { stations_in };

    ghost invariant = { HasEndsOfWires };
}

impl Stations {
    ghost use Rattle.std.specs.Prelude.{◌≡◌, ◌≢◌, ◌<◌, ◌↔◌, ◌∷◌, ◌++◌, ◌+◌, ◌≤◌, [], length, true};
    ghost use Rattle.std.specs.Prelude.{IfOk, IsTrue, OnErr, vec_capacity};
    ghost use Rattle.adapter.specs.HostFrames.{frames_held, frames_to_send};
    ghost use Rattle.adapter.specs.Outcomes.{framed};
    ghost use Rattle.adapter.specs.Pending.{CanReadHeld, CanReadSending};
    ghost use Rattle.adapter.specs.Registers.{answer_at};
    ghost use Rattle.adapter.specs.State.{IsAdapter};
    ghost use Rattle.adapter.specs.model_types.step.StepKind.TheVariants.{TxPut};
    ghost use Rattle.adapter.specs.Trails.{Occurs};
    ghost use Rattle.adapter.specs.bus_types.event.Access.TheVariants.{Reads, Stores, Writes};
    ghost use Rattle.adapter.specs.bus_types.event.Event.TheVariants.{Accesses, Steps};
    ghost use Rattle.dma_memory.specs.HostMemory.{LiesIn};
    ghost use Rattle.registers.specs.Bits.{Meet};
    ghost use Rattle.stations.specs.Stations.{backlog_at, stations_after, world_at};
    ghost use Rattle.stations.specs.WireLogs.{last_of_others};

    /// Returns the stations of a network without hosts.
    pub fn new(alloc: Global) -> Stations
        ensures { result ≡ [] }
    {
        Stations {
            machines: Vec::new(alloc),
            wires: Wires::new(alloc),
        }
    }

    /// Appends a station with this machine on this wire. No frame waits at the station's end of the wire.
    ///
    /// # Errors
    ///
    /// Returns an error only if an allocation fails. Then the stations haven't changed.
    pub fn connect(
        &mut self,
        alloc: Global,
        machine: Machine,
        wire: usize,
    ) -> Result<(), AllocError>
        ensures connected { IfOk result (λ done. self.new ≡ self.old ++ record {
          world = machine.world;
          wire = wire;
          backlog = [];
        } ∷ []) }
        ensures err { OnErr result (self.new ≡ self.old) }
    {
        let count = self.machines.len();
        self.machines.push(machine)?;
        if let Err(error) = self.wires.connect(alloc, wire) {
            // A machine without an end of a wire isn't a station.
            self.machines.truncate(count);
            return Err(error);
        }
        Ok(())
    }

    /// Returns the number of stations.
    #[inline(always)]
    pub fn len(&self) -> usize
        ensures { result ≡ length self.now }
    {
        self.machines.len()
    }

    /// Returns a host's machine.
    #[inline(always)]
    pub(crate) fn machine(&self, host: usize) -> &Machine
        requires there { host < length self.now }
        ensures { result.now.world ≡ world_at self.now host }
    {
        &self.machines[host]
    }

    /// Returns the values of MPC, RNBC, GPRC and GPTC of a host's adapter, without clearing them (section 13.7 of
    /// Intel's manual).
    pub fn counts(&self, host: usize) -> FrameCounts
        requires there { host < length self.now }
        ensures missed { result.missed ≡ (world_at self.now host).adapter.missed_packets }
        ensures without_descriptor { result.without_descriptor ≡ (world_at self.now host).adapter.no_receive_buffers }
        ensures received { result.received ≡ (world_at self.now host).adapter.received_packets }
        ensures transmitted { result.transmitted ≡ (world_at self.now host).adapter.transmitted_packets }
    {
        self.machine(host).counts()
    }

    /// Appends to `sending` the frames that a host has still to send. Appends to `holding` the received frames in the
    /// host's receive ring, from the slot `oldest` on, and in its receive packet buffer. A caller passes the driver's
    /// oldest outstanding slot as `oldest`. Both lists must have room for these frames. The capacity of `holding`
    /// doesn't decrease. The rings and the bytes of these frames must be inside memory, and no frame may exceed 1,518
    /// bytes. See [`Adapter::pending`](adapter::Adapter::pending).
    pub fn pending(
        &self,
        host: usize,
        oldest: u16,
        sending: &mut Vec<Frame>,
        holding: &mut Vec<Frame>,
    )
        requires there { host < length self.now }
        requires sending { CanReadSending (world_at self.now host) }
        requires holding { CanReadHeld oldest (world_at self.now host) }
        requires sending_room { length sending.old.items + length (frames_to_send (world_at self.now host))
            ≤ vec_capacity sending.old }
        requires holding_room { length holding.old.items + length (frames_held oldest (world_at self.now host))
            ≤ vec_capacity holding.old }
        ensures sending { sending.new.items ≡ sending.old.items ++ frames_to_send (world_at self.now host) }
        ensures holding { holding.new.items ≡ holding.old.items ++ frames_held oldest (world_at self.now host) }
        ensures holding_capacity { vec_capacity holding.old ≤ vec_capacity holding.new }
    {
        self.machine(host).pending(oldest, sending, holding);
    }

    /// Performs one step of a host's adapter, and returns the outcome. No other station and no wire changes, so the
    /// step mustn't be TxPut (`stays`).
    /// - `occurs`: the adapter can take this step with this outcome. `true` stands for a wire with room, which matters
    ///   only for TxPut.
    #[inline(always)]
    pub fn step(&mut self, host: usize, kind: StepKind) -> Outcome<()>
        requires there { host < length self.old }
        requires stays { kind ≢ TxPut }
        ensures occurs { Occurs (Steps kind true (framed result (world_at self.old host).adapter))
            (world_at self.old host) }
        ensures state { self.new
            ≡ stations_after host (Steps kind true (framed result (world_at self.old host).adapter)) self.old }
    {
        // Whether the wire is free matters only for TxPut.
        self.machines[host].step(kind, true)
    }

    /// Returns the log of a host's wire: frames that were put on the wire, in order, each with the number of its
    /// sender. Entries that each end except their sender's has read may be missing. The frames that wait at the host's
    /// end are the last ones in the log from other senders.
    pub fn log(&self, host: usize) -> &[(usize, Frame)]
        requires there { host < length self.now }
        ensures waits { backlog_at self.now host
            ≡ last_of_others host (length (backlog_at self.now host)) result.now }
        ensures most { length result.now ≤ LOG_ENTRIES }
    {
        self.wires.entries(host)
    }

    /// Returns whether a host's interrupt line is asserted: a recorded cause is in the mask.
    pub fn line(&self, host: usize) -> bool
        requires there { host < length self.now }
        ensures line { IsTrue result ↔ Meet (world_at self.now host).adapter.causes.recorded
            (world_at self.now host).adapter.causes.mask }
        // The invariant of the host's adapter, for the proofs of callers.
        ensures adapter { IsAdapter (world_at self.now host).adapter }
    {
        self.machine(host).line()
    }

    /// Reads a register of a host's adapter, and returns its value. No other station and no wire changes.
    pub(crate) fn read(&mut self, host: usize, offset: u32) -> u32
        requires there { host < length self.old }
        ensures answer { result ≡ answer_at offset (world_at self.old host).adapter }
        ensures state { self.new ≡ stations_after host (Accesses (Reads offset result)) self.old }
        // The invariant of the host's adapter, for the proofs of callers.
        ensures adapter { IsAdapter (world_at self.old host).adapter }
    {
        self.machines[host].read(offset)
    }

    /// Writes a register of a host's adapter. No other station and no wire changes.
    pub(crate) fn write(&mut self, host: usize, offset: u32, value: u32)
        requires there { host < length self.old }
        ensures state { self.new ≡ stations_after host (Accesses (Writes offset value)) self.old }
        // The invariant of the host's adapter, for the proofs of callers.
        ensures adapter { IsAdapter (world_at self.old host).adapter }
    {
        self.machines[host].write(offset, value);
    }

    /// Stores bytes in a host's memory, the first at `address`. The places of all bytes must be in memory. No other
    /// station and no wire changes.
    pub(crate) fn store(&mut self, host: usize, address: u64, bytes: &[u8])
        requires there { host < length self.old }
        requires lies { LiesIn (world_at self.old host).memory address (length bytes.now) }
        ensures state { self.new ≡ stations_after host (Accesses (Stores address bytes.now)) self.old }
        // The invariant of the host's adapter, for the proofs of callers.
        ensures adapter { IsAdapter (world_at self.old host).adapter }
    {
        self.machines[host].store(address, bytes);
    }
}
