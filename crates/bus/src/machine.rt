// An adapter and its host's memory.

ghost use Rattle.std.specs.Prelude.{◌≡◌, ◌≤◌, ◌↔◌, ◌+◌, ◌++◌, [], length, not, IfNone, IfSome, IsNone, vec_capacity};
ghost use Rattle.adapter_model.specs.HostFrames.{frames_held, frames_to_send};
ghost use Rattle.adapter_model.specs.Pending.{CanReadHeld, CanReadSending};
ghost use Rattle.adapter_model.specs.Outcomes.{framed, oldest_queued};
ghost use Rattle.adapter_model.specs.Registers.{answer_at};
ghost use Rattle.adapter_model.specs.State.{IsAdapter};
ghost use Rattle.adapter_model.specs.Steps.{TellsWork};
ghost use Rattle.bus.specs.Digests.{digest_of};
ghost use Rattle.bus.specs.Trails.{Occurs};
ghost use Rattle.bus.specs.Machines.{after_event, is_asserted};
ghost use Rattle.bus.specs.declared.event.Access.TheVariants.{Reads, Stores, Writes};
ghost use Rattle.bus.specs.declared.event.Event.TheVariants.{Accesses, Arrives, Steps};
ghost use Rattle.eeprom.specs.Eerd.{is_pending};
ghost use Rattle.mdic_phy.specs.Mdic.{has_work};
ghost use Rattle.descriptors.specs.Frames.{longest_frame};
ghost use Rattle.dma_memory.specs.HostMemory.{bytes_at, LiesIn};

use adapter_model::{Adapter, Fate, FrameCounts, Outcome, StepKind, WaitingFrames};
use descriptors::Frame;
use dma_memory::HostMemory;
use std::hash::{DefaultHasher, Hasher};
use std::marker::Model;

/// An adapter and its host's memory. Each call plays at most one event. [`report_line`](Machine::report_line) plays no
/// event, but stores which level of the interrupt line it reported.
///
/// In contracts, the value is a `MachineState`, plain data that `specs/Machines.antt` defines. Clauses that state only
/// `IsAdapter` publish the machine's invariant.
#[derive(Clone, Drop)]
pub struct Machine {
    adapter: Adapter,
    memory: HostMemory,
    /// The level of the interrupt line that counts as reported.
    reported: bool,
}

impl Model for Machine {
    ghost use Rattle.bus.specs.Machines.{MachineState, machine_of, IsMachine};

    ghost Value = { MachineState };

    ghost view = { machine_of };

    ghost invariant = { IsMachine };
}

impl Machine {
    /// Returns a machine with this adapter and this memory. The current level of the interrupt line counts as reported.
    pub fn new(adapter: Adapter, memory: HostMemory) -> Machine
        ensures { result ≡ record {
          world = record { memory = memory; adapter = adapter };
          reported = is_asserted adapter;
        } }
    {
        let reported = adapter.line();
        Machine {
            adapter,
            memory,
            reported,
        }
    }

    /// Plays one step of the adapter, and returns its outcome. `wire_free` states whether the wire has room for a
    /// frame. In the clauses, `framed` adds the frame that the step puts to the outcome.
    #[inline(always)]
    pub fn step(&mut self, kind: StepKind, wire_free: bool) -> Outcome<()>
        ensures occurs { Occurs (Steps kind wire_free (framed result self.old.world.adapter)) self.old.world }
        ensures state { self.new
            ≡ after_event (Steps kind wire_free (framed result self.old.world.adapter)) self.old }
    {
        self.adapter
            .step_unframed(kind, &mut self.memory, wire_free)
    }

    /// Returns the frame that a step [`TxPut`](StepKind::TxPut) puts onto a wire with room, if there is one. See
    /// [`Adapter::to_put`].
    pub fn to_put(&self) -> Option<&[u8]>
        ensures none { IsNone result ↔ (self.now.world.adapter.transmitter.buffer ≡ []) }
        ensures oldest { IfSome result (λ frame. frame.now ≡ oldest_queued self.now.world.adapter.transmitter.buffer) }
        ensures fits { IfSome result (λ frame. length frame.now ≤ longest_frame) }
        ensures adapter { IsAdapter self.now.world.adapter }
    {
        self.adapter.to_put()
    }

    /// Delivers a frame to the adapter. Returns the frame's fate.
    pub fn arrive(&mut self, frame: &[u8]) -> Fate
        ensures occurs { Occurs (Arrives frame.now result) self.old.world }
        ensures state { self.new ≡ after_event (Arrives frame.now result) self.old }
    {
        self.adapter.arrive(frame)
    }

    /// Reads the register at an offset in bytes, and returns its value.
    #[inline(always)]
    pub fn read(&mut self, offset: u32) -> u32
        ensures occurs { Occurs (Accesses (Reads offset result)) self.old.world }
        ensures state { self.new ≡ after_event (Accesses (Reads offset result)) self.old }
        ensures adapter { IsAdapter self.old.world.adapter }
    {
        self.adapter.read(offset)
    }

    /// Returns the value that a read of the register at an offset in bytes would return now. No event happens, and
    /// nothing changes.
    pub fn value(&self, offset: u32) -> u32
        ensures answer { result ≡ answer_at offset self.now.world.adapter }
        ensures adapter { IsAdapter self.now.world.adapter }
    {
        self.adapter.value(offset)
    }

    /// Writes the register at an offset in bytes.
    #[inline(always)]
    pub fn write(&mut self, offset: u32, value: u32)
        ensures state { self.new ≡ after_event (Accesses (Writes offset value)) self.old }
        ensures adapter { IsAdapter self.old.world.adapter }
    {
        self.adapter.write(offset, value);
    }

    /// Fills `into` with the bytes of memory from an address on. All these bytes must be in memory.
    pub fn load(&self, address: u64, into: &mut [u8])
        requires lies { LiesIn self.now.world.memory address (length into.old) }
        ensures loaded { into.new ≡ bytes_at self.now.world.memory address (length into.old) }
        ensures adapter { IsAdapter self.now.world.adapter }
    {
        // The bytes are in memory, so the load succeeds.
        let _ = self.memory.load(address, into);
    }

    /// Stores bytes to memory from an address on. All these bytes must be in memory.
    pub fn store(&mut self, address: u64, bytes: &[u8])
        requires lies { LiesIn self.old.world.memory address (length bytes.now) }
        ensures state { self.new ≡ after_event (Accesses (Stores address bytes.now)) self.old }
        ensures adapter { IsAdapter self.old.world.adapter }
    {
        // The bytes are in memory, so the store succeeds.
        let _ = self.memory.store(address, bytes);
    }

    /// Returns the number of bytes of memory.
    pub fn size(&self) -> u64
        ensures { result ≡ length self.now.world.memory }
    {
        self.memory.size()
    }

    /// Returns whether the adapter's interrupt line is asserted.
    pub fn line(&self) -> bool
        ensures line { result ≡ is_asserted self.now.world.adapter }
        ensures adapter { IsAdapter self.now.world.adapter }
    {
        self.adapter.line()
    }

    /// Returns whether a step of this kind has something to do. See [`Adapter::has_work`].
    pub fn has_work(&self, kind: StepKind) -> bool
        ensures work { TellsWork kind result self.now.world.adapter }
    {
        self.adapter.has_work(kind)
    }

    /// Returns whether a read of the EEPROM is pending, which the next step of the EEPROM would end.
    pub fn eeprom_has_work(&self) -> bool
        ensures { result ≡ is_pending self.now.world.adapter.eerd }
    {
        self.adapter.eeprom_has_work()
    }

    /// Returns whether the next step of the PHY has something to do: a link countdown is running, or a command of MDIC
    /// is pending.
    pub fn phy_has_work(&self) -> bool
        ensures { result ≡ has_work self.now.world.adapter.mdic self.now.world.adapter.phy }
    {
        self.adapter.phy_has_work()
    }

    /// Reports the interrupt line: returns its level, or `None` if the level is the one at the last report. The first
    /// report compares the level with the level when the machine was made.
    pub fn report_line(&mut self) -> Option<bool>
        ensures none { IfNone result (self.old.reported ≡ is_asserted self.old.world.adapter) }
        ensures some { IfSome result (λ level.
            (level ≡ is_asserted self.old.world.adapter) × (self.old.reported ≡ not level)) }
        ensures state { self.new ≡ record self.old { reported = is_asserted self.old.world.adapter } }
    {
        let line = self.adapter.line();
        if line == self.reported {
            return None;
        }
        self.reported = line;
        Some(line)
    }

    /// Returns the adapter's frame counts. No register is cleared.
    pub fn counts(&self) -> FrameCounts
        ensures missed { result.missed ≡ self.now.world.adapter.missed_packets }
        ensures without_descriptor { result.without_descriptor ≡ self.now.world.adapter.no_receive_buffers }
        ensures received { result.received ≡ self.now.world.adapter.received_packets }
        ensures transmitted { result.transmitted ≡ self.now.world.adapter.transmitted_packets }
    {
        self.adapter.counts()
    }

    /// Returns the numbers of frames that wait in the adapter's packet buffers.
    pub fn waiting(&self) -> WaitingFrames
        ensures received { result.received ≡ length self.now.world.adapter.receiver.buffer }
        ensures transmit { result.transmit ≡ length self.now.world.adapter.transmitter.buffer }
    {
        self.adapter.waiting()
    }

    /// Returns the machine's adapter.
    pub fn adapter(&self) -> &Adapter
        ensures { result.now ≡ self.now.world.adapter }
    {
        &self.adapter
    }

    /// Lists the frames that are dropped if the driver resets the adapter now. Appends the frames to be sent to
    /// `sending`, and the frames held, from the receive slot `oldest` on, to `holding`. Both lists must have room for
    /// these frames. The rings and the bytes of these frames must be inside memory, and no frame may exceed 1,518
    /// bytes. See [`Adapter::pending`].
    pub fn pending(&self, oldest: u16, sending: &mut Vec<Frame>, holding: &mut Vec<Frame>)
        requires sending { CanReadSending self.now.world }
        requires holding { CanReadHeld oldest self.now.world }
        requires sending_room { length sending.old.items + length (frames_to_send self.now.world)
            ≤ vec_capacity sending.old }
        requires holding_room { length holding.old.items + length (frames_held oldest self.now.world)
            ≤ vec_capacity holding.old }
        ensures sending { sending.new.items ≡ sending.old.items ++ frames_to_send self.now.world }
        ensures holding { holding.new.items ≡ holding.old.items ++ frames_held oldest self.now.world }
        // `holding` keeps its room, so a caller may append later frames without an allocation.
        ensures holding_capacity { vec_capacity holding.old ≤ vec_capacity holding.new }
    {
        self.adapter.pending(&self.memory, oldest, sending, holding);
    }

    /// Returns a digest of the adapter and its memory, by SipHash-1-3. Machines with equal adapters and memories have
    /// equal digests. It isn't proved that different machines have different digests. The image of the EEPROM, which no
    /// event changes, and the level of the interrupt line at the last report aren't covered.
    #[tactic(auto, unfolding(crate::specs::Digests::digest_of))]
    pub fn digest(&self) -> u64
        ensures { result ≡ digest_of self.now.world }
    {
        let mut hasher = DefaultHasher::new();
        self.adapter.feed(&mut hasher);
        hasher.write(self.memory.as_slice());
        hasher.finish()
    }

    /// Returns the adapter and the memory.
    pub fn into_parts(self) -> (Adapter, HostMemory)
        ensures adapter { result.0 ≡ self.world.adapter }
        ensures memory { result.1 ≡ self.world.memory }
    {
        (self.adapter, self.memory)
    }
}
