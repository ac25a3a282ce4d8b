// The solo bus: one adapter and its memory.

ghost use Rattle.std.specs.Prelude.{◌≡◌, ◌≤◌, ◌<◌, ◌+◌, ◌++◌, ◌↔◌, [], drop, length, min, slice_get};
ghost use Rattle.std.specs.Prelude.{IfOk, IfSome, IsNone, IsTrue, Some};
ghost use Rattle.registers.specs.Bits.{Meet};
ghost use Rattle.solo_bus.specs.SoloBuses.{SoloState};
ghost use Rattle.solo_bus.specs.SoloView.{solo_of, HasQueues};

use adapter_model::{Adapter, Fate, Outcome, StepKind};
use bus::Machine;
use circular_buffer::HeapCircularBuffer;
use descriptors::{Frame, FrameQueue};
use dma_memory::HostMemory;
use std::alloc::{AllocError, Global};
use std::marker::Model;

/// The maximum number of ticks that wait to be played.
pub const MOST_TICKS: usize = 32;

/// The number of frames for which the wire of a solo bus has room.
pub const WIRE_FRAMES: u8 = 64;

/// A tick of a solo bus: what is played before an access.
#[derive(Debug, Drop, PartialEq, Eq)]
pub enum SoloTick {
    /// A group of ticks ends, and the next access of the driver is made at this place.
    Go,
    /// The adapter takes a step.
    Step(StepKind),
    /// A frame is delivered to the adapter.
    Arrive(Frame),
}

/// A bus with one adapter and its memory, and no other device at its wire.
///
/// In contracts, the value is a `SoloState`, plain data that `specs/SoloBuses.antt` defines. The clauses `running` and
/// `adapter` of a call state that the adapter's invariant held before the call. `new` allocates all memory.
#[derive(Drop)]
pub struct SoloBus {
    machine: Machine,
    /// Whether a tick of the EEPROM and a tick of the PHY are played before each access.
    lively: bool,
    /// The ticks that wait to be played, in order.
    waiting: HeapCircularBuffer<SoloTick>,
    /// The frames that the adapter put and [`take_put`](SoloBus::take_put) didn't remove yet, in order.
    wire: FrameQueue,
    /// The number of accesses so far, up to the greatest `u64`.
    accesses: u64,
}

impl Model for SoloBus {
    ghost Value = { SoloState };

    ghost view = { solo_of };

    ghost invariant = { HasQueues };
}

impl SoloBus {
    ghost use Rattle.adapter_model.specs.Receiving.{IsFate};
    ghost use Rattle.adapter_model.specs.Registers.{answer_at};
    ghost use Rattle.adapter_model.specs.Steps.{Answers};
    ghost use Rattle.bus.specs.TickGroups.{behind_group, group_of, without_go};
    ghost use Rattle.bus.specs.LivelyBuses.{most_accesses};
    ghost use Rattle.solo_bus.specs.SoloBuses.{PlaysSoloTicks, Prepared, wire_has_room, is_solo_go, lively_ticks};
    ghost use Rattle.solo_bus.specs.SoloBuses.{frames_put_next, solo_after_arrival, solo_after_step, solo_framed};
    ghost use Rattle.adapter_model.specs.State.{IsAdapter};
    ghost use Rattle.adapter_model.specs.World.{world_after_read, world_after_store, world_after_write};
    ghost use Rattle.dma_memory.specs.HostMemory.{bytes_at, LiesIn};

    /// Returns a bus without ticks to be played, and with an empty wire. A lively bus plays a tick of the EEPROM and a
    /// tick of the PHY before each access.
    ///
    /// # Errors
    ///
    /// Returns an error only if an allocation fails.
    pub fn new(
        alloc: Global,
        adapter: Adapter,
        memory: HostMemory,
        lively: bool,
    ) -> Result<SoloBus, AllocError>
        ensures { IfOk result (λ bus. bus ≡ record {
          world = record { memory = memory; adapter = adapter };
          lively = lively;
          waiting = [];
          wire = [];
          accesses = 0;
        }) }
    {
        Ok(SoloBus {
            machine: Machine::new(adapter, memory),
            lively,
            waiting: HeapCircularBuffer::with_capacity(alloc, MOST_TICKS)?,
            wire: FrameQueue::new(alloc, WIRE_FRAMES)?,
            accesses: 0,
        })
    }

    /// Plays a step of the adapter, and returns its outcome. The wire has room if fewer than 64 frames are on it before
    /// the step. If the step puts a frame, the frame is on the wire, after the others, until
    /// [`take_put`](SoloBus::take_put) removes it.
    pub fn step(&mut self, kind: StepKind) -> Outcome<()>
        ensures answer { Answers kind (wire_has_room self.old) self.old.world.memory self.old.world.adapter
            (solo_framed result self.old) }
        ensures state { self.new ≡ solo_after_step kind (solo_framed result self.old) self.old }
        ensures running { IsAdapter self.old.world.adapter }
    {
        let wire_free = self.wire.len() < WIRE_FRAMES;
        if wire_free && kind == StepKind::TxPut {
            // The step removes the frame from the adapter, so the frame is copied before.
            self.copy_oldest_to_wire();
        }
        self.machine.step(kind, wire_free)
    }

    /// Copies the frame that the adapter puts next, the oldest one in its packet buffer, to the end of the frames on
    /// the wire. If the packet buffer is empty, nothing changes. The wire must have room.
    fn copy_oldest_to_wire(&mut self)
        requires { length self.old.wire < WIRE_FRAMES }
        ensures { self.new ≡ record self.old {
          wire = self.old.wire ++ frames_put_next self.old.world.adapter.transmitter.buffer;
        } }
    {
        if let Some(frame) = self.machine.to_put() {
            self.wire.push(frame);
        }
    }

    /// Delivers a frame to the adapter. Returns the frame's fate.
    pub fn arrive(&mut self, frame: &[u8]) -> Fate
        ensures fate { IsFate self.old.world.adapter frame.now result }
        ensures state { self.new ≡ solo_after_arrival result frame.now self.old }
        ensures running { IsAdapter self.old.world.adapter }
    {
        self.machine.arrive(frame)
    }

    /// Removes the oldest frame from the wire, and returns it. Returns `None` if and only if no frame is on the wire.
    pub fn take_put(&mut self) -> Option<Frame>
        ensures none { IsNone result ↔ (self.old.wire ≡ []) }
        ensures oldest { IfSome result (λ frame. slice_get self.old.wire 0 ≡ Some frame) }
        ensures state { self.new ≡ record self.old { wire = drop 1 self.old.wire } }
    {
        let frame = Frame::from_slice(self.wire.front()?);
        self.wire.pop();
        Some(frame)
    }

    /// Appends ticks to those that wait, for the accesses that follow; no tick is played now. Before each later access,
    /// the ticks up to the next [`Go`](SoloTick::Go) are played, or all ticks if no `Go` waits. At most 32 ticks,
    /// including these, may wait.
    pub fn play(&mut self, ticks: &[SoloTick])
        requires room { length self.old.waiting + length ticks.now ≤ MOST_TICKS }
        ensures { self.new ≡ record self.old { waiting = self.old.waiting ++ ticks.now } }
    {
        for tick in ticks {
            // There is room, so the call returns no tick that it dropped.
            let _ = self.waiting.push_back(copy_of(tick));
        }
    }

    /// Returns the number of ticks that wait to be played.
    pub fn waiting(&self) -> usize
        ensures count { result ≡ length self.now.waiting }
        ensures fits { result ≤ MOST_TICKS }
    {
        self.waiting.len()
    }

    /// Plays and removes all ticks that wait, such as those after a driver's last access, and skips each
    /// [`Go`](SoloTick::Go). No access is made or counted, and the outcomes and fates are dropped.
    pub fn finish(&mut self)
        ensures { PlaysSoloTicks (without_go is_solo_go self.old.waiting) [] self.old self.new }
    {
        while let Some(tick) = self.next_tick() {
            match tick {
                SoloTick::Go => {}
                SoloTick::Step(kind) => {
                    self.step(kind);
                }
                SoloTick::Arrive(frame) => {
                    self.arrive(frame.as_slice());
                }
            }
        }
    }

    /// Plays the ticks up to the next [`Go`](SoloTick::Go), and removes these ticks and this `Go`. If no `Go` waits,
    /// plays and removes all ticks.
    fn play_group(&mut self)
        ensures { PlaysSoloTicks (group_of is_solo_go self.old.waiting) (behind_group is_solo_go self.old.waiting)
            self.old self.new }
    {
        while let Some(tick) = self.next_tick() {
            match tick {
                SoloTick::Go => return,
                SoloTick::Step(kind) => {
                    self.step(kind);
                }
                SoloTick::Arrive(frame) => {
                    self.arrive(frame.as_slice());
                }
            }
        }
    }

    /// Plays the ticks of a lively bus before an access: a tick of the EEPROM, and then a tick of the PHY. If the bus
    /// isn't lively, plays no tick.
    fn live(&mut self)
        ensures { PlaysSoloTicks (lively_ticks self.old.lively) self.old.waiting self.old self.new }
    {
        if self.is_lively() {
            for kind in [StepKind::EepromTick, StepKind::PhyTick] {
                self.step(kind);
            }
        }
    }

    /// Counts an access, up to the greatest `u64`.
    fn count_access(&mut self)
        ensures { self.new ≡ record self.old { accesses = min (self.old.accesses + 1) most_accesses } }
    {
        self.accesses = self.accesses.saturating_add(1);
    }

    /// Plays the ticks that precede an access: first those of a lively bus (`live`), and then those that wait up to the
    /// next [`Go`](SoloTick::Go) (`play_group`). Counts the access, but doesn't make it.
    pub(crate) fn prepare(&mut self)
        ensures { Prepared self.old self.new }
    {
        self.live();
        self.play_group();
        self.count_access();
    }

    /// Returns whether the bus plays a tick of the EEPROM and a tick of the PHY before each access.
    pub fn is_lively(&self) -> bool
        ensures { result ≡ self.now.lively }
    {
        self.lively
    }

    /// Returns whether the adapter's interrupt line is asserted: some recorded cause is in the mask.
    pub fn line(&self) -> bool
        ensures { IsTrue result ↔ Meet self.now.world.adapter.causes.recorded self.now.world.adapter.causes.mask }
    {
        self.machine.line()
    }

    /// Returns the adapter and its memory. The ticks that wait and the frames on the wire are dropped.
    pub fn into_parts(self) -> (Adapter, HostMemory)
        ensures adapter { result.0 ≡ self.world.adapter }
        ensures memory { result.1 ≡ self.world.memory }
    {
        self.machine.into_parts()
    }

    /// Returns the number of bytes of memory.
    pub(crate) fn memory_size(&self) -> u64
        ensures { result ≡ length self.now.world.memory }
    {
        self.machine.size()
    }

    /// Returns the number of accesses so far, at most the greatest `u64`.
    pub(crate) fn access_count(&self) -> u64
        ensures { result ≡ self.now.accesses }
    {
        self.accesses
    }

    /// Reads a register. No tick is played before the read.
    pub(crate) fn read_now(&mut self, offset: u32) -> u32
        ensures answer { result ≡ answer_at offset self.old.world.adapter }
        ensures state { self.new ≡ record self.old { world = world_after_read offset self.old.world } }
        ensures adapter { IsAdapter self.old.world.adapter }
    {
        self.machine.read(offset)
    }

    /// Writes a register. No tick is played before the write.
    pub(crate) fn write_now(&mut self, offset: u32, value: u32)
        ensures state { self.new ≡ record self.old { world = world_after_write offset value self.old.world } }
        ensures adapter { IsAdapter self.old.world.adapter }
    {
        self.machine.write(offset, value);
    }

    /// Fills `into` with the bytes of memory from `address` on, which must be inside memory. No tick is played before
    /// the load.
    pub(crate) fn load_now(&self, address: u64, into: &mut [u8])
        requires lies { LiesIn self.now.world.memory address (length into.old) }
        ensures loaded { into.new ≡ bytes_at self.now.world.memory address (length into.old) }
        ensures adapter { IsAdapter self.now.world.adapter }
    {
        self.machine.load(address, into);
    }

    /// Stores bytes in memory from `address` on. Their range must be inside memory. No tick is played before the store.
    pub(crate) fn store_now(&mut self, address: u64, bytes: &[u8])
        requires lies { LiesIn self.old.world.memory address (length bytes.now) }
        ensures state { self.new ≡ record self.old { world = world_after_store address bytes.now self.old.world } }
        ensures adapter { IsAdapter self.old.world.adapter }
    {
        self.machine.store(address, bytes);
    }

    /// Removes and returns the first tick that waits. Returns `None` if no tick waits.
    fn next_tick(&mut self) -> Option<SoloTick>
        ensures next { result ≡ slice_get self.old.waiting 0 }
        ensures state { self.new ≡ record self.old { waiting = drop 1 self.old.waiting } }
    {
        self.waiting.pop_front()
    }
}

/// Returns a copy of a tick.
fn copy_of(tick: &SoloTick) -> SoloTick
    ensures { result ≡ tick.now }
{
    match tick {
        SoloTick::Go => SoloTick::Go,
        SoloTick::Step(kind) => SoloTick::Step(*kind),
        SoloTick::Arrive(frame) => SoloTick::Arrive(Frame::from_slice(frame.as_slice())),
    }
}
