// Accesses of a driver, and the steps that are played before each.

ghost use Rattle.std.specs.Prelude.{◌≡◌, ◌+◌, ◌≤◌, [], false, length, true};
ghost use Rattle.adapter.specs.bus_types.event.Access.TheVariants.{Loads, Reads, Stores, Writes};
ghost use Rattle.dma_memory.specs.HostMemory.{bytes_at};
ghost use Rattle.played_adapter.specs.Order.{Tells};
ghost use Rattle.played_adapter.specs.Playing.{Accessed, AnswersLoad, AnswersStore, HappensAlone, Prepares};
ghost use Rattle.played_adapter.specs.Playing.{access_counted, has_bytes};

use crate::observer::Observer;
use crate::player::PlayedAdapter;
use adapter::StepKind;

/// The ticks that are played before an access if ticks are on.
const TICKS: [StepKind; 2] = [StepKind::EepromTick, StepKind::PhyTick];

impl PlayedAdapter {
    /// Counts an access and returns `true` if ticks are off, no steps are drawn, and no step is scheduled: then nothing
    /// is played before the access. Otherwise changes nothing and returns `false`; there may still be nothing to play.
    #[inline(always)]
    fn count_if_quiet(&mut self) -> bool
        ensures quiet { result ≡ true → (self.old.ticks ≡ false) × (self.old.most_steps ≡ 0)
            × (self.old.scheduled.items ≡ []) × (self.new ≡ access_counted self.old) }
        ensures busy { result ≡ false → self.new ≡ self.old }
    {
        if self.ticks || self.most_steps != 0 || !self.scheduled.is_empty() {
            return false;
        }
        self.accesses = self.accesses.saturating_add(1);
        true
    }

    /// Plays the steps and arrivals before an access, and counts the access. Only the test and the count are inlined,
    /// so that an access with nothing to play before it is short.
    #[inline(always)]
    fn prepare<O: Observer>(&mut self, observer: &mut O)
        ensures { Tells O.heard observer.old observer.new (Prepares self.old self.new) }
    {
        if self.count_if_quiet() {
            return;
        }
        self.prepare_steps(observer);
    }

    /// Plays the ticks if they are on, the scheduled steps that are due, and what the generator draws, in this order.
    /// Then counts the access. This is [`prepare`](PlayedAdapter::prepare) without its test.
    #[inline(never)]
    fn prepare_steps<O: Observer>(&mut self, observer: &mut O)
        ensures { Tells O.heard observer.old observer.new (Prepares self.old self.new) }
    {
        if self.ticks {
            self.play(&TICKS, observer);
        }
        self.play_scheduled(observer);
        self.interleave_steps(observer);
        self.accesses = self.accesses.saturating_add(1);
    }

    /// Reads a register, and reports the read and then a change of the interrupt line, if there is one.
    #[inline(always)]
    pub(crate) fn read_now<O: Observer>(&mut self, offset: u32, observer: &mut O) -> u32
        ensures { Tells O.heard observer.old observer.new (HappensAlone (Reads offset result) self.old self.new) }
    {
        let value = self.machine.read(offset);
        observer.read(offset, value);
        self.report(observer);
        value
    }

    /// Writes a register, and reports the write and then a change of the interrupt line, if there is one.
    #[inline(always)]
    pub(crate) fn write_now<O: Observer>(&mut self, offset: u32, value: u32, observer: &mut O)
        ensures { Tells O.heard observer.old observer.new (HappensAlone (Writes offset value) self.old self.new) }
    {
        self.machine.write(offset, value);
        observer.written(offset, value);
        self.report(observer);
    }

    /// Fills `into` with the bytes of memory from an address on. Reports the load, and then a change of the interrupt
    /// line, if there is one. Memory must contain all of these bytes.
    pub(crate) fn load_now<O: Observer>(&mut self, address: u64, into: &mut [u8], observer: &mut O)
        requires { address + length into.old ≤ length self.old.machine.world.memory }
        ensures tells { Tells O.heard observer.old observer.new
            (HappensAlone (Loads address (length into.old)) self.old self.new) }
        ensures loaded { into.new ≡ bytes_at self.new.machine.world.memory address (length into.old) }
    {
        self.machine.load(address, into);
        observer.loaded(address, into);
        self.report(observer);
    }

    /// Stores bytes in memory from an address on. Reports the store, and then a change of the interrupt line, if there
    /// is one. Memory must contain all of their places.
    pub(crate) fn store_now<O: Observer>(&mut self, address: u64, bytes: &[u8], observer: &mut O)
        requires { address + length bytes.now ≤ length self.old.machine.world.memory }
        ensures { Tells O.heard observer.old observer.new (HappensAlone (Stores address bytes.now) self.old self.new) }
    {
        self.machine.store(address, bytes);
        observer.stored(address, bytes);
        self.report(observer);
    }

    /// Plays the steps and arrivals before an access, counts the access, and reads the register at an offset in bytes.
    /// Returns 0 if no register has this offset.
    #[inline(always)]
    pub fn read<O: Observer>(&mut self, offset: u32, observer: &mut O) -> u32
        ensures { Tells O.heard observer.old observer.new (Accessed (Reads offset result) self.old self.new) }
    {
        if self.count_if_quiet() {
            return self.read_now(offset, observer);
        }
        self.read_after_steps(offset, observer)
    }

    /// Does what [`read`](PlayedAdapter::read) does, without its test. It isn't inlined, so that `read` remains short.
    #[inline(never)]
    fn read_after_steps<O: Observer>(&mut self, offset: u32, observer: &mut O) -> u32
        ensures { Tells O.heard observer.old observer.new (Accessed (Reads offset result) self.old self.new) }
    {
        self.prepare_steps(observer);
        self.read_now(offset, observer)
    }

    /// Plays the steps and arrivals before an access, counts the access, and writes the register at an offset in bytes.
    /// If no register has this offset, the write does nothing.
    #[inline(always)]
    pub fn write<O: Observer>(&mut self, offset: u32, value: u32, observer: &mut O)
        ensures { Tells O.heard observer.old observer.new (Accessed (Writes offset value) self.old self.new) }
    {
        if self.count_if_quiet() {
            self.write_now(offset, value, observer);
            return;
        }
        self.write_after_steps(offset, value, observer);
    }

    /// Does what [`write`](PlayedAdapter::write) does, without its test. It isn't inlined, so that `write` remains
    /// short.
    #[inline(never)]
    fn write_after_steps<O: Observer>(&mut self, offset: u32, value: u32, observer: &mut O)
        ensures { Tells O.heard observer.old observer.new (Accessed (Writes offset value) self.old self.new) }
    {
        self.prepare_steps(observer);
        self.write_now(offset, value, observer);
    }

    /// Returns whether memory contains all of the `count` bytes from an address on.
    pub fn has_bytes(&self, address: u64, count: u64) -> bool
        ensures { result ≡ has_bytes self.now address count }
    {
        let size = self.machine.size();
        // `address + count` could overflow.
        count <= size && address <= size - count
    }

    /// Plays the steps and arrivals before an access, counts the access, and fills `into` with the bytes of memory from
    /// an address on. Returns `true`.
    ///
    /// If some of these bytes are outside memory, returns `false`, and nothing happens.
    pub fn load<O: Observer>(&mut self, address: u64, into: &mut [u8], observer: &mut O) -> bool
        ensures { Tells O.heard observer.old observer.new
            (AnswersLoad address into.old into.new result self.old self.new) }
    {
        if !self.has_bytes(address, into.len() as u64) {
            return false;
        }
        self.prepare(observer);
        self.load_now(address, into, observer);
        true
    }

    /// Plays the steps and arrivals before an access, counts the access, and stores bytes in memory from an address on.
    /// Returns `true`.
    ///
    /// If some of these places are outside memory, returns `false`, and nothing happens.
    pub fn store<O: Observer>(&mut self, address: u64, bytes: &[u8], observer: &mut O) -> bool
        ensures { Tells O.heard observer.old observer.new (AnswersStore address bytes.now result self.old self.new) }
    {
        if !self.has_bytes(address, bytes.len() as u64) {
            return false;
        }
        self.prepare(observer);
        self.store_now(address, bytes, observer);
        true
    }
}
