// The bus with its ghost members, and the honest bus, which counts its accesses.

ghost use Rattle.std.specs.Prelude.{◌≡◌, ◌+◌, ◌≤◌, ℕ, length, min};
ghost use Rattle.adapter_model.specs.Registers.{answer_at};
ghost use Rattle.bus.specs.BusMembers.{Composes, KeepsProperties};
ghost use Rattle.bus.specs.Law.{Acts, view};
ghost use Rattle.bus.specs.Pasts.{Past};
ghost use Rattle.bus.specs.declared.event.Access.TheVariants.{Loads, Reads, Stores, Writes};
ghost use Rattle.adapter_model.specs.World.{World, world_after_read, world_after_store, world_after_write};
ghost use Rattle.dma_memory.specs.HostMemory.{bytes_at};

/// The interface through which a driver accesses its adapter and its memory. Each call except [`size`](Bus::size) is
/// one access.
///
/// Any type may implement `Bus`. By the clauses `keeps`, an access changes neither the size of memory nor the values
/// lent to the bus. An honest bus remains honest, and a lively bus remains lively. A bus that isn't `honest` may return
/// any values from reads and loads.
///
/// By the clauses `acts`, an honest bus has one adapter and one memory. Before an access, only steps of the adapter and
/// deliveries may happen. Then the access itself has exactly the effect that adapter and memory define. In a clause
/// `acts`, `before` is the world after these steps and deliveries, not the world of `self.old`. `after` is the world of
/// `self.new`.
pub trait Bus {
    /// The number of bytes of memory.
    ghost extent: { Self → ℕ };

    /// Whether the bus obeys the law.
    ghost honest: { Self → Type 0 };

    /// Whether the bus plays a tick of the EEPROM and a tick of the PHY before each access.
    ghost lively: { Self → Type 0 };

    /// The memory and the adapter.
    ghost world: { Self → World };

    /// Whether the bus reports that exactly this happened in the interval from one of its states to another.
    ghost happened: { Self → Self → Past → Type 0 };

    /// Whether the values that were lent to the bus, if any, are the same in both states.
    ghost lent_stays: { Self → Self → Type 0 };

    /// Returns the number of bytes of memory, which never changes.
    fn size(&self) -> u64
        ensures { result ≡ extent self.now };

    /// Reads the register at an offset in bytes, and returns its value.
    fn read(&mut self, offset: u32) -> u32
        ensures keeps { KeepsProperties extent lent_stays honest lively self.old self.new }
        ensures acts { honest self.old → Acts (view world happened lively) self.old self.new (Reads offset result)
            (λ before after. (result ≡ answer_at offset before.adapter) × (after ≡ world_after_read offset before)) };

    /// Writes the register at an offset in bytes.
    fn write(&mut self, offset: u32, value: u32)
        ensures keeps { KeepsProperties extent lent_stays honest lively self.old self.new }
        ensures acts { honest self.old → Acts (view world happened lively) self.old self.new (Writes offset value)
            (λ before after. after ≡ world_after_write offset value before) };

    /// Fills `into` with the bytes from `address` on. The bytes must be at addresses below [`size`](Bus::size).
    fn load(&mut self, address: u64, into: &mut [u8])
        requires { address + length into.old ≤ extent self.old }
        ensures keeps { KeepsProperties extent lent_stays honest lively self.old self.new }
        ensures length { length into.new ≡ length into.old }
        ensures acts { honest self.old → Acts (view world happened lively) self.old self.new
            (Loads address (length into.old))
            (λ before after. (into.new ≡ bytes_at before.memory address (length into.old)) × (after ≡ before)) };

    /// Stores `bytes` from `address` on. The bytes must be at addresses below [`size`](Bus::size).
    fn store(&mut self, address: u64, bytes: &[u8])
        requires { address + length bytes.now ≤ extent self.old }
        ensures keeps { KeepsProperties extent lent_stays honest lively self.old self.new }
        ensures acts { honest self.old → Acts (view world happened lively) self.old self.new (Stores address bytes.now)
            (λ before after. after ≡ world_after_store address bytes.now before) };

    /// Reports of consecutive intervals compose, and so do the statements of `lent_stays`.
    ghost composes: { Composes happened lent_stays };

    /// The memory of an honest bus has the size that [`size`](Bus::size) returns.
    ghost sized: { (b : Self) → honest b → length (world b).memory ≡ extent b };
}

/// A bus that obeys the law, and counts its accesses.
pub trait HonestBus: Bus {
    ghost use Rattle.bus.specs.LivelyBuses.{most_accesses};

    /// The number of accesses so far, up to the greatest `u64`.
    ghost counted: { Self → ℕ };

    /// Returns the number of accesses so far. The count saturates at the greatest `u64`.
    fn accesses(&self) -> u64
        ensures { result ≡ counted self.now };

    /// The bus is honest in every state.
    ghost always: { (b : Self) → Self.honest b };

    /// Each access increases the count by one, up to the greatest `u64`. Nothing else changes the count.
    ghost counts: { (a b : Self) (past : Past) → Self.happened a b past
        → counted b ≡ min (counted a + length past.accesses) most_accesses };
}
