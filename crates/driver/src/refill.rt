// How a driver stages and offers receive slots, and puts buffers back into its pool.

ghost use Rattle.std.specs.Prelude.{◌≡◌, ◌⊎◌, ◌+◌, ◌*◌, ◌<◌, ◌≤◌, ◌++◌, ◌∷◌, ℕ, [], length};
ghost use Rattle.std.specs.Bool.{OnFalse, OnTrue};
ghost use Rattle.dma_memory.specs.Layout.{descriptor_bytes, size_of};
ghost use Rattle.dma_memory.specs.Owners.{HasNoSecondOwner, HaveSameNumbers};
ghost use Rattle.descriptors.specs.RxDesc.{rx_desc_bytes};
ghost use Rattle.adapter.specs.Keeping.{Keeps};
ghost use Rattle.adapter.specs.bus_types.event.Access.TheVariants.{Writes};
ghost use Rattle.adapter.specs.Calls.{OffersAll, Runs, WhereReady, at, only, tail_write};
ghost use Rattle.adapter.specs.DriverState.{next_receive, owners, with_owners};
ghost use Rattle.adapter.specs.ReadyDrivers.{empty_descriptor};
ghost use Rattle.driver.specs.Parts.{buffers_in};
ghost use Rattle.driver.specs.RefillSteps.{OffersAfter, Refills, Stages, StagesSome, WhereHeld};

use crate::{Driver, Parts};
use adapter::Bus;
use adapter::offsets::RDT;
use bitflags::Flags;
use descriptors::{RxDesc, RxStatus};
use dma_memory::{DESCRIPTOR_BYTES, Pool};

/// Returns the address of a receive slot's descriptor. The receive ring begins at address 0.
pub(crate) fn receive_slot(slot: u16) -> u64
    ensures { result ≡ descriptor_bytes * slot }
{
    DESCRIPTOR_BYTES * u64::from(slot)
}

/// Returns a receive descriptor with the address of a buffer. The other fields are 0.
fn descriptor_of(buffer: u64) -> RxDesc
    ensures { rx_desc_bytes result ≡ empty_descriptor buffer }
{
    RxDesc {
        address: buffer,
        length: 0,
        checksum: 0,
        status: RxStatus::empty(),
        errors: 0,
        special: 0,
    }
}

/// Puts the buffers of these pieces back into the pool. The numbers of these buffers must be below the number of the
/// pool's buffers, and no buffer may be in the pool already, or in two pieces.
fn give_all(pool: &mut Pool, parts: Parts)
    requires { HasNoSecondOwner pool.old.buffers (buffers_in parts ++ pool.old.free) }
    ensures given { HaveSameNumbers (buffers_in parts ++ pool.old.free) pool.new.free }
    ensures buffers { pool.new.buffers ≡ pool.old.buffers }
{
    let mut left = parts;
    while let Some(part) = left.pop() {
        pool.give(part.buffer);
    }
}

impl Driver {
    /// Stages the next receive slot: stores its descriptor, with a free buffer. Returns `false`, and does nothing, if
    /// no buffer is free, or all receive slots except one are outstanding or staged. So at least one slot is neither
    /// outstanding nor staged (`room`).
    fn stage<B: Bus>(&mut self, bus: &mut B) -> bool
        requires memory { size_of self.old.layout ≤ B.extent bus.old }
        ensures keeps { Keeps B.Bus bus.old bus.new }
        ensures stages { OnTrue result ((number : ℕ)
            × Stages B.Bus (number ∷ []) (at bus.old self.old) (at bus.new self.new)) }
        ensures room { length self.new.buffers + length self.new.staged < self.new.layout.rx }
        ensures stays { OnFalse result (self.new ≡ self.old) }
        ensures still { OnFalse result (bus.new ≡ bus.old) }
        ensures full { OnFalse result
            ((self.new.pool ≡ []) ⊎ (length self.new.buffers + length self.new.staged + 1 ≡ self.new.layout.rx)) }
    {
        let count = self.layout.rx();
        // The queue contains the buffers of the outstanding and the staged slots.
        if self.buffers.len() + 1 == usize::from(count) {
            return false;
        }
        let Some(buffer) = self.pool.take() else {
            return false;
        };
        let descriptor = descriptor_of(self.layout.receive_buffer(buffer.number()));
        bus.store(receive_slot(self.next_receive), &descriptor.to_bytes());
        self.next_receive = (self.next_receive + 1) % count;
        // The queue has room for one buffer for each receive slot, so it drops no buffer.
        let _ = self.buffers.push_back(buffer);
        self.staged += 1;
        true
    }

    /// Stages receive slots until no buffer is free, or all receive slots except one are outstanding or staged.
    pub(crate) fn stage_all<B: Bus>(&mut self, bus: &mut B)
        requires memory { size_of self.old.layout ≤ B.extent bus.old }
        ensures keeps { Keeps B.Bus bus.old bus.new }
        ensures stages { StagesSome B.Bus (at bus.old self.old) (at bus.new self.new) }
        ensures room { length self.new.buffers + length self.new.staged < self.new.layout.rx }
        ensures full { (self.new.pool ≡ [])
            ⊎ (length self.new.buffers + length self.new.staged + 1 ≡ self.new.layout.rx) }
    {
        while self.stage(bus) {}
    }

    /// Offers all staged slots by one write of RDT. Writes RDT even if no slot is staged.
    pub(crate) fn offer_all<B: Bus>(&mut self, bus: &mut B)
        ensures keeps { Keeps B.Bus bus.old bus.new }
        ensures others { self.new ≡ with_owners self.old (self.old.buffers ++ self.old.staged) [] self.old.pool [] }
        ensures owners { HaveSameNumbers (owners self.old) (owners self.new) }
        ensures one_owner { HasNoSecondOwner self.new.layout.buffers (owners self.new) }
        ensures ran { Runs B.Bus (only (Writes RDT (next_receive self.old) ∷ []))
            (at bus.old self.old) (at bus.new self.new) }
    {
        bus.write(RDT, u32::from(self.next_receive));
        // The queue keeps the buffers of the staged slots, which now count as outstanding.
        self.staged = 0;
    }

    /// Offers all staged slots, as [`offer_all`](Driver::offer_all) does. If no slot is staged, there is no access.
    pub(crate) fn offer<B: Bus>(&mut self, bus: &mut B)
        ensures keeps { Keeps B.Bus bus.old bus.new }
        ensures others { self.new ≡ with_owners self.old (self.old.buffers ++ self.old.staged) [] self.old.pool [] }
        ensures owners { HaveSameNumbers (owners self.old) (owners self.new) }
        ensures one_owner { HasNoSecondOwner self.new.layout.buffers (owners self.new) }
        ensures ran { Runs B.Bus (only (tail_write (next_receive self.old) self.old.staged))
            (at bus.old self.old) (at bus.new self.new) }
    {
        if self.staged == 0 {
            return;
        }
        self.offer_all(bus);
    }

    /// Puts the buffers of a frame's pieces back into the pool. The numbers of these buffers must be below the number
    /// of the driver's buffers, and the buffers must have no other owner.
    pub(crate) fn put_back(&mut self, parts: Parts)
        requires one_owner { HasNoSecondOwner self.old.layout.buffers (buffers_in parts ++ owners self.old) }
        ensures others { self.new ≡ record self.old { pool = self.new.pool } }
        ensures back { HaveSameNumbers (buffers_in parts ++ self.old.pool) self.new.pool }
        ensures one_owner { HasNoSecondOwner self.new.layout.buffers (owners self.new) }
    {
        give_all(&mut self.pool, parts);
    }

    /// Offers receive slots with free buffers, until no buffer is free, or all slots except one are outstanding. The
    /// call stores the descriptors, and then writes RDT once if any slot is staged. `bus` must have at least
    /// `layout().size()` bytes.
    pub fn refill<B: Bus>(&mut self, bus: &mut B)
        requires memory { size_of self.old.layout ≤ B.extent bus.old }
        ensures keeps { Keeps B.Bus bus.old bus.new }
        ensures offers { OffersAll self.old self.new }
        ensures order { OffersAfter self.old self.new }
        ensures owners { HaveSameNumbers (owners self.old) (owners self.new) }
        ensures refills { WhereReady B.Bus (at bus.old self.old) (at bus.new self.new) (Refills B.Bus) }
    {
        self.stage_all(bus);
        self.offer(bus);
    }

    /// Takes back the buffers of a frame from its receiver: puts them into the pool, and refills the ring. The numbers
    /// of these buffers must be below the number of the driver's buffers, and the buffers must have no other owner.
    /// `bus` must have at least `layout().size()` bytes.
    ///
    /// If the bus obeys the law and the driver is ready, the accesses are those of [`refill`](Driver::refill). After
    /// the call, others hold no pieces in these buffers (`gives`).
    pub fn give<B: Bus>(&mut self, bus: &mut B, parts: Parts)
        requires memory { size_of self.old.layout ≤ B.extent bus.old }
        requires one_owner { HasNoSecondOwner self.old.layout.buffers (buffers_in parts ++ owners self.old) }
        ensures keeps { Keeps B.Bus bus.old bus.new }
        ensures offers { OffersAll self.old self.new }
        ensures owners { HaveSameNumbers (buffers_in parts ++ owners self.old) (owners self.new) }
        ensures gives { WhereHeld B.Bus parts (at bus.old self.old) (at bus.new self.new) (Refills B.Bus) }
    {
        self.put_back(parts);
        self.refill(bus);
    }
}
