// Resetting an adapter that is running.

ghost use Rattle.std.specs.Prelude.{◌≡◌, ◌≤◌, ◌<◌, ◌+◌, ◌++◌, [], length};
ghost use Rattle.dma_memory.specs.Layout.{size_of};
ghost use Rattle.dma_memory.specs.Owners.{HasNoSecondOwner, HaveSameNumbers};
ghost use Rattle.adapter.specs.Keeping.{Keeps};
ghost use Rattle.adapter.specs.Calls.{WhereReady, at};
ghost use Rattle.adapter.specs.DriverState.{owners};
ghost use Rattle.adapter.specs.Resets.{reset_driver};
ghost use Rattle.driver.specs.Resetting.{OffersFree, Resets};

use crate::Driver;
use crate::init::{place_of, set_up_transmitter};
use crate::refill::receive_slot;
use adapter::Bus;
use bring_up::{
    FilterModes, allocate_packet_buffer, clear_descriptors, disable_receiver, enable_interrupts,
    enable_receiver, named_vlans, reset_device, set_filter, set_link_up, set_receive_ring,
};
use circular_buffer::HeapCircularBuffer;
use dma_memory::{BufId, Pool};

/// Removes all buffers from the queue, and puts them back into the pool. The numbers of these buffers must be below the
/// number of the pool's buffers, and no buffer may have two owners.
fn give_buffers(pool: &mut Pool, buffers: &mut HeapCircularBuffer<BufId>)
    requires { HasNoSecondOwner pool.old.buffers (pool.old.free ++ buffers.old.items) }
    ensures none { buffers.new.items ≡ [] }
    ensures capacity { buffers.new.capacity ≡ buffers.old.capacity }
    ensures given { HaveSameNumbers (pool.old.free ++ buffers.old.items) pool.new.free }
    ensures buffers { pool.new.buffers ≡ pool.old.buffers }
{
    while let Some(buffer) = buffers.pop_front() {
        pool.give(buffer);
    }
}

impl Driver {
    /// Returns the place of the oldest outstanding receive slot, or of the next receive slot to be offered if no slot
    /// is outstanding. A reset drops the received frames in the slots from this place on.
    pub fn oldest(&self) -> u16
        ensures { result ≡ self.now.oldest_receive }
    {
        self.oldest_receive
    }

    /// Forgets all outstanding and staged slots, as the adapter does at a reset. Puts the buffers of the receive slots
    /// into the pool. The next slot of each ring is then slot 0.
    fn forget_slots(&mut self)
        ensures others { self.new ≡ reset_driver self.new.pool self.old }
        ensures pool { HaveSameNumbers (self.old.pool ++ (self.old.buffers ++ self.old.staged)) self.new.pool }
    {
        give_buffers(&mut self.pool, &mut self.buffers);
        self.oldest_receive = 0;
        self.next_receive = 0;
        self.staged = 0;
        self.oldest_transmit = 0;
        self.next_transmit = 0;
        self.sending = 0;
    }

    /// Stages receive slots until no buffer is free, or only one slot isn't staged. Clears the descriptors of the other
    /// slots, and then offers the staged slots. Writes RDT even if no slot is staged. Before the call, no receive slot
    /// may be outstanding or staged, and the next slot to be offered must be slot 0.
    pub(crate) fn offer_free<B: Bus>(&mut self, bus: &mut B)
        requires memory { size_of self.old.layout ≤ B.extent bus.old }
        requires first { self.old.oldest_receive ≡ 0 }
        requires none_out { self.old.buffers ≡ [] }
        requires none_staged { self.old.staged ≡ [] }
        ensures keeps { Keeps B.Bus bus.old bus.new }
        ensures offers { OffersFree B.Bus (at bus.old self.old) (at bus.new self.new) }
    {
        self.stage_all(bus);
        // At least one receive slot isn't staged, so the difference doesn't wrap.
        let spare = self.layout.rx() - self.staged;
        clear_descriptors(bus, receive_slot(self.staged), spare);
        self.offer_all(bus);
    }

    /// Resets the adapter and sets it up again as [`init`](Driver::init) did, with the groups joined now. Before the
    /// reset, the call disables the receiver, and adds MPC to the sum of missed frames. Unlike `init`, the call doesn't
    /// read the EEPROM, and doesn't wait for the link. If the link is up and no MDIC command is pending, the link
    /// remains up.
    ///
    /// Frames that are still to be sent, and frames that the driver hasn't taken, are lost. Frames that a receiver kept
    /// are still in their buffers. The call allocates no memory, and can't fail. `bus` must have at least
    /// `layout().size()` bytes.
    pub fn reset<B: Bus>(&mut self, bus: &mut B)
        requires memory { size_of self.old.layout ≤ B.extent bus.old }
        ensures keeps { Keeps B.Bus bus.old bus.new }
        ensures layout { self.new.layout ≡ self.old.layout }
        ensures setup { self.new.setup ≡ self.old.setup }
        ensures groups { self.new.groups ≡ self.old.groups }
        ensures owners { HaveSameNumbers (owners self.old) (owners self.new) }
        ensures resets { WhereReady B.Bus (at bus.old self.old) (at bus.new self.new) (Resets B.Bus) }
    {
        disable_receiver(bus);
        self.count_missed(bus);
        reset_device(bus);
        self.forget_slots();
        allocate_packet_buffer(bus, self.setup.rxa);
        set_link_up(bus);
        let vlans = named_vlans(&self.setup.vlans);
        set_filter(bus, self.groups.as_slice(), vlans, &self.setup.address);
        let layout = self.layout;
        set_receive_ring(bus, place_of(layout.receive_ring(), layout.rx()));
        let modes = FilterModes {
            promiscuous: self.setup.promiscuous,
            by_vlan: self.setup.vlans.is_some(),
        };
        self.offer_free(bus);
        enable_receiver(bus, modes);
        set_up_transmitter(bus, layout);
        enable_interrupts(bus);
    }
}
