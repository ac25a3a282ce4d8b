// A driver's state, and the functions that return its layout and its counts.

ghost use Rattle.std.specs.Prelude.{◌≡◌, ◌+◌, ◌<◌, IsTrue, length};
ghost use Rattle.registers.specs.Counting.{greatest_count};
ghost use Rattle.dma_memory.specs.Owners.{HasNoSecondOwner};
ghost use Rattle.adapter.specs.DriverState.{owners, DriverState};
ghost use Rattle.driver.specs.InsideDriver.{IsConsistentDriver, driver_state_of};

use crate::setup::Setup;
use bring_up::Groups;
use circular_buffer::HeapCircularBuffer;
use dma_memory::{BufId, Layout, Pool};
use std::marker::Model;

/// A driver: the places of its rings and buffers, its outstanding and staged slots, its free buffers, its counts, its
/// joined groups and its setup.
///
/// A slot of the receive ring is staged if its descriptor is stored, but the slot isn't offered yet. At least one
/// receive slot is neither outstanding nor staged, and at least one transmit slot isn't outstanding.
#[derive(Drop)]
pub struct Driver {
    pub(crate) layout: Layout,
    /// The place of the oldest outstanding receive slot, or of the next slot to be offered if no slot is outstanding.
    pub(crate) oldest_receive: u16,
    /// The place of the receive slot whose descriptor is stored next.
    pub(crate) next_receive: u16,
    /// The buffers of the outstanding receive slots, the oldest first, and then those of the staged slots.
    pub(crate) buffers: HeapCircularBuffer<BufId>,
    /// The number of staged slots.
    pub(crate) staged: u16,
    pub(crate) pool: Pool,
    /// The place of the oldest outstanding transmit slot, or of the next slot to be offered if no slot is outstanding.
    pub(crate) oldest_transmit: u16,
    /// The place of the next transmit slot to be offered.
    pub(crate) next_transmit: u16,
    /// The number of outstanding transmit slots.
    pub(crate) sending: u16,
    /// The sum of the values read from MPC; it saturates at the greatest `u64`.
    pub(crate) missed: u64,
    /// Whether the sum is exact: no value read from MPC was MPC's greatest value, and the sum never saturated.
    pub(crate) exact: bool,
    /// The number of bad runs: runs of finished slots that didn't contain a whole frame, and weren't delivered. The
    /// number saturates at the greatest `u64`.
    pub(crate) bad: u64,
    /// The multicast groups that the driver has joined.
    pub(crate) groups: Groups,
    pub(crate) setup: Setup,
}

impl Model for Driver {
    ghost Value = { DriverState };

    ghost view = { driver_state_of };

    ghost invariant = { IsConsistentDriver };
}

impl Driver {
    /// Returns the places of the driver's rings and buffers, and the size of the memory that they need.
    pub fn layout(&self) -> Layout
        ensures { result ≡ self.now.layout }
    {
        self.layout
    }

    /// Returns the number of receive slots that are outstanding or staged. `one_owner` states a part of the driver's
    /// invariant: no receive buffer has two owners.
    pub fn receiving(&self) -> usize
        ensures count { result ≡ length self.now.buffers + length self.now.staged }
        ensures one_owner { HasNoSecondOwner self.now.layout.buffers (owners self.now) }
    {
        self.buffers.len()
    }

    /// Returns the number of outstanding transmit slots.
    pub fn sending(&self) -> u16
        ensures { result ≡ self.now.sending }
    {
        self.sending
    }

    /// Returns the sum of all values read from MPC, up to the greatest `u64`, and whether this sum is exact. A sum
    /// below 0xFFFF_FFFF is exact. If the sum isn't exact, more frames than the sum may have been missed before the
    /// last read of MPC.
    pub fn missed(&self) -> (u64, bool)
        ensures sum { result.0 ≡ self.now.missed }
        ensures exact { result.1 ≡ self.now.exact }
        ensures small { result.0 < greatest_count → IsTrue result.1 }
    {
        (self.missed, self.exact)
    }

    /// Returns the number of runs of finished slots that weren't delivered, because they didn't contain a whole frame
    /// of 60 to 1,518 bytes. The number saturates at the greatest `u64`. If the bus obeys the law and the driver is
    /// ready, no such run occurs.
    pub fn bad(&self) -> u64
        ensures { result ≡ self.now.bad }
    {
        self.bad
    }
}
