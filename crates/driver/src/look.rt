// How a driver looks at its oldest receive slots.

ghost use Rattle.std.specs.Prelude.{◌≡◌, ◌↔◌, ◌+◌, ◌*◌, ◌^◌, ◌<◌, ◌≤◌, length};
ghost use Rattle.std.specs.Prelude.{min, slice_set, IfSome, IsTrue};
ghost use Rattle.dma_memory.specs.Layout.{size_of};
ghost use Rattle.dma_memory.specs.Owners.{HasNoSecondOwner};
ghost use Rattle.registers.specs.Bits.{is_set};
ghost use Rattle.descriptors.specs.RxStatus.{dd, eop, status_bits};
ghost use Rattle.adapter.specs.Keeping.{Keeps};
ghost use Rattle.adapter.specs.Calls.{WhereReady, at};
ghost use Rattle.adapter.specs.DriverState.{owners};
ghost use Rattle.driver.specs.Looks.{IsLookedRun, IsSoundPart, LooksAt, LooksAtPlace, greatest_length};
ghost use Rattle.driver.specs.Parts.{IsFrameSize};

use crate::Driver;
use crate::parts::MOST_PARTS;
use crate::refill::receive_slot;
use adapter::Bus;
use bitflags::Flags;
use descriptors::{LONGEST_LEGAL, RX_DESC_BYTES, RxDesc, RxStatus, SHORTEST_LEGAL};
use dma_memory::RECEIVE_BUFFER_BYTES;

/// A run: the oldest finished slots up to and including the first with EOP, or six slots without EOP.
#[derive(Clone, Copy)]
pub(crate) struct Run {
    /// The first `count` items are the lengths in the slots' descriptors; the other items are 0.
    pub lengths: [u16; MOST_PARTS],
    /// The number of slots.
    pub count: usize,
    /// The sum of the slots' lengths.
    pub length: u32,
    /// Whether the slots contain a whole frame: the last descriptor has EOP, and no descriptor has errors. Each buffer
    /// except the last is full, and the last isn't empty. The sum of the lengths is 60 to 1,518 bytes. Until
    /// [`look`](Driver::look) has seen the last slot: whether each slot may contain a piece of a whole frame.
    pub whole: bool,
}

/// Returns whether a descriptor has DD: the slot is finished.
fn is_done(descriptor: &RxDesc) -> bool
    ensures { result ≡ is_set (status_bits descriptor.now.status) dd }
{
    descriptor.status.contains(RxStatus::DD)
}

/// Returns whether a descriptor has EOP: a frame ends in the slot.
fn is_ended(descriptor: &RxDesc) -> bool
    ensures { result ≡ is_set (status_bits descriptor.now.status) eop }
{
    descriptor.status.contains(RxStatus::EOP)
}

/// Returns whether a slot with this descriptor may contain a piece of a whole frame: the descriptor has no errors, and
/// its length is 256 bytes without EOP, or 1 to 256 bytes with EOP.
fn is_sound(descriptor: &RxDesc) -> bool
    ensures { IsTrue result ↔ IsSoundPart descriptor.now }
{
    if descriptor.errors != 0 {
        return false;
    }
    if is_ended(descriptor) {
        1 <= descriptor.length && u64::from(descriptor.length) <= RECEIVE_BUFFER_BYTES
    } else {
        u64::from(descriptor.length) == RECEIVE_BUFFER_BYTES
    }
}

impl Run {
    /// Appends a slot with this descriptor. The run is no longer whole if the slot can't contain a piece of a whole
    /// frame. Before the call, the run must have fewer than six slots. Its length must be at most 65,535 bytes for each
    /// slot (`short`), so that the sum doesn't overflow.
    fn add(&mut self, descriptor: &RxDesc)
        requires room { self.old.count < MOST_PARTS }
        requires short { self.old.length ≤ greatest_length * self.old.count }
        ensures lengths { self.new.lengths ≡ slice_set self.old.lengths self.old.count descriptor.now.length }
        ensures count { self.new.count ≡ self.old.count + 1 }
        ensures length { self.new.length ≡ self.old.length + descriptor.now.length }
        ensures whole { IsTrue self.new.whole ↔ (IsSoundPart descriptor.now × IsTrue self.old.whole) }
    {
        self.whole = is_sound(descriptor) && self.whole;
        self.lengths[self.count] = descriptor.length;
        self.length += u32::from(descriptor.length);
        self.count += 1;
    }

    /// Returns whether each slot may contain a piece of a whole frame, and the sum of the lengths is 60 to 1,518 bytes.
    /// If the last descriptor has EOP, the run then contains a whole frame.
    fn is_frame(&self) -> bool
        ensures { IsTrue result ↔ (IsTrue self.now.whole × IsFrameSize self.now.length) }
    {
        self.whole && SHORTEST_LEGAL as u32 <= self.length && self.length <= LONGEST_LEGAL as u32
    }
}

impl Driver {
    /// Returns the number of outstanding receive slots. `one_owner` states a part of the driver's invariant: no receive
    /// buffer has two owners.
    fn outstanding(&self) -> usize
        ensures count { result ≡ length self.now.buffers }
        ensures one_owner { HasNoSecondOwner self.now.layout.buffers (owners self.now) }
    {
        self.buffers.len() - usize::from(self.staged)
    }

    /// Returns the number of slots that a look may load: all outstanding receive slots, but at most six.
    ///
    /// Two clauses state parts of the driver's invariant. The number of outstanding slots fits into `usize` (`fits`),
    /// and no receive buffer has two owners (`one_owner`).
    fn most_slots(&self) -> usize
        ensures count { result ≡ min (length self.now.buffers) MOST_PARTS }
        ensures fits { length self.now.buffers < 2 ^ 64 }
        ensures one_owner { HasNoSecondOwner self.now.layout.buffers (owners self.now) }
    {
        self.outstanding().min(MOST_PARTS)
    }

    /// Loads and returns the descriptor of the slot that is `places` places after the oldest slot. `places` must be
    /// below the number of outstanding slots. If the bus obeys the law and the driver is ready, there is no other
    /// access, and DD shows whether the slot is finished (`looks`).
    fn descriptor_after<B: Bus>(&self, bus: &mut B, places: usize) -> RxDesc
        requires memory { size_of self.now.layout ≤ B.extent bus.old }
        requires outstanding { places < length self.now.buffers }
        ensures keeps { Keeps B.Bus bus.old bus.new }
        ensures looks { WhereReady B.Bus (at bus.old self.now) (at bus.new self.now)
            (LooksAtPlace B.Bus places result) }
    {
        let mut bytes = [0; RX_DESC_BYTES];
        let count = usize::from(self.layout.rx());
        let slot = (usize::from(self.oldest_receive) + places) % count;
        bus.load(receive_slot(slot as u16), &mut bytes);
        RxDesc::from_bytes(&bytes)
    }

    /// Looks at the oldest outstanding slots, each by one load of its descriptor, up to and including the first slot
    /// with EOP. Returns these slots, or six slots without EOP. Six slots without EOP aren't a whole frame, because a
    /// frame has at most six pieces. Returns `None` if the call first reaches a slot that isn't finished or isn't
    /// outstanding. DD, EOP and the length of a slot come from the same load. No slot is taken.
    ///
    /// Two clauses follow from the driver's invariant, and state nothing of the look. The number of outstanding slots
    /// fits into `usize` (`fits`), and no receive buffer has two owners (`one_owner`).
    pub(crate) fn look<B: Bus>(&self, bus: &mut B) -> Option<Run>
        requires memory { size_of self.now.layout ≤ B.extent bus.old }
        ensures keeps { Keeps B.Bus bus.old bus.new }
        ensures finds { IfSome result (IsLookedRun (length self.now.buffers)) }
        ensures fits { length self.now.buffers < 2 ^ 64 }
        ensures one_owner { HasNoSecondOwner self.now.layout.buffers (owners self.now) }
        ensures looks { WhereReady B.Bus (at bus.old self.now) (at bus.new self.now) (LooksAt B.Bus result) }
    {
        let most = self.most_slots();
        let mut run = Run {
            lengths: [0; MOST_PARTS],
            count: 0,
            length: 0,
            whole: true,
        };
        while run.count < most {
            let descriptor = self.descriptor_after(bus, run.count);
            if !is_done(&descriptor) {
                return None;
            }
            run.add(&descriptor);
            if is_ended(&descriptor) {
                run.whole = run.is_frame();
                return Some(run);
            }
        }
        // If the run has fewer than six slots, all outstanding slots are finished, but no frame ends in them.
        if run.count < MOST_PARTS {
            return None;
        }
        // The run has six slots without EOP, so it isn't a whole frame.
        run.whole = false;
        Some(run)
    }
}
