//! An adapter that receives into a host's memory, with the driver that empties its ring.
ghost use Rattle.std.specs.Prelude.{◌≡◌, ◌↔◌, ◌+◌, ◌*◌, ◌%◌, true, IsTrue, IfOk};
ghost use Rattle.descriptors.specs.Frames.{padded, is_sendable, IsLegal};
ghost use Rattle.descriptors.specs.RxStatus.{status_bits};
ghost use Rattle.rx_engine.specs.Descriptors.{descriptor_at};
ghost use Rattle.rx_filter.specs.Laws.{SameSets};
ghost use Rattle.rx_filter.specs.Passing.{Passes};
ghost use Rattle.rx_filter.specs.Registers.{filter_of};
ghost use Rattle.adapter.specs.Receiving.{after_data, after_done, memory_after_data_step, memory_after_done_step};
ghost use Rattle.adapter.specs.Receiving.{is_last_piece, CanMovePiece, HasFrameAndDescriptor};
ghost use Rattle.adapter.specs.model_types.outcome.Outcome.TheVariants.{Moved, Done};
ghost use Rattle.receive_lane.specs.Lane.{ring_at, slot_bytes, slot_desc, HasFrame, IsWaiting};
ghost use Rattle.receive_lane.specs.Options.{filter_for, HasVlanNumber};

use crate::choosing::{mode_of, write_filter};
use crate::filter::PassFilter;
use crate::slots::{BUFFERS, SLOTS, load_desc, store_all_descs, store_desc};
use adapter::offsets::{RCTL, RDBAH, RDBAL, RDH, RDLEN, RDT};
use adapter::{Adapter, Fate, StepKind};
use bitflags::Flags;
use descriptors::{RX_DESC_BYTES, RxDesc, SHORTEST_LEGAL};
use dma_memory::{HostMemory, Layout};
use eeprom::Image;
use mdic_phy::Link;
use std::alloc::{AllocError, Global};
use std::marker::Model;

/// The address in the EEPROM. It is the receive address until `write_filter` writes RAL(0) and RAH(0).
const OWN_ADDRESS: [u8; 6] = [0x02, 0, 0, 0, 0, 0x01];

/// The mask of an address's low 32 bits.
const LOW_WORD: u64 = 0xFFFF_FFFF;

/// An adapter whose filter is set for a pass, the host's memory that it receives into, and the slot that its driver
/// reads next. The ring has 8 descriptors, each with its buffer. If no frame waits for the driver, the adapter owns all
/// slots except the slot before the driver's.
#[derive(Drop)]
pub struct ReceiveLane {
    adapter: Adapter,
    memory: HostMemory,
    /// The slot that the driver reads next.
    slot: u16,
}

impl Model for ReceiveLane {
    ghost use Rattle.receive_lane.specs.Lane.{LaneState, IsLane};

    ghost Value = { LaneState };

    ghost view = { λ lane. record { adapter = lane.adapter; memory = lane.memory; slot = lane.slot } };

    ghost invariant = { λ lane. IsLane (record { adapter = lane.adapter; memory = lane.memory; slot = lane.slot }) };
}

/// Writes the registers of the receive ring: the adapter owns all descriptors except the last one. The layout's receive
/// ring must have 8 descriptors; it is at address 0.
fn write_ring(adapter: &mut Adapter, layout: &Layout)
    requires { layout.now.rx ≡ 8 }
    ensures { adapter.new ≡ record adapter.old { receive_ring = ring_at 0 0 } }
{
    let base = layout.receive_ring();
    adapter.write(RDBAL, (base & LOW_WORD) as u32);
    adapter.write(RDBAH, (base >> 32) as u32);
    adapter.write(RDLEN, RX_DESC_BYTES as u32 * u32::from(layout.rx()));
    adapter.write(RDH, 0);
    adapter.write(RDT, u32::from(SLOTS - 1));
}

/// Plays the two steps of the oldest frame in the packet buffer: RxData moves the frame to memory in one piece, and
/// RxDone writes back the descriptor.
///
/// There must be such a frame and an offered descriptor. RCTL.EN must be set, no piece may be in progress, and no fault
/// may have stopped the data steps (`frame`). RDH and RDT must be indices of slots, and RCTL.BSEX must be 0. The
/// descriptor, and the bytes of its buffer that the frame fills, must be inside memory (`place`). The frame must fit
/// into the buffer, so the next piece is its last (`last`).
fn finish_frame(adapter: &mut Adapter, memory: &mut HostMemory)
    requires frame { HasFrameAndDescriptor adapter.old }
    requires place { CanMovePiece memory.old adapter.old }
    requires last { is_last_piece adapter.old ≡ true }
    ensures adapter { adapter.new ≡ after_done Done (after_data Moved adapter.old) }
    ensures memory { memory.new
        ≡ memory_after_done_step (memory_after_data_step Moved memory.old adapter.old)
        (after_data Moved adapter.old) }
{
    // The preconditions make both outcomes known, so they are dropped. Receive steps don't use the wire (`false`).
    let _ = adapter.step_unframed(StepKind::RxData, memory, false);
    let _ = adapter.step_unframed(StepKind::RxDone, memory, false);
}

impl ReceiveLane {
    /// Returns a lane whose adapter receives the frames that these options accept, and which waits for a frame
    /// (`IsWaiting`). A given VLAN must be at most 4095. The adapter's link is never up; arrivals don't depend on the
    /// link.
    ///
    /// # Errors
    ///
    /// Only if memory is refused.
    pub fn new(alloc: Global, options: &PassFilter) -> Result<ReceiveLane, AllocError>
        requires { HasVlanNumber options.now }
        ensures filter { IfOk result (λ lane. SameSets (filter_of lane.adapter.filter) (filter_for options.now)) }
        ensures waiting { IfOk result IsWaiting }
    {
        // This layout is allowed: rings of 8 descriptors, and 64 receive buffers. So `of` doesn't fail.
        let layout = Layout::of(SLOTS, SLOTS, BUFFERS).unwrap();
        let mut memory = HostMemory::new(alloc, layout.size())?;
        store_all_descs(&mut memory, &layout);
        let image = Image::with_address(OWN_ADDRESS);
        let mut adapter = Adapter::new(alloc, &image, Link::Never)?;
        write_filter(&mut adapter, options);
        write_ring(&mut adapter, &layout);
        adapter.write(RCTL, mode_of(options).bits());
        Ok(ReceiveLane {
            adapter,
            memory,
            slot: 0,
        })
    }

    /// Lets a frame of 14 to 1,518 bytes arrive, padded with zeros to at least 60 bytes. The lane must wait for a frame
    /// (`IsWaiting`). Returns whether the adapter received the frame. If so, the descriptor at the driver's slot is
    /// finished; otherwise the lane doesn't change.
    pub fn receive(&mut self, frame: &[u8]) -> bool
        requires sendable { IsTrue (is_sendable frame.now) }
        requires waiting { IsWaiting self.old }
        ensures passes { IsTrue result ↔ Passes (filter_of self.old.adapter.filter) (padded frame.now) }
        ensures finished { IsTrue result → HasFrame self.new (padded frame.now) }
        ensures left { ¬ (IsTrue result) → self.new ≡ self.old }
        ensures filter { self.new.adapter.filter ≡ self.old.adapter.filter }
    {
        if frame.len() < SHORTEST_LEGAL {
            let mut padded = [0; SHORTEST_LEGAL];
            padded[..frame.len()].copy_from_slice(frame);
            return self.arrive(&padded);
        }
        self.arrive(frame)
    }

    /// Does what [`receive`](ReceiveLane::receive) does, for a frame of 60 to 1,518 bytes. The fate is Stored or
    /// Filtered, because the adapter receives, the frame is legal, and the packet buffer is empty.
    fn arrive(&mut self, frame: &[u8]) -> bool
        requires legal { IsLegal frame.now }
        requires waiting { IsWaiting self.old }
        ensures passes { IsTrue result ↔ Passes (filter_of self.old.adapter.filter) frame.now }
        ensures finished { IsTrue result → HasFrame self.new frame.now }
        ensures left { ¬ (IsTrue result) → self.new ≡ self.old }
        ensures filter { self.new.adapter.filter ≡ self.old.adapter.filter }
    {
        match self.adapter.arrive(frame) {
            Fate::Stored => {
                finish_frame(&mut self.adapter, &mut self.memory);
                true
            }
            Fate::Off | Fate::Illegal | Fate::Filtered | Fate::Missed => false,
        }
    }

    /// Returns the descriptor at the driver's slot.
    pub fn descriptor(&self) -> RxDesc
        ensures { result ≡ slot_desc self.now }
    {
        load_desc(&self.memory, self.slot)
    }

    /// Returns the frame at the driver's slot, as a slice of the host's memory. The slot's descriptor must be finished.
    pub fn received(&self) -> &[u8]
        requires { HasFrame self.now (slot_bytes self.now) }
        ensures { result.now ≡ slot_bytes self.now }
    {
        let desc = self.descriptor();
        self.memory
            .view(desc.address, usize::from(desc.length))
            .unwrap()
    }

    /// Stores the descriptor at the driver's slot again, without DD and with the same buffer. Then writes this slot to
    /// the tail, which offers the slot before it, and moves the driver to the next slot. Before the call, the
    /// descriptor must be finished. After the call, the lane waits for a frame.
    pub fn offer(&mut self)
        requires { HasFrame self.old (slot_bytes self.old) }
        ensures next { self.new.slot ≡ (self.old.slot + 1) % 8 }
        // The stored descriptor has no status bit, so DD is 0.
        ensures offered { status_bits (descriptor_at self.new.memory (16 * self.old.slot)).status ≡ 0 }
        ensures waiting { IsWaiting self.new }
        ensures filter { self.new.adapter.filter ≡ self.old.adapter.filter }
    {
        let buffer = self.descriptor().address;
        store_desc(&mut self.memory, self.slot, buffer);
        self.adapter.write(RDT, u32::from(self.slot));
        self.slot = (self.slot + 1) % SLOTS;
    }
}
