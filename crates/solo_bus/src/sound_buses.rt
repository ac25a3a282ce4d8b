//! Buses on which the conditions of the law hold, each in another state of its rings or of its frame.
//!
//! Each bus has a new adapter whose link is never up, and 4,096 bytes of memory. Memory is all zeros at first, so each
//! receive descriptor has the buffer at 0. The receive ring is at 2,048, the transmit ring at 2,176, and data to be
//! sent at 2,304. Each ring has eight slots. Slot 0 is the driver's oldest slot in both rings. The clauses `world`
//! state the exact world of each bus (`specs/SoundBuses.antt`), and the clauses `sound` that the conditions hold.

ghost use Rattle.std.specs.Prelude.{◌≡◌, IfOk};
ghost use Rattle.solo_bus.specs.SoundWorlds.{HasFinished, HasFramesInBuffer, HasFramesInRing, HasRings, HasPieceInWork};
ghost use Rattle.adapter_model.specs.Conditions.{Sound};
ghost use Rattle.solo_bus.specs.SoundBuses.{ready, finished_slot, resting, sending, taken, working};

use crate::SoloBus;
use adapter_model::offsets::{RCTL, RDBAL, RDLEN, RDT, TCTL, TDBAL, TDLEN, TDT};
use adapter_model::{Adapter, StepKind};
use dma_memory::HostMemory;
use eeprom::Image;
use mdic_phy::Link;
use std::alloc::{AllocError, Global};

/// The number of bytes of memory.
const MEMORY_BYTES: u64 = 4096;

/// The address of the receive ring, after the buffer at 0.
const RECEIVE_RING: u32 = 2048;

/// The address of the transmit ring.
const TRANSMIT_RING: u32 = 2176;

/// The number of bytes of a ring of eight slots.
const RING_BYTES: u32 = 128;

/// RCTL with EN and BAM, and buffers of 2,048 bytes.
const RECEIVE: u32 = 0x0000_8002;

/// TCTL with EN and PSP.
const TRANSMIT: u32 = 0x0000_000A;

/// A broadcast frame, which the filter accepts if RCTL.BAM is set.
const BROADCAST: [u8; 60] = [0xFF; 60];

/// A transmit descriptor of a frame of 60 bytes at address 2,304 (9 * 256), with EOP, IFCS and RS (0x0B).
const REQUEST: [u8; 16] = [0, 9, 0, 0, 0, 0, 0, 0, 60, 0, 0, 0x0B, 0, 0, 0, 0];

/// Returns a bus on which both rings are set up and the first receive slot is offered.
///
/// # Errors
///
/// Returns an error only if an allocation fails.
pub fn with_rings(alloc: Global, image: &Image) -> Result<SoloBus, AllocError>
    ensures world { IfOk result (λ bus. bus.world ≡ ready MEMORY_BYTES image.now) }
    ensures sound { IfOk result (λ bus. Sound 0 0 bus.world) }
    ensures rings { IfOk result (λ bus. HasRings bus.world) }
{
    let mut bus = with_idle_rings(alloc, image)?;
    bus.write_now(RDT, 1);
    Ok(bus)
}

/// Returns a bus with a piece of a received frame in progress: the whole frame is in memory, but its descriptor isn't
/// written back.
///
/// # Errors
///
/// Returns an error only if an allocation fails.
pub fn with_work(alloc: Global, image: &Image) -> Result<SoloBus, AllocError>
    ensures world { IfOk result (λ bus. bus.world ≡ working MEMORY_BYTES image.now) }
    ensures sound { IfOk result (λ bus. Sound 0 0 bus.world) }
    ensures work { IfOk result (λ bus. HasPieceInWork bus.world) }
{
    let mut bus = with_rings(alloc, image)?;
    // The frame is stored, and RxData moves all of it. The frame's fate and the outcome aren't needed.
    bus.arrive(&BROADCAST);
    bus.step(StepKind::RxData);
    Ok(bus)
}

/// Returns a bus with a finished receive slot, which contains a whole frame.
///
/// # Errors
///
/// Returns an error only if an allocation fails.
pub fn with_finished_slot(alloc: Global, image: &Image) -> Result<SoloBus, AllocError>
    ensures world { IfOk result (λ bus. bus.world ≡ finished_slot MEMORY_BYTES image.now) }
    ensures sound { IfOk result (λ bus. Sound 0 0 bus.world) }
    ensures finished { IfOk result (λ bus. HasFinished bus.world) }
{
    let mut bus = with_work(alloc, image)?;
    bus.step(StepKind::RxDone);
    Ok(bus)
}

/// Returns a bus with an offered transmit slot, which contains the descriptor of a frame to be sent.
///
/// # Errors
///
/// Returns an error only if an allocation fails.
pub fn with_frame_to_send(alloc: Global, image: &Image) -> Result<SoloBus, AllocError>
    ensures world { IfOk result (λ bus. bus.world ≡ sending MEMORY_BYTES image.now) }
    ensures sound { IfOk result (λ bus. Sound 0 0 bus.world) }
    ensures in_ring { IfOk result (λ bus. HasFramesInRing bus.world) }
{
    let mut bus = with_idle_rings(alloc, image)?;
    bus.store_now(u64::from(TRANSMIT_RING), &REQUEST);
    bus.write_now(TDT, 1);
    Ok(bus)
}

/// Returns a bus with a frame in the transmit packet buffer, taken from the first transmit slot.
///
/// # Errors
///
/// Returns an error only if an allocation fails.
pub fn with_buffered_frame(alloc: Global, image: &Image) -> Result<SoloBus, AllocError>
    ensures world { IfOk result (λ bus. bus.world ≡ taken MEMORY_BYTES image.now) }
    ensures sound { IfOk result (λ bus. Sound 0 0 bus.world) }
    ensures in_buffer { IfOk result (λ bus. HasFramesInBuffer bus.world) }
{
    let mut bus = with_frame_to_send(alloc, image)?;
    bus.step(StepKind::TxTake);
    Ok(bus)
}

/// Returns a bus on which both rings are set up, and no slot is offered. Returns an error only if an allocation fails.
fn with_idle_rings(alloc: Global, image: &Image) -> Result<SoloBus, AllocError>
    ensures { IfOk result (λ bus. bus.world ≡ resting MEMORY_BYTES image.now) }
{
    let adapter = Adapter::new(alloc, image, Link::Never)?;
    let memory = HostMemory::new(alloc, MEMORY_BYTES)?;
    // `false`: the bus isn't lively, so nothing happens before an access.
    let mut bus = SoloBus::new(alloc, adapter, memory, false)?;
    bus.write_now(RDBAL, RECEIVE_RING);
    bus.write_now(RDLEN, RING_BYTES);
    bus.write_now(TDBAL, TRANSMIT_RING);
    bus.write_now(TDLEN, RING_BYTES);
    bus.write_now(RCTL, RECEIVE);
    bus.write_now(TCTL, TRANSMIT);
    Ok(bus)
}
