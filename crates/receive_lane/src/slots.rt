//! The descriptors of a receive ring of 8, in a host's memory.
ghost use Rattle.std.specs.Prelude.{◌≡◌, ◌<◌, ◌*◌, length};
ghost use Rattle.dma_memory.specs.HostMemory.{with_bytes};
ghost use Rattle.descriptors.specs.RxDesc.{rx_desc_bytes};
ghost use Rattle.rx_engine.specs.Descriptors.{descriptor_at};
ghost use Rattle.receive_lane.specs.Lane.{slots, offered_descriptor, NameBuffers};

use bitflags::Flags;
use descriptors::{RX_DESC_BYTES, RxDesc, RxStatus};
use dma_memory::{HostMemory, Layout};

/// The number of descriptors of the ring.
pub const SLOTS: u16 = 8;

/// The number of a layout's receive buffers, of 256 bytes each, that make one slot's buffer of 2,048 bytes.
const BUFFERS_OF_SLOT: u16 = 8;

/// The number of receive buffers of the layout.
pub const BUFFERS: u16 = SLOTS * BUFFERS_OF_SLOT;

/// Returns the address of the descriptor of a slot, in the ring at address 0.
fn address_of(slot: u16) -> u64
    ensures { result ≡ 16 * slot }
{
    RX_DESC_BYTES as u64 * u64::from(slot)
}

/// Returns the descriptor of a slot, which must be below 8. Memory must have 34,816 bytes, the size of the layout.
pub fn load_desc(memory: &HostMemory, slot: u16) -> RxDesc
    requires slot { slot < slots }
    requires size { length memory.now ≡ 34816 }
    ensures { result ≡ descriptor_at memory.now (16 * slot) }
{
    let bytes = memory.view(address_of(slot), RX_DESC_BYTES).unwrap();
    RxDesc::from_bytes(bytes.first_chunk().unwrap())
}

/// Stores a descriptor without DD, which points to the buffer at address `buffer`, in a slot. Writes no tail, so the
/// call itself offers no slot. The slot must be below 8, and memory must have 34,816 bytes.
pub fn store_desc(memory: &mut HostMemory, slot: u16, buffer: u64)
    requires slot { slot < slots }
    requires size { length memory.old ≡ 34816 }
    ensures { memory.new ≡ with_bytes memory.old (16 * slot) (rx_desc_bytes (offered_descriptor buffer)) }
{
    let desc = RxDesc {
        address: buffer,
        length: 0,
        checksum: 0,
        status: RxStatus::from_bits_retain(0),
        errors: 0,
        special: 0,
    };
    memory.store(address_of(slot), &desc.to_bytes()).unwrap();
}

/// Stores the descriptor of each slot, which points to the slot's buffer: eight consecutive receive buffers of 256
/// bytes. Writes no tail, so the call offers no slot. The layout must have rings of 8 slots and 64 receive buffers, and
/// memory must have the 34,816 bytes that this layout needs.
pub fn store_all_descs(memory: &mut HostMemory, layout: &Layout)
    requires layout { layout.now ≡ record { rx = 8; tx = 8; buffers = 64 } }
    requires size { length memory.old ≡ 34816 }
    ensures size { length memory.new ≡ 34816 }
    ensures buffers { NameBuffers memory.new }
{
    for slot in 0..SLOTS {
        store_desc(memory, slot, layout.receive_buffer(slot * BUFFERS_OF_SLOT));
    }
}
