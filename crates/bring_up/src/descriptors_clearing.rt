//! How descriptors are cleared, so that no descriptor has DD set by old bytes in memory.

ghost use Rattle.std.specs.Prelude.{◌≡◌, ◌+◌, ◌*◌, ◌<◌, ◌≤◌, ℕ, Bool, false, length};
ghost use Rattle.dma_memory.specs.Layout.{descriptor_bytes};
ghost use Rattle.adapter.specs.Keeping.{Keeps};
ghost use Rattle.adapter.specs.Calls.{IsReadyOver, Ran, at, only};
ghost use Rattle.adapter.specs.DriverState.{DriverState, address_limit, receive_slot, transmit_slot};
ghost use Rattle.bring_up.specs.ClearedDescriptors.{clears_from};

use adapter::Bus;
use dma_memory::DESCRIPTOR_BYTES;

/// The 16 bytes of a cleared descriptor, all 0.
const CLEAR: [u8; 16] = [0; 16];

/// Clears `count` descriptors from the address `first` on, by one store each. The descriptors must be inside memory,
/// and end below address 2^64. A driver that is ready remains ready in two cases.
/// - `ran`: the descriptors are the first descriptors of the transmit ring, and the transmit side is off.
/// - `spare`: the descriptors are those of receive slots that are neither outstanding nor staged, and the driver's
///   oldest receive slot is slot 0.
pub fn clear_descriptors<B: Bus>(bus: &mut B, first: u64, count: u16)
    requires memory { first + descriptor_bytes * count ≤ B.extent bus.old }
    requires addresses { first + descriptor_bytes * count < address_limit }
    ensures keeps { Keeps B.Bus bus.old bus.new }
    ensures ran { (d : DriverState) → IsReadyOver B.Bus false (at bus.old d)
        → first ≡ transmit_slot d.layout 0 → count ≤ d.layout.tx
        → Ran B.Bus false (only (clears_from first count)) (at bus.old d) (at bus.new d) }
    ensures spare { (up : Bool) (d : DriverState) (slot : ℕ) → IsReadyOver B.Bus up (at bus.old d)
        → d.oldest_receive ≡ 0 → length d.buffers + length d.staged ≤ slot → slot + count ≤ d.layout.rx
        → first ≡ receive_slot slot
        → Ran B.Bus up (only (clears_from first count)) (at bus.old d) (at bus.new d) }
{
    for slot in 0..count {
        bus.store(first + DESCRIPTOR_BYTES * u64::from(slot), &CLEAR);
    }
}
