// The target at an address in memory.

ghost use Rattle.std.specs.Prelude.{◌≡◌};
ghost use Rattle.access_names.specs.Rings.{ring_of_engine};
ghost use Rattle.access_names.specs.Targets.{memory_target_in, target_in_ring};

use crate::target::Target;
use crate::{Engine, RingWords};
use adapter::Machine;
use descriptors::RX_DESC_BYTES;

/// The size of a descriptor of either ring, in bytes.
const DESCRIPTOR_BYTES: u64 = RX_DESC_BYTES as u64;

/// Returns the target of an access at this address in memory.
///
/// If the address is in the receive ring, the target is a byte of a descriptor in this ring. Otherwise, if the address
/// is in the transmit ring, the target is a byte of a descriptor in that ring. In any other case, the target is a byte
/// of memory.
pub fn memory_target(machine: &Machine, address: u64) -> Target
    ensures target { result ≡ memory_target_in machine.now.world.adapter address }
{
    if let Some(descriptor) = target_in_ring(machine, Engine::Receive, address) {
        return descriptor;
    }
    if let Some(descriptor) = target_in_ring(machine, Engine::Transmit, address) {
        return descriptor;
    }
    Target::Memory(address)
}

/// Returns the byte of a descriptor at this address in an engine's ring, or `None` if the address isn't in the ring.
fn target_in_ring(machine: &Machine, engine: Engine, address: u64) -> Option<Target>
    ensures target { result ≡ target_in_ring engine (ring_of_engine engine machine.now.world) address }
{
    let ring = RingWords::of(machine, engine);
    let distance = address.checked_sub(ring.base)?;
    if distance >= u64::from(ring.bytes) {
        return None;
    }
    Some(Target::Descriptor {
        ring: engine,
        index: distance / DESCRIPTOR_BYTES,
        byte: distance % DESCRIPTOR_BYTES,
    })
}
