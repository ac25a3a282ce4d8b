// The registers of a ring.

ghost use Rattle.std.specs.Prelude.{◌≡◌, Some, None, if◌then◌else◌};
ghost use Rattle.adapter.specs.Rings.{ring_answer};
ghost use Rattle.adapter.specs.Table.{row_of};
ghost use Rattle.access_names.specs.Rings.{has_valid_indices, register_of, registers_of_ring};
ghost use Rattle.access_names.specs.Rings.{ring_from, ring_of_engine};

use crate::engine_fault::Engine;
use adapter::offsets::{RDBAH, RDBAL, RDH, RDLEN, RDT, TDBAH, TDBAL, TDH, TDLEN, TDT};
use adapter::{Machine, RingRegister};
use descriptors::Ring;

/// The values of a ring's registers. Head and tail may be invalid indices.
#[derive(Clone, Copy)]
pub struct RingWords {
    /// The address of the ring's first descriptor.
    pub base: u64,
    /// The ring's length in bytes.
    pub bytes: u32,
    /// The value of the head register, RDH or TDH.
    pub head: u32,
    /// The value of the tail register, RDT or TDT.
    pub tail: u32,
}

impl RingWords {
    /// Returns the values of the registers of an engine's ring, without an access.
    pub fn of(machine: &Machine, engine: Engine) -> RingWords
        ensures ring { ring_from result ≡ ring_of_engine engine machine.now.world }
    {
        let base_low = value_of(machine, engine, RingRegister::BaseLow);
        let base_high = value_of(machine, engine, RingRegister::BaseHigh);
        let bytes = value_of(machine, engine, RingRegister::Length);
        let head = value_of(machine, engine, RingRegister::Head);
        let tail = value_of(machine, engine, RingRegister::Tail);
        RingWords {
            base: (u64::from(base_high) << 32) + u64::from(base_low),
            bytes,
            head,
            tail,
        }
    }

    /// Returns the ring, or `None` if and only if head or tail isn't the index of a descriptor in the ring. A ring has
    /// at most 65,536 descriptors, so a value that isn't a `u16` isn't such an index.
    pub(crate) fn ring(self) -> Option<Ring>
        ensures { result ≡ (if has_valid_indices (ring_from self) then Some (ring_from self) else None) }
    {
        let Ok(head) = u16::try_from(self.head) else {
            return None;
        };
        let Ok(tail) = u16::try_from(self.tail) else {
            return None;
        };
        let ring = Ring {
            base: self.base,
            bytes: self.bytes,
            head,
            tail,
        };
        if ring.has_valid_indices() {
            Some(ring)
        } else {
            None
        }
    }
}

/// Returns the value that a read of a register of an engine's ring would return.
fn value_of(machine: &Machine, engine: Engine, register: RingRegister) -> u32
    ensures { result ≡ ring_answer register (registers_of_ring engine machine.now.world) }
{
    machine.value(offset_of(engine, register))
}

/// Returns the offset of a register of an engine's ring, in bytes.
fn offset_of(engine: Engine, register: RingRegister) -> u32
    ensures { result ≡ (row_of (register_of engine register)).offset }
{
    match (engine, register) {
        (Engine::Transmit, RingRegister::BaseLow) => TDBAL,
        (Engine::Transmit, RingRegister::BaseHigh) => TDBAH,
        (Engine::Transmit, RingRegister::Length) => TDLEN,
        (Engine::Transmit, RingRegister::Head) => TDH,
        (Engine::Transmit, RingRegister::Tail) => TDT,
        (Engine::Receive, RingRegister::BaseLow) => RDBAL,
        (Engine::Receive, RingRegister::BaseHigh) => RDBAH,
        (Engine::Receive, RingRegister::Length) => RDLEN,
        (Engine::Receive, RingRegister::Head) => RDH,
        (Engine::Receive, RingRegister::Tail) => RDT,
    }
}
