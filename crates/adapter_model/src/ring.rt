// The registers of a descriptor ring.

ghost use Rattle.std.specs.Prelude.{◌≡◌, fold};
ghost use Rattle.adapter_model.specs.Hashed.{ring_writes};
ghost use Rattle.adapter_model.specs.Rings.{new_ring, ring_answer, ring_of, ring_written};

use crate::register::RingRegister;
use descriptors::Ring;
use std::hash::{Hash, Hasher};

/// The bits that RDBAL and TDBAL store: a ring's address is a multiple of 16.
const BASE_LOW_BITS: u32 = 0xFFFF_FFF0;

/// The bits that RDLEN and TDLEN store: a ring's length in bytes is a multiple of 128.
const LENGTH_BITS: u32 = 0x000F_FF80;

/// The bits that RDH, RDT, TDH and TDT store: the index of a descriptor.
const INDEX_BITS: u32 = 0xFFFF;

/// The values of the registers of a descriptor ring.
///
/// The adapter owns the descriptors from the head up to, but not including, the tail.
#[derive(Clone, Copy)]
pub struct RingRegisters {
    /// The low word of the ring's address, a multiple of 16.
    pub base_low: u32,
    /// The high word of the ring's address.
    pub base_high: u32,
    /// The ring's length in bytes, a multiple of 128.
    pub length_bytes: u32,
    /// The index of the first descriptor that the adapter owns. If head equals tail, the adapter owns no descriptor.
    pub head: u16,
    /// The index of the descriptor after the last one that the adapter owns.
    pub tail: u16,
}

impl RingRegisters {
    /// Returns registers that are all 0, as after a reset: a ring without descriptors.
    pub(crate) fn new() -> Self
        ensures { result ≡ new_ring }
    {
        RingRegisters {
            base_low: 0,
            base_high: 0,
            length_bytes: 0,
            head: 0,
            tail: 0,
        }
    }

    /// Returns the value of this register of the ring.
    pub(crate) fn read(&self, register: RingRegister) -> u32
        ensures { result ≡ ring_answer register self.now }
    {
        match register {
            RingRegister::BaseLow => self.base_low,
            RingRegister::BaseHigh => self.base_high,
            RingRegister::Length => self.length_bytes,
            RingRegister::Head => u32::from(self.head),
            RingRegister::Tail => u32::from(self.tail),
        }
    }

    /// Writes a register of the ring: stores the register's kept bits of `value`.
    pub(crate) fn write(&mut self, register: RingRegister, value: u32)
        ensures { self.new ≡ ring_written register value self.old }
    {
        match register {
            RingRegister::BaseLow => self.base_low = value & BASE_LOW_BITS,
            RingRegister::BaseHigh => self.base_high = value,
            RingRegister::Length => self.length_bytes = value & LENGTH_BITS,
            RingRegister::Head => self.head = (value & INDEX_BITS) as u16,
            RingRegister::Tail => self.tail = (value & INDEX_BITS) as u16,
        }
    }

    /// Feeds the registers to a hasher. Equal registers feed the same bytes.
    pub(crate) fn feed<H: Hasher>(&self, hasher: &mut H)
        ensures { hasher.new ≡ fold H.write hasher.old (ring_writes self.now) }
    {
        u32::hash_slice(&[self.base_low, self.base_high, self.length_bytes], hasher);
        u16::hash_slice(&[self.head, self.tail], hasher);
    }

    /// Returns the ring that the registers define.
    pub(crate) fn ring(&self) -> Ring
        ensures { result ≡ ring_of self.now }
    {
        Ring {
            base: (u64::from(self.base_high) << 32) + u64::from(self.base_low),
            bytes: self.length_bytes,
            head: self.head,
            tail: self.tail,
        }
    }
}
