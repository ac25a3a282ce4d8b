ghost use Rattle.std.specs.Prelude.{◌≡◌, ◌<◌, ◌≤◌, ◌+◌, ◌↔◌, IsTrue, IsSome, IfSome};

/// The number of bytes of a descriptor.
const DESCRIPTOR_BYTES: u32 = 16;

/// The number of descriptors that indices of 16 bits can reach.
const MOST_INDEXED: u32 = 1 << 16;

/// A ring of descriptors as its registers define it: base address, length, head and tail (Intel's manual, "13.4.25
/// Receive Descriptor Base Address Low" to "13.4.29 Receive Descriptor Tail", and the same registers of the transmit
/// ring).
///
/// The adapter owns the descriptors from head up to, but not including, tail. After the last slot, the ring wraps.
#[derive(Clone, Copy, Debug, PartialEq, Eq)]
pub struct Ring {
    /// The address of the first descriptor in the host's memory.
    pub base: u64,
    /// The length of the ring in bytes, sixteen for each descriptor.
    pub bytes: u32,
    /// The index of the slot that the adapter uses next.
    pub head: u16,
    /// The index of the slot after the last one that the adapter owns. If tail equals head, the adapter owns no slot.
    pub tail: u16,
}

impl Ring {
    ghost use Rattle.descriptors.specs.Ring.{count_of, HasValidIndices, next_of, distance_of, address_of};

    /// Returns the number of descriptors of the ring: its length divided by sixteen bytes, and at most 65,536, because
    /// indices have 16 bits. The length registers of the adapter have 20 bits, so its rings have fewer than 65,536
    /// descriptors.
    pub fn count(&self) -> u32
        ensures { result ≡ count_of self.now }
    {
        (self.bytes / DESCRIPTOR_BYTES).min(MOST_INDEXED)
    }

    /// Returns whether head and tail are indices of slots of the ring. A ring without descriptors has no slots.
    pub fn has_valid_indices(&self) -> bool
        ensures { IsTrue result ↔ HasValidIndices self.now }
    {
        let count = self.count();
        (self.head as u32) < count && (self.tail as u32) < count
    }

    /// Returns the index of the slot after the slot `index`: 0 after the last slot. The index must be below the count.
    pub fn next(&self, index: u16) -> u16
        requires { index < count_of self.now }
        ensures { result ≡ next_of self.now index }
    {
        let next = index as u32 + 1;
        // Any other `next` is below the count, and so below 65,536.
        if next == self.count() { 0 } else { next as u16 }
    }

    /// Returns the number of slots by which `from` must advance to reach `to`, with wrapping. Both must be indices of
    /// slots.
    pub fn distance(&self, from: u16, to: u16) -> u32
        requires from_slot { from < count_of self.now }
        requires to_slot { to < count_of self.now }
        ensures { result ≡ distance_of self.now from to }
    {
        if from <= to {
            to as u32 - from as u32
        } else {
            to as u32 + self.count() - from as u32
        }
    }

    /// Returns the address of the descriptor in the slot `index`, or `None` exactly if a memory of `size` bytes doesn't
    /// contain the descriptor. Addresses don't wrap at 2^64. The index isn't compared with the count.
    pub fn descriptor(&self, index: u16, size: u64) -> Option<u64>
        ensures inside { IsSome result ↔ (address_of self.now index + DESCRIPTOR_BYTES ≤ size) }
        ensures value { IfSome result (λ address. address ≡ address_of self.now index) }
    {
        let address = self
            .base
            .checked_add(u64::from(DESCRIPTOR_BYTES) * u64::from(index))?;
        let end = address.checked_add(u64::from(DESCRIPTOR_BYTES))?;
        (end <= size).then_some(address)
    }
}
