// The targets of accesses.

use crate::Engine;

/// What an access reads or writes. `Display` prints the target's name.
#[derive(Clone, Copy, Debug, PartialEq, Eq)]
pub enum Target {
    /// The register at this offset in bytes, such as `ICR`, `MTA[5]` or `RAL[0]`; `register[0x10]` if no register has
    /// this offset.
    Register(u32),
    /// A byte of a descriptor in a ring, such as `rx[1]+8`. The first byte has the name of its descriptor, such as
    /// `tx[0]`.
    Descriptor {
        /// The engine that owns the ring.
        ring: Engine,
        /// The number of the descriptor in its ring, from 0.
        index: u64,
        /// The number of the byte in its descriptor, from 0 to 15.
        byte: u64,
    },
    /// The byte at this address in memory, such as `0x10000`.
    Memory(u64),
}
