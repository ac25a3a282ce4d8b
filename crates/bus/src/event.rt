// What happens at a bus, event by event.

ghost use Rattle.std.proofs.Common.{rules};
ghost use Rattle.std.specs.Cmp.Lexicographic.{pointwise};
ghost use Rattle.std.specs.Cmp.Rules.{comparing};
ghost use Rattle.std.specs.Prelude.{nat_eq};

use adapter_model::{Fate, Outcome, StepKind};
use descriptors::Frame;
use std::alloc::{AllocError, Global};
use std::marker::Model;

/// The bytes that a driver stored by one access.
///
/// The bytes are in an allocation of their own, which has room for at least these bytes.
#[derive(Debug, Drop)]
pub struct StoredBytes {
    bytes: Vec<u8>,
}

impl Model for StoredBytes {
    ghost use Rattle.std.specs.Prelude.{List, ℕ};

    ghost Value = { List ℕ };

    ghost view = { λ stored. stored.bytes.items };
}

impl StoredBytes {
    ghost use Rattle.std.specs.Prelude.{◌≡◌, IfOk};

    /// Returns a copy of these bytes.
    ///
    /// # Errors
    ///
    /// Returns an error only if an allocation fails.
    pub fn from_slice(alloc: Global, bytes: &[u8]) -> Result<StoredBytes, AllocError>
        ensures { IfOk result (λ stored. stored ≡ bytes.now) }
    {
        let mut held = Vec::with_capacity(alloc, bytes.len())?;
        held.extend_from_slice(bytes)?;
        Ok(StoredBytes { bytes: held })
    }

    /// Returns the bytes, the one at the lowest address first.
    pub fn as_slice(&self) -> &[u8]
        ensures { result.now ≡ self.now }
    {
        self.bytes.as_slice()
    }
}

impl PartialEq for StoredBytes {
    ghost eq = { pointwise nat_eq };

    // The prover finds the proof that this relation is symmetric and transitive.
    ghost laws = { Prim.search (comparing, rules) };

    /// Returns whether both values contain the same bytes.
    fn eq(&self, other: &StoredBytes) -> bool {
        self.bytes.as_slice() == other.bytes.as_slice()
    }
}

impl Eq for StoredBytes {
    ghost laws = { Prim.search (comparing, rules) };
}

/// An access of a driver. The first field of each case is the offset of a register, or an address in memory.
#[derive(Debug, Drop, PartialEq, Eq)]
pub enum Access {
    /// The register at this offset was read, and had this value.
    Reads(u32, u32),
    /// This value was written to the register at this offset.
    Writes(u32, u32),
    /// This number of bytes was loaded from this address on.
    Loads(u64, u64),
    /// These bytes were stored from this address on.
    Stores(u64, StoredBytes),
}

/// An event at an adapter and its host's memory. Contracts use lists of these events (`Trail`).
#[derive(Debug, Drop, PartialEq, Eq)]
pub enum Event {
    /// The adapter took a step of this kind, with this outcome. The flag is whether the wire had room.
    Steps(StepKind, bool, Outcome<Frame>),
    /// A frame was delivered, and had this fate.
    Arrives(Frame, Fate),
    /// The driver made an access.
    Accesses(Access),
}
