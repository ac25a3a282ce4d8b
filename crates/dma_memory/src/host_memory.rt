ghost use Rattle.std.specs.Prelude.{◌≡◌, ◌↔◌, List, ℕ, length, replicate, IfOk, OnOk, OnErr, IsOk, IsTrue};
ghost use Rattle.dma_memory.specs.HostMemory.{bytes_at, with_bytes, LiesIn};

use std::alloc::{AllocError, Global};
use std::marker::Model;
use thiserror::Error;

/// The error of a load, a store or a view if the address of a byte in the range isn't below the memory's size. The text
/// of the error is `E1 OutOfRange`.
#[derive(Clone, Copy, Debug, PartialEq, Eq, Error)]
#[error("E1 OutOfRange")]
pub struct OutOfRange;

/// The memory of a host: bytes with the addresses from 0 to its size - 1. The host's driver and its adapter load and
/// store these bytes.
///
/// An empty range is in memory at every address, so a load, a store or a view of no bytes never fails. The size never
/// changes.
#[derive(Clone, Drop)]
pub struct HostMemory {
    bytes: Vec<u8>,
}

impl Model for HostMemory {
    ghost Value = { List ℕ };

    ghost view = { λ memory. memory.bytes.items };
}

impl HostMemory {
    /// Returns a memory of `size` bytes, each with value 0.
    ///
    /// # Errors
    ///
    /// Returns an error only if an allocation fails.
    pub fn new(alloc: Global, size: u64) -> Result<HostMemory, AllocError>
        ensures zeros { IfOk result (λ memory. memory ≡ replicate size 0) }
    {
        // `usize` has 64 bits, so the cast doesn't change the size.
        Ok(HostMemory {
            bytes: vec![in alloc; 0; size as usize]?,
        })
    }

    /// Returns the number of bytes of the memory.
    pub fn size(&self) -> u64
        ensures { result ≡ length self.now }
    {
        self.bytes.len() as u64
    }

    /// Returns whether memory contains all of the `count` bytes from `address` on. If `count` is 0, returns `true`.
    fn has(&self, address: u64, count: usize) -> bool
        ensures { IsTrue result ↔ LiesIn self.now address count }
    {
        // The difference is 0 if `address` isn't below the size. Then only an empty range is in the memory.
        count as u64 <= self.size().saturating_sub(address)
    }

    /// Fills `into` with the bytes from `address` on.
    ///
    /// # Errors
    ///
    /// E1 [`OutOfRange`] exactly if the address of one of these bytes isn't below the size. In this case, `into`
    /// doesn't change.
    pub fn load(&self, address: u64, into: &mut [u8]) -> Result<(), OutOfRange>
        ensures in_range { IsOk result ↔ LiesIn self.now address (length into.old) }
        ensures loaded { OnOk result (into.new ≡ bytes_at self.now address (length into.old)) }
        ensures refused { OnErr result (into.new ≡ into.old) }
    {
        let bytes = self.view(address, into.len())?;
        into.copy_from_slice(bytes);
        Ok(())
    }

    /// Writes `bytes` from `address` on.
    ///
    /// # Errors
    ///
    /// E1 [`OutOfRange`] exactly if the address of one of these bytes isn't below the size. In this case, memory
    /// doesn't change.
    pub fn store(&mut self, address: u64, bytes: &[u8]) -> Result<(), OutOfRange>
        ensures in_range { IsOk result ↔ LiesIn self.old address (length bytes.now) }
        ensures stored { OnOk result (self.new ≡ with_bytes self.old address bytes.now) }
        ensures refused { OnErr result (self.new ≡ self.old) }
    {
        if !self.has(address, bytes.len()) {
            return Err(OutOfRange);
        }
        // An empty range may begin after the end of memory, but a slice can't.
        if !bytes.is_empty() {
            let start = address as usize;
            self.bytes.as_mut_slice()[start..start + bytes.len()].copy_from_slice(bytes);
        }
        Ok(())
    }

    /// Returns the `count` bytes from `address` on, without a copy.
    ///
    /// # Errors
    ///
    /// E1 [`OutOfRange`] exactly if the address of one of these bytes isn't below the size.
    pub fn view(&self, address: u64, count: usize) -> Result<&[u8], OutOfRange>
        ensures in_range { IsOk result ↔ LiesIn self.now address count }
        ensures viewed { IfOk result (λ bytes. bytes.now ≡ bytes_at self.now address count) }
    {
        if !self.has(address, count) {
            return Err(OutOfRange);
        }
        // An empty range may begin after the end of memory, but a slice can't.
        if count == 0 {
            return Ok(&[]);
        }
        let start = address as usize;
        Ok(&self.bytes.as_slice()[start..start + count])
    }

    /// Returns all bytes of the memory, without a copy.
    pub fn as_slice(&self) -> &[u8]
        ensures { result.now ≡ self.now }
    {
        self.bytes.as_slice()
    }
}
