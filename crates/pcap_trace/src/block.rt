//! A block of the bytes of a source, from which packets are read.
ghost use Rattle.std.specs.Prelude.{◌≡◌, ◌<◌, ◌≤◌, ◌+◌, ◌⊎◌, [], List, ℕ, length, take, drop, slice_range};
ghost use Rattle.std.specs.Prelude.{IfOk, OnOk};
ghost use Rattle.std.specs.Io.KnownBytes.{Consumes, IsAtEnd};
ghost use Rattle.pcap_trace.specs.Devices.{CountsFailures, Receives, Uses};

use crate::device::{DeviceError, Source};
use std::alloc::{AllocError, Global};
use std::marker::Model;

/// The maximum number of bytes of one read.
const CHUNK: usize = 65_536;

/// The block's room in bytes: 65,536 for one read, 16 for a packet header, and 262,144 for the captured bytes of a
/// packet.
const ROOM: usize = 327_696;

/// Bytes that were read from a source and not used yet. In contracts, the value is the list of these bytes.
#[derive(Drop)]
pub struct Block {
    /// The block's memory, of [`ROOM`] bytes.
    bytes: Vec<u8>,
    /// The place of the first byte that wasn't used yet.
    start: usize,
    /// The place after the last byte that was read.
    end: usize,
}

impl Model for Block {
    ghost use Rattle.std.specs.Prelude.{◌≡◌, ◌≤◌, List, ℕ, length, slice_range};

    ghost Value = { List ℕ };

    ghost view = { λ b. slice_range b.bytes.items b.start b.end };

    ghost invariant = { λ b. (b.start ≤ b.end) × (b.end ≤ length b.bytes.items) × (length b.bytes.items ≡ 327696) };
}

/// Reads at most 65,536 bytes once into a slice, after its first `end` bytes, which don't change. The slice must have
/// more than `end` bytes. Returns the number of bytes read; 0 means that the source is at its end.
fn read_once_after<S: Source>(
    source: &mut S,
    bytes: &mut [u8],
    end: usize,
) -> Result<usize, DeviceError>
    requires countable { S.failures source.old < u64.MAX }
    requires room { end < length bytes.old }
    ensures front { take end bytes.new ≡ take end bytes.old }
    ensures fits { IfOk result (λ n. end + n ≤ length bytes.old) }
    ensures read { IfOk result
        (λ n. Consumes (S.left source.old) (S.left source.new) (slice_range bytes.new end (end + n))) }
    ensures used { Uses (S.left source.old) (S.left source.new) }
    ensures at_end { IfOk result (λ n. n ≡ 0 → IsAtEnd (S.left source.new)) }
    // A read lowers the source's limit, which is below 2^64, by at least the number of bytes read.
    ensures limit { IfOk result (λ n. S.limit source.new + n ≤ S.limit source.old) }
    ensures counted { S.limit source.old ≤ u64.MAX }
    ensures failures { CountsFailures result (S.failures source.old) (S.failures source.new) }
{
    let room = CHUNK.min(bytes.len() - end);
    let into = &mut bytes[end..end + room];
    source.read(into)
}

impl Block {
    /// Returns an empty block. The call allocates 327,696 bytes.
    ///
    /// # Errors
    ///
    /// Only if memory is refused.
    pub fn new(alloc: Global) -> Result<Block, AllocError>
        ensures { IfOk result (λ b. b ≡ []) }
    {
        let bytes = vec![in alloc; 0; ROOM]?;
        Ok(Block {
            bytes,
            start: 0,
            end: 0,
        })
    }

    /// Returns the bytes of the block.
    pub fn held(&self) -> &[u8]
        ensures { result.now ≡ self.now }
    {
        &self.bytes.as_slice()[self.start..self.end]
    }

    /// Drops `count` bytes from the front. The block must have at least `count` bytes. No block has more than 327,696
    /// bytes (`room`).
    pub fn skip(&mut self, count: usize)
        requires { count ≤ length self.old }
        ensures rest { self.new ≡ drop count self.old }
        ensures room { length self.new ≤ ROOM }
    {
        self.start += count;
    }

    /// Moves the bytes to the front of the block's memory, and reads at most 65,536 bytes once from a source into the
    /// memory after these bytes. There must be room for at least one more byte. Returns the number of bytes read; 0
    /// means that the source is at its end. Fails if the source fails.
    fn read_more<S: Source>(&mut self, source: &mut S) -> Result<usize, DeviceError>
        requires countable { S.failures source.old < u64.MAX }
        requires room { length self.old < ROOM }
        ensures received { OnOk result (Receives self.old self.new (S.left source.old) (S.left source.new)) }
        ensures used { Uses (S.left source.old) (S.left source.new) }
        ensures more { IfOk result (λ n. length self.new ≡ length self.old + n) }
        ensures at_end { IfOk result (λ n. n ≡ 0 → IsAtEnd (S.left source.new)) }
        // A read lowers the source's limit, which is below 2^64, by at least the number of bytes read.
        ensures limit { IfOk result (λ n. S.limit source.new + n ≤ S.limit source.old) }
        ensures counted { S.limit source.old ≤ u64.MAX }
        ensures failures { CountsFailures result (S.failures source.old) (S.failures source.new) }
    {
        self.bytes.copy_within(self.start..self.end, 0);
        let end = self.end - self.start;
        self.start = 0;
        self.end = end;
        let count = read_once_after(source, self.bytes.as_mut_slice(), end)?;
        self.end = end + count;
        Ok(count)
    }

    /// Reads from a source until the block has at least `want` bytes, or the source is at its end. `want` is at most
    /// 327,696.
    ///
    /// # Errors
    ///
    /// [`DeviceError`] if the source fails.
    #[tactic(auto, using(crate::proofs::Uses::received_none, crate::proofs::Uses::uses_none))]
    #[inline(always)]
    pub fn fill<S: Source>(&mut self, source: &mut S, want: usize) -> Result<(), DeviceError>
        requires countable { S.failures source.old < u64.MAX }
        requires room { want ≤ ROOM }
        ensures received { OnOk result (Receives self.old self.new (S.left source.old) (S.left source.new)) }
        ensures used { Uses (S.left source.old) (S.left source.new) }
        ensures filled { OnOk result ((want ≤ length self.new) ⊎ IsAtEnd (S.left source.new)) }
        // A read lowers the source's limit, which is below 2^64, by at least the number of bytes read.
        ensures limit { OnOk result (length self.new + S.limit source.new ≤ length self.old + S.limit source.old) }
        ensures counted { length self.old < want → S.limit source.old ≤ u64.MAX }
        ensures failures { CountsFailures result (S.failures source.old) (S.failures source.new) }
    {
        if want <= self.end - self.start {
            return Ok(());
        }
        self.fill_by_reading(source, want)
    }

    /// Does what [`fill`](Block::fill) does, if the block has fewer than `want` bytes. The loop is in this separate
    /// function, so that `fill` can be inlined.
    #[inline(never)]
    fn fill_by_reading<S: Source>(&mut self, source: &mut S, want: usize) -> Result<(), DeviceError>
        requires countable { S.failures source.old < u64.MAX }
        requires room { want ≤ ROOM }
        requires missing { length self.old < want }
        ensures received { OnOk result (Receives self.old self.new (S.left source.old) (S.left source.new)) }
        ensures used { Uses (S.left source.old) (S.left source.new) }
        ensures filled { OnOk result ((want ≤ length self.new) ⊎ IsAtEnd (S.left source.new)) }
        ensures limit { OnOk result (length self.new + S.limit source.new ≤ length self.old + S.limit source.old) }
        ensures counted { S.limit source.old ≤ u64.MAX }
        ensures failures { CountsFailures result (S.failures source.old) (S.failures source.new) }
    {
        while self.held().len() < want {
            if self.read_more(source)? == 0 {
                break;
            }
        }
        Ok(())
    }
}
