ghost use Rattle.std.specs.Prelude.{◌≡◌, ◌<◌, ◌≤◌, ◌↔◌, [], ◌∷◌, length, IsTrue, IsNone, IfSome, IfNone, IfOk};
ghost use Rattle.dma_memory.specs.Owners.{copies, HasOneOwner, HaveSameNumbers};

use std::alloc::{AllocError, Global};
use std::marker::Model;

/// The number of a receive buffer. The holder of the `BufId` owns the buffer.
///
/// A `BufId` can't be copied, and only a [`Pool`] makes one. If a `BufId` is dropped, its number is lost.
#[derive(Drop)]
pub struct BufId {
    number: u16,
}

impl Model for BufId {
    ghost use Rattle.std.specs.Prelude.{ℕ};

    ghost Value = { ℕ };

    ghost view = { λ id. id.number };
}

impl BufId {
    /// Returns the number, from which a [`Layout`](crate::Layout) computes the buffer's address.
    pub fn number(&self) -> u16
        ensures { result ≡ self.now }
    {
        self.number
    }
}

/// The numbers of the free receive buffers. A new pool contains all numbers below the number of buffers. Later each
/// number is in the pool or in a [`BufId`], unless this `BufId` was dropped.
#[derive(Drop)]
pub struct Pool {
    /// The numbers in the pool, in a vector with room for all numbers.
    free: Vec<BufId>,
    /// The number of receive buffers. Each number in the pool is below this number.
    buffers: u16,
}

impl Model for Pool {
    ghost use Rattle.dma_memory.specs.Numbers.{Numbers};

    ghost Value = { Numbers };

    ghost use Rattle.dma_memory.specs.Pool.{numbers_of, IsPool};

    ghost view = { numbers_of };

    ghost invariant = { IsPool };
}

impl Pool {
    /// Returns a pool with all numbers below `buffers` in it.
    ///
    /// # Errors
    ///
    /// Returns an error only if an allocation fails.
    pub fn new(alloc: Global, buffers: u16) -> Result<Pool, AllocError>
        ensures buffers { IfOk result (λ pool. pool.buffers ≡ buffers) }
        ensures all_in { IfOk result (λ pool. HasOneOwner buffers pool.free) }
    {
        let mut free = Vec::with_capacity(alloc, usize::from(buffers))?;
        for number in 0..buffers {
            free.push(BufId { number })?;
        }
        Ok(Pool { free, buffers })
    }

    /// Returns the number of free receive buffers: the count of the numbers in the pool.
    pub fn len(&self) -> u16
        ensures count { result ≡ length self.now.free }
        ensures most { result ≤ self.now.buffers }
    {
        // There are at most `buffers` numbers in the pool, so the cast doesn't change the count.
        self.free.len() as u16
    }

    /// Returns whether no number is in the pool.
    pub fn is_empty(&self) -> bool
        ensures { IsTrue result ↔ (self.now.free ≡ []) }
    {
        self.free.is_empty()
    }

    /// Removes a number from the pool, and returns this number, which is below the pool's number of buffers. The pool
    /// then doesn't contain the number. The contract doesn't state which number is removed, or the order of the others.
    /// Returns `None`, and changes nothing, exactly if the pool is empty.
    pub fn take(&mut self) -> Option<BufId>
        ensures none { IsNone result ↔ (self.old.free ≡ []) }
        ensures taken { IfSome result (λ number. HaveSameNumbers self.old.free (number ∷ self.new.free)) }
        ensures known { IfSome result (λ number. number < self.old.buffers) }
        ensures out { IfSome result (λ number. copies number self.new.free ≡ 0) }
        ensures stays { IfNone result (self.new ≡ self.old) }
        ensures buffers { self.new.buffers ≡ self.old.buffers }
    {
        self.free.pop()
    }

    /// Puts a number back into the pool. The number must be below the pool's number of buffers, and must not be in the
    /// pool. The call allocates no memory and never fails.
    pub fn give(&mut self, buffer: BufId)
        requires known { buffer < self.old.buffers }
        requires out { copies buffer self.old.free ≡ 0 }
        ensures given { HaveSameNumbers (buffer ∷ self.old.free) self.new.free }
        ensures buffers { self.new.buffers ≡ self.old.buffers }
    {
        // The vector has room for all numbers, so the push doesn't fail.
        self.free.push(buffer).unwrap();
    }
}
