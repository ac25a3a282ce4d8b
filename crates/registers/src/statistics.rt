// Statistics counters.

ghost use Rattle.std.specs.Prelude.{◌≡◌, ◌+◌, ◌≤◌, min};
ghost use Rattle.registers.specs.Counting.{greatest_count};

use std::marker::Model;
use std::mem;

/// A statistics counter of 32 bits, such as MPC, GPRC, GPTC or RNBC (13.7 "Statistics Registers"). The counter
/// saturates at 0xFFFF_FFFF, and a read clears the counter.
#[derive(Clone, Copy, PartialEq, Eq, Debug)]
pub struct Counter {
    count: u32,
}

impl Model for Counter {
    ghost use Rattle.std.specs.Prelude.{ℕ};

    ghost Value = { ℕ };

    ghost view = { λ c. c.count };

    ghost inverse = { λ n. record { count = n } };
}

impl Counter {
    /// Returns a counter at 0, as after a reset.
    pub fn new() -> Counter
        ensures { result ≡ 0 }
    {
        Counter::at(0)
    }

    /// Returns a counter at this value.
    pub fn at(count: u32) -> Counter
        ensures { result ≡ count }
    {
        Counter { count }
    }

    /// Increases the count by one, up to 0xFFFF_FFFF.
    pub fn bump(&mut self)
        ensures { self.new ≡ min (self.old + 1) greatest_count }
    {
        self.count = self.count.saturating_add(1);
    }

    /// Reads the register: returns the count, and clears the counter.
    pub fn read(&mut self) -> u32
        ensures answer { result ≡ self.old }
        ensures cleared { self.new ≡ 0 }
    {
        mem::take(&mut self.count)
    }

    /// Returns the count, without clearing the counter.
    pub fn value(&self) -> u32
        ensures answer { result ≡ self.now }
        ensures fits { self.now ≤ greatest_count }
    {
        self.count
    }
}
