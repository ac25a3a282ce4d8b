// A bus that reports its interrupt line.

use crate::{BusFault, QtestBus};
use adapter::Bus;
use std::io::{BufRead, Write};

/// A bus that reports the adapter's interrupt line, and that may stop. The contract states nothing of these reports.
pub trait WatchedBus: Bus {
    /// Returns whether the interrupt line is asserted, as far as the bus knows.
    fn is_asserted(&self) -> bool;

    /// Returns why the bus stopped; `None` if it didn't stop.
    fn fault(&self) -> Option<BusFault>;
}

impl<R: BufRead, W: Write> WatchedBus for QtestBus<R, W> {
    fn is_asserted(&self) -> bool {
        QtestBus::is_asserted(self)
    }

    fn fault(&self) -> Option<BusFault> {
        QtestBus::fault(self)
    }
}
