// The bus that is lent to a call of one host.

ghost use Rattle.std.specs.Prelude.{◌<◌, ◌≤◌, length};

use crate::observer::Observer;
use crate::stations::Stations;
use crate::tick::Tick;

/// The bus of one host's call. The bus borrows the stations of the network during the call. The bus also contains the
/// ticks to play before each access and after the last access ([`finish`](LentBus::finish)).
///
/// Before each access, the bus plays the ticks up to the next `Go`, or all remaining ticks if there is no further
/// `Go`.
#[derive(Drop)]
pub struct LentBus<'a, 't, O: Observer> {
    /// The stations of all hosts.
    pub stations: &'a mut Stations,
    /// The ticks that are still to be played. A `Go` ends the ticks that are played before one access.
    pub ticks: &'t [Tick],
    /// The number of the host that makes the call.
    pub host: usize,
    /// The number of accesses of the call so far; it saturates at the greatest `u64`.
    pub accesses: u64,
    /// The observer. The observer is told the outcome of each tick, with the number of accesses that the call made
    /// before the tick.
    pub observer: &'a mut O,
    // The host exists.
    ghost there: { host < length stations.now },
    // The observer has room for the outcome of each tick that is still to be played.
    ghost room: { length ticks.now ≤ O.room_left observer.now },
}

impl<'a, 't, O: Observer> LentBus<'a, 't, O> {
    ghost use Rattle.stations.specs.LentBuses.{Finished, PreparedLent};

    /// Prepares the bus for one access: plays the ticks before the next `Go`, or all ticks if no `Go` remains, and
    /// counts the access. The access itself follows.
    #[inline(always)]
    pub(crate) fn prepare(&mut self)
        ensures { PreparedLent self.old self.new }
    {
        // Without ticks, only the access is counted.
        if self.ticks.is_empty() {
            self.accesses = self.accesses.saturating_add(1);
            return;
        }
        self.prepare_group();
    }

    /// Does the same as [`prepare`](LentBus::prepare), which calls this function only if ticks remain. Two functions
    /// keep short what is inlined at each access.
    #[inline(never)]
    fn prepare_group(&mut self)
        ensures { PreparedLent self.old self.new }
    {
        // The outcomes of the ticks have the number of accesses before this access.
        let accesses = self.accesses;
        self.ticks = self
            .stations
            .play_group(self.ticks, accesses, self.observer);
        self.accesses = accesses.saturating_add(1);
    }

    /// Plays the remaining ticks, after the call's last access, and skips each `Go`.
    #[inline(always)]
    pub fn finish(&mut self)
        ensures { Finished self.old self.new }
    {
        if self.ticks.is_empty() {
            return;
        }
        self.stations
            .play_without_go(self.ticks, self.accesses, self.observer);
        self.ticks = &[];
    }
}
