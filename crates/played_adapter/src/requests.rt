// Calls for requests of the server. The C library also calls `serve_settle` and `serve_choose`. Cycles are played until
// one does nothing, up to a maximum. No call plays ticks or scheduled steps, or counts an access.

ghost use Rattle.std.specs.Prelude.{◌<◌, IsTrue, length};
ghost use Rattle.adapter.specs.bus_types.event.Access.TheVariants.{Reads, Stores, Writes};
ghost use Rattle.played_adapter.specs.Order.{Tells};
ghost use Rattle.played_adapter.specs.Playing.{Paced, has_bytes};
ghost use Rattle.played_adapter.specs.Requests.{ServesAccess, ServesArrival, ServesChoice, ServesLoad};
ghost use Rattle.played_adapter.specs.Requests.{ServesSettle};

use crate::draws::choose_below;
use crate::observer::Observer;
use crate::player::PlayedAdapter;
use crate::steps::MOST_CYCLES;
use adapter::Fate;
use step_schedules::Action;

impl PlayedAdapter {
    /// Plays cycles until one does nothing, up to `pace` cycles.
    fn pace_cycles<O: Observer>(&mut self, observer: &mut O)
        ensures { Tells O.heard observer.old observer.new (Paced self.old self.new) }
    {
        // The number of steps isn't part of an answer to an access or an arrival.
        let _moved = self.settle(u32::from(self.pace), observer);
    }

    /// Plays what the generator draws, reads the register at an offset in bytes, and then plays up to `pace` cycles.
    /// Returns the value that was read.
    pub fn serve_read<O: Observer>(&mut self, offset: u32, observer: &mut O) -> u32
        ensures { Tells O.heard observer.old observer.new (ServesAccess (Reads offset result) self.old self.new) }
    {
        self.interleave_steps(observer);
        let value = self.read_now(offset, observer);
        self.pace_cycles(observer);
        value
    }

    /// Plays what the generator draws, writes the register at an offset in bytes, and then plays up to `pace` cycles.
    pub fn serve_write<O: Observer>(&mut self, offset: u32, value: u32, observer: &mut O)
        ensures { Tells O.heard observer.old observer.new (ServesAccess (Writes offset value) self.old self.new) }
    {
        self.interleave_steps(observer);
        self.write_now(offset, value, observer);
        self.pace_cycles(observer);
    }

    /// Plays what the generator draws, fills `into` with the bytes of memory from an address on, and then plays up to
    /// `pace` cycles. Memory must contain all of these bytes.
    pub fn serve_load<O: Observer>(&mut self, address: u64, into: &mut [u8], observer: &mut O)
        requires { IsTrue (has_bytes self.old address (length into.old)) }
        ensures { Tells O.heard observer.old observer.new
            (ServesLoad address (length into.old) into.new self.old self.new) }
    {
        self.interleave_steps(observer);
        self.load_now(address, into, observer);
        self.pace_cycles(observer);
    }

    /// Plays what the generator draws, stores bytes in memory from an address on, and then plays up to `pace` cycles.
    /// Memory must contain all of their places.
    pub fn serve_store<O: Observer>(&mut self, address: u64, bytes: &[u8], observer: &mut O)
        requires { IsTrue (has_bytes self.old address (length bytes.now)) }
        ensures { Tells O.heard observer.old observer.new
            (ServesAccess (Stores address bytes.now) self.old self.new) }
    {
        self.interleave_steps(observer);
        self.store_now(address, bytes, observer);
        self.pace_cycles(observer);
    }

    /// Delivers a frame, and then plays up to `pace` cycles. Returns the frame's fate.
    pub fn serve_arrival<O: Observer>(&mut self, frame: &[u8], observer: &mut O) -> Fate
        ensures { Tells O.heard observer.old observer.new (ServesArrival frame.now result self.old self.new) }
    {
        let fate = self.arrive(frame, observer);
        self.pace_cycles(observer);
        fate
    }

    /// Delivers all offered frames, and plays cycles until one does nothing, up to [`MOST_CYCLES`]. Returns the number
    /// of steps of these cycles that did something.
    pub fn serve_settle<O: Observer>(&mut self, observer: &mut O) -> u64
        ensures { Tells O.heard observer.old observer.new (ServesSettle result self.old self.new) }
    {
        self.deliver_all(observer);
        self.settle(MOST_CYCLES, observer)
    }

    /// Returns a number below `limit`, or 0 if `limit` is 0. If steps are drawn before accesses, the generator's next
    /// word determines the number. Otherwise the number is `wanted` if `wanted` is below `limit`, or else 0. The
    /// observer is told a number above 0.
    pub fn serve_choose<O: Observer>(&mut self, limit: u32, wanted: u32, observer: &mut O) -> u32
        ensures tells { Tells O.heard observer.old observer.new
            (ServesChoice limit wanted result self.old self.new) }
        ensures below { 0 < limit → result < limit }
    {
        let number = choose_below(&mut self.generator, self.most_steps, limit, wanted);
        if number > 0 {
            observer.noted(Action::Choose(number));
        }
        number
    }
}
