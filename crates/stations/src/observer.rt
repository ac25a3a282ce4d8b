// Observers, which are told the outcomes of ticks.

ghost use Rattle.std.specs.Prelude.{◌≤◌, ◌<◌, ◌+◌, ◌∷◌, [], ℕ, List, length};
ghost use Rattle.descriptors.specs.Frames.{longest_frame};
ghost use Rattle.adapter.specs.Outcomes.{with_frame};
ghost use Rattle.stations.specs.ToldTicks.{ComposesTold, TickTold, tick_told};

use crate::tick::Tick;
use adapter::Outcome;

/// An observer is told the outcome of each tick, in order, except a `Go` inside a call. The frame of an outcome is only
/// borrowed, so an observer must copy a frame that it needs later.
pub trait Observer {
    /// Between these two states, the observer was told exactly this list, in order.
    ghost heard: { Self → Self → List TickTold → Type 0 };

    /// The number of further outcomes for which the observer has room.
    ghost room_left: { Self → ℕ };

    /// Reports to the observer that this tick was played, with this outcome, after `accesses` accesses of the call.
    /// `frame` is the frame that was put or delivered, of at most 1,518 bytes. For other outcomes, `frame` has no
    /// meaning. The observer must have room for one more outcome, and its room decreases by at most one outcome.
    fn note(&mut self, tick: Tick, accesses: u64, outcome: Outcome<()>, frame: &[u8])
        requires room { 0 < room_left self.old }
        requires fits { length frame.now ≤ longest_frame }
        ensures heard { heard self.old self.new (tick_told tick accesses (with_frame frame.now outcome) ∷ []) }
        ensures room { room_left self.old ≤ room_left self.new + 1 };

    /// From a state to itself, the observer was told nothing. Over two consecutive intervals together, the observer was
    /// told the lists of both, joined in order.
    ghost composes: { ComposesTold heard };
}

/// An observer that stores nothing, for calls in which no tick is played.
#[derive(Clone, Copy, Debug, PartialEq, Eq, Drop)]
pub struct Nobody;

impl Observer for Nobody {
    ghost use Rattle.std.specs.Prelude.{⊤};

    // Nothing is stated of what `Nobody` was told.
    ghost heard = { λ before after told. ⊤ };

    // 2^64, which is more than the length of any list of ticks.
    ghost room_left = { λ nobody. 18446744073709551616 };

    ghost composes = { record {
      stays = λ a. tt;
      joins = λ a b c first later one two. tt;
    } };

    fn note(&mut self, _tick: Tick, _accesses: u64, _outcome: Outcome<()>, _frame: &[u8]) {}
}
