// Observers of runs.

ghost use Rattle.std.specs.Bool.{OnFalse, OnTrue};
ghost use Rattle.std.specs.Prelude.{◌≡◌, ◌≤◌, [], List, length};
ghost use Rattle.descriptors.specs.Frames.{longest_frame};
ghost use Rattle.network_plan.specs.Answers.{answer_with, ticks_of};
ghost use Rattle.network_plan.specs.declared.event.Event.{Event};
ghost use Rattle.network_plan.specs.declared.reply.Reply.{Reply};
ghost use Rattle.stations.specs.ToldTicks.{TickTold};
ghost use Rattle.wire.specs.RunObservers.{AreOfTicks, ComposesRuns, HasRoomForEvent, TellsReply, ending};

use network_plan::{Answer, Event};
use stations::Observer;

/// An observer of a run. The observer is told the outcome of each tick, as any [`Observer`] is, and the answer of each
/// event.
///
/// The contract of a run states `ran` of its observer. A run ends early only before an event for which the observer may
/// refuse room (`refuses`), or before a reset. Before a reset, the run ends if memory for the frames that the reset
/// drops can't be allocated.
pub trait RunObserver: Observer {
    /// Between these two states, the observer was told the contents of these replies, one for each of these events, in
    /// order.
    ghost ran: { Self → Self → List Event → List Reply → Type 0 };

    /// The observer, in this state, has room for the answer of this event.
    ghost ready: { Self → Event → Type 0 };

    /// The observer, in this state, may refuse to make room for this event.
    ghost refuses: { Self → Event → Type 0 };

    /// Makes room for the answer of an event, and for the outcomes of its `ticks` ticks, before the first tick.
    /// Returns `true` only if there is room, and `false` only if the observer may refuse (`refuses`). The number
    /// `ticks` includes each `Go`. By this call, the observer is told nothing.
    fn make_room(&mut self, event: &Event<'_>, ticks: usize) -> bool
        requires count { ticks ≡ length (ticks_of event.now) }
        ensures nothing { Self.heard self.old self.new [] }
        ensures room { OnTrue result (HasRoomForEvent ready Self.room_left event.now self.new) }
        ensures refused { OnFalse result (refuses self.old event.now) };

    /// Reports to the observer the answer of an event, and the number of accesses of the event's call or reset. A tick
    /// outside a call has 0 accesses. `frame` is the frame that a socket returned, of at most 1,518 bytes. For other
    /// answers, `frame` has no meaning. The observer must have room for the answer (`ready`).
    ///
    /// The clause without a name: if the observer was told exactly the outcomes of the event's ticks since a state
    /// `begin`, then after this call it was told a complete reply since `begin`.
    fn answer(&mut self, event: &Event<'_>, accesses: u64, answer: Answer<()>, frame: &[u8])
        requires room { ready self.old event.now }
        requires fits { length frame.now ≤ longest_frame }
        ensures { (begin : Self) (ticks : List TickTold) → Self.heard begin self.old ticks → AreOfTicks event.now ticks
            → TellsReply ran event.now (ending accesses (answer_with frame.now answer) ticks) begin self.new };

    /// An observer that was told nothing was told no reply. In two consecutive intervals together, the observer was
    /// told the replies of both, in order. Ticks don't use the observer's room for an answer.
    ghost composes_runs: { ComposesRuns Self.heard ran ready };
}
