// Steps, arrivals, and cycles of steps.

ghost use Rattle.std.specs.Prelude.{◌≡◌, ◌≤◌, ◌∷◌, [], None, length};
ghost use Rattle.adapter.specs.model_types.step.StepKind.TheVariants.{TxPut};
ghost use Rattle.played_adapter.specs.Order.{Tells};
ghost use Rattle.played_adapter.specs.Outcomes as outcomes;
ghost use Rattle.played_adapter.specs.Playing.{Arrives, PlaysAll, ReportsLine};
ghost use Rattle.played_adapter.specs.Playing.{Settles, Steps, after_announced_put};
ghost use Rattle.played_adapter.specs.Playing.{expected, has_room};
ghost use Rattle.played_adapter.specs.Told as told;

use crate::observer::Observer;
use crate::player::PlayedAdapter;
use access_names::fault_of;
use adapter::{Fate, Outcome, StepKind};

/// The maximum number of cycles that `serve_settle` plays (our choice). It is greater than the number of descriptors of
/// a ring, and than the number of ticks until a link is up.
pub const MOST_CYCLES: u32 = 131_072;

/// The kinds of steps, each once, in the order of a cycle.
pub(crate) const CYCLE: [StepKind; 6] = [
    StepKind::TxTake,
    StepKind::TxPut,
    StepKind::RxData,
    StepKind::RxDone,
    StepKind::EepromTick,
    StepKind::PhyTick,
];

/// Returns whether a step with this outcome did something.
pub(crate) fn did(outcome: Outcome<()>) -> bool
    ensures { result ≡ outcomes.did outcome }
{
    !matches!(outcome, Outcome::Nothing | Outcome::WireFull)
}

impl PlayedAdapter {
    /// Reports a change of the interrupt line since the last report, if there is one.
    #[inline(always)]
    pub(crate) fn report<O: Observer>(&mut self, observer: &mut O)
        ensures { Tells O.heard observer.old observer.new (ReportsLine self.old self.new) }
    {
        if let Some(level) = self.machine.report_line() {
            observer.line(level);
        }
    }

    /// Reports a step `TxPut` before the step is taken, so that the observer can borrow the frame. The reported outcome
    /// is the one that the step will have. If the step will put a frame, and `keeps_put` is set, then appends a copy of
    /// the frame to the frames on the wire. Returns whether the wire had room for a frame.
    #[inline(always)]
    fn announce_put<O: Observer>(&mut self, observer: &mut O) -> bool
        ensures room { result ≡ has_room self.old }
        ensures reported { O.heard observer.old observer.new (told.Stepped TxPut
            (expected (has_room self.old) self.old.machine.world.adapter.transmitter.buffer) None ∷ []) }
        ensures kept { self.new ≡ after_announced_put self.old }
    {
        let has_room = self.has_room();
        let Some(frame) = self.machine.to_put() else {
            observer.stepped(StepKind::TxPut, Outcome::Nothing, &[], None);
            return has_room;
        };
        if !has_room {
            observer.stepped(StepKind::TxPut, Outcome::WireFull, &[], None);
            return false;
        }
        observer.stepped(StepKind::TxPut, Outcome::Put(()), frame, None);
        if self.keeps_put {
            self.wire.push(frame);
        }
        true
    }

    /// Makes the adapter take a step. Reports the step, and then a change of the interrupt line, if there is one.
    /// Returns the step's outcome.
    pub fn step<O: Observer>(&mut self, kind: StepKind, observer: &mut O) -> Outcome<()>
        ensures { Tells O.heard observer.old observer.new (Steps kind result self.old self.new) }
    {
        if let StepKind::TxPut = kind {
            // The frame is reported and copied before the step, which removes it from the adapter.
            let wire_free = self.announce_put(observer);
            let outcome = self.machine.step(StepKind::TxPut, wire_free);
            self.report(observer);
            return outcome;
        }
        let wire_free = self.has_room();
        let outcome = self.machine.step(kind, wire_free);
        let fault = match outcome {
            Outcome::Fault => fault_of(&self.machine, kind),
            _ => None,
        };
        // Only a `TxPut` puts a frame.
        observer.stepped(kind, outcome, &[], fault);
        self.report(observer);
        outcome
    }

    /// Delivers a frame that wasn't offered. Reports the arrival, and then a change of the interrupt line, if there is
    /// one. Returns the frame's fate.
    pub fn arrive<O: Observer>(&mut self, frame: &[u8], observer: &mut O) -> Fate
        ensures { Tells O.heard observer.old observer.new (Arrives frame.now result self.old self.new) }
    {
        let fate = self.machine.arrive(frame);
        observer.arrived(frame, fate);
        self.report(observer);
        fate
    }

    /// Plays steps of these kinds, in order. Returns the number of steps that did something.
    pub(crate) fn play<O: Observer>(&mut self, kinds: &[StepKind], observer: &mut O) -> u64
        ensures plays { Tells O.heard observer.old observer.new (PlaysAll kinds.now result self.old self.new) }
        ensures few { result ≤ length kinds.now }
    {
        let mut moved = 0;
        for kind in kinds {
            let outcome = self.step(*kind, observer);
            moved += u64::from(did(outcome));
        }
        moved
    }

    /// Plays cycles until one does nothing, up to `most` cycles. Returns the number of steps that did something.
    pub fn settle<O: Observer>(&mut self, most: u32, observer: &mut O) -> u64
        ensures { Tells O.heard observer.old observer.new (Settles most result self.old self.new) }
    {
        let mut all = 0;
        for _cycle in 0..most {
            let moved = self.play(&CYCLE, observer);
            if moved == 0 {
                return all;
            }
            all += moved;
        }
        all
    }
}
