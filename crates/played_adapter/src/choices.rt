// Moves, the choices of a generator, and the arrivals of offered frames.

ghost use Rattle.std.specs.Prelude.{◌≡◌};
ghost use Rattle.played_adapter.specs.Choices as spec;
ghost use Rattle.played_adapter.specs.Moves.{listed};
ghost use Rattle.played_adapter.specs.Order.{InOrder, Tells};
ghost use Rattle.played_adapter.specs.Playing.{AllArrive, Chosen, Makes, NextArrives};

use crate::observer::Observer;
use crate::player::PlayedAdapter;
use crate::steps::did;
use adapter::StepKind;
use step_schedules::Action;

/// A step or an arrival that may be chosen.
#[derive(Clone, Copy)]
pub enum Choice {
    /// A step of this kind.
    Step(StepKind),
    /// The arrival of the oldest offered frame.
    Arrival,
}

/// One thing that is done before an access or a request.
#[derive(Clone, Copy)]
pub enum Move {
    /// The EEPROM or the PHY takes its default step, of this kind.
    Tick(StepKind),
    /// The default step of the EEPROM or the PHY is left out. This action is noted.
    Hold(Action),
    /// A choice is played, and noted if the choice does something.
    Play(Choice),
}

/// Returns the action of a schedule that plays a step of this kind.
fn step_action(kind: StepKind) -> Action
    ensures { result ≡ spec.step_action kind }
{
    match kind {
        StepKind::TxTake => Action::TxTake,
        StepKind::TxPut => Action::TxPut,
        StepKind::RxData => Action::RxData,
        StepKind::RxDone => Action::RxDone,
        StepKind::EepromTick => Action::EepromTick,
        StepKind::PhyTick => Action::PhyTick,
    }
}

impl PlayedAdapter {
    /// Delivers the oldest offered frame, if there is one. Reports the arrival, and then a change of the interrupt
    /// line, if there is one.
    fn deliver_next<O: Observer>(&mut self, observer: &mut O)
        ensures { Tells O.heard observer.old observer.new (NextArrives self.old self.new) }
    {
        let Some(frame) = self.offered.pop() else {
            return;
        };
        let bytes = frame.as_slice();
        let fate = self.machine.arrive(bytes);
        observer.offered_arrived(bytes, fate);
        self.report(observer);
    }

    /// Delivers all offered frames, the oldest first, and reports each arrival.
    pub fn deliver_all<O: Observer>(&mut self, observer: &mut O)
        ensures { Tells O.heard observer.old observer.new (AllArrive self.old self.new) }
    {
        let count = self.offered.len();
        for _frame in 0..count {
            self.deliver_next(observer);
        }
    }

    /// Plays a choice, and then reports its action to the observer if the choice did something. If no frame is offered,
    /// an arrival does nothing.
    pub fn choose<O: Observer>(&mut self, choice: Choice, observer: &mut O)
        ensures { Tells O.heard observer.old observer.new (Chosen choice self.old self.new) }
    {
        match choice {
            Choice::Step(kind) => {
                let outcome = self.step(kind, observer);
                if did(outcome) {
                    observer.noted(step_action(kind));
                }
            }
            Choice::Arrival => {
                let is_offered = !self.offered.is_empty();
                self.deliver_next(observer);
                if is_offered {
                    observer.noted(Action::Arrive);
                }
            }
        }
    }

    /// Plays a move, if there is one: a default step, of which no action is reported; a hold, which is only reported;
    /// or a choice.
    pub(crate) fn make<O: Observer>(&mut self, next: Option<Move>, observer: &mut O)
        ensures { Tells O.heard observer.old observer.new (InOrder Makes (listed next) self.old self.new) }
    {
        let Some(next) = next else {
            return;
        };
        match next {
            Move::Tick(kind) => {
                // The observer is told the outcome.
                let _outcome = self.step(kind, observer);
            }
            Move::Hold(action) => observer.noted(action),
            Move::Play(choice) => self.choose(choice, observer),
        }
    }
}
