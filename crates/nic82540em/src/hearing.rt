// The observer that keeps events.

ghost use Rattle.std.specs.Prelude.{◌≡◌};
ghost use Rattle.nic82540em.specs.Events as events;

use crate::events::{Events, KeptEvent};
use crate::numbers::{fate_number, kind_number, outcome_number, reason_number};
use access_names::EngineFault;
use adapter::{Fate, Outcome, StepKind};
use played_adapter::Observer;
use step_schedules::Action;

/// Returns the event of a step, from the numbers of its kind and its outcome, and from its fault, if there is one.
/// Without a fault, the numbers of the fault are 0.
fn step_event(kind: u32, outcome: u32, fault: Option<EngineFault>) -> KeptEvent
    ensures { result ≡ events.step_event kind outcome fault }
{
    let (reason, index) = match fault {
        Some(fault) => (reason_number(fault.reason), fault.index),
        None => (0, 0),
    };
    KeptEvent {
        what: 0,
        kind,
        value: outcome,
        reason,
        index,
    }
}

/// Returns the event of an arrival, if `what` is 1, or of a change of the interrupt line, if `what` is 2. `value` is
/// the number of the fate, or the new level.
fn other_event(what: u32, value: u32) -> KeptEvent
    ensures { result ≡ events.other_event what value }
{
    KeptEvent {
        what,
        kind: 0,
        value,
        reason: 0,
        index: 0,
    }
}

impl Observer for Events {
    ghost use Rattle.std.specs.Prelude.{refl};
    ghost use Rattle.nic82540em.specs.Events.{HearsBetween};
    ghost use Rattle.nic82540em.specs.EventsLaws.{heard_joins};

    ghost heard = { HearsBetween };

    ghost composes = { record { stays = λ a. refl; joins = heard_joins } };

    /// Keeps the event of a step, unless its outcome is `Nothing`.
    #[tactic(auto, using(crate::proofs::Framed::framed_number))]
    fn stepped(
        &mut self,
        kind: StepKind,
        outcome: Outcome<()>,
        _frame: &[u8],
        fault: Option<EngineFault>,
    ) {
        let number = outcome_number(outcome);
        // 0 is the number of `Nothing`.
        if number != 0 {
            self.keep(step_event(kind_number(kind), number, fault));
        }
    }

    /// Keeps the event of an arrival, without the frame.
    fn arrived(&mut self, _frame: &[u8], fate: Fate) {
        self.keep(other_event(1, fate_number(fate)));
    }

    /// Keeps the event of the arrival of an offered frame, as of any arrival.
    fn offered_arrived(&mut self, _frame: &[u8], fate: Fate) {
        self.keep(other_event(1, fate_number(fate)));
    }

    /// Keeps no event: C makes the accesses itself.
    fn read(&mut self, _offset: u32, _value: u32) {}

    /// Keeps no event: C makes the accesses itself.
    fn written(&mut self, _offset: u32, _value: u32) {}

    /// Keeps no event: C makes the accesses itself.
    fn loaded(&mut self, _address: u64, _bytes: &[u8]) {}

    /// Keeps no event: C makes the accesses itself.
    fn stored(&mut self, _address: u64, _bytes: &[u8]) {}

    /// Keeps no event: only steps, arrivals and changes of the interrupt line have events.
    fn noted(&mut self, _action: Action) {}

    /// Keeps the event of a change of the interrupt line.
    fn line(&mut self, level: bool) {
        self.keep(other_event(2, u32::from(level)));
    }
}
