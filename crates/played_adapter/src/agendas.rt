// What a schedule plays before accesses and requests.

ghost use Rattle.std.specs.Prelude.{◌≡◌, ◌++◌, flat_map};
ghost use Rattle.played_adapter.specs.Moves as spec;
ghost use Rattle.played_adapter.specs.Order.{InOrder, Tells};
ghost use Rattle.played_adapter.specs.Playing.{Makes};
ghost use Rattle.step_schedules.specs.Agendas.{agenda_after};
ghost use Rattle.step_schedules.specs.Events.{event_value};
ghost use Rattle.step_schedules.specs.Waiting.{due_before};

use crate::choices::{Choice, Move};
use crate::observer::Observer;
use crate::player::PlayedAdapter;
use adapter::StepKind;
use step_schedules::{Action, Agenda, Before, Event};

/// Returns the moves of an action, in order, or no moves if there is no action. An action has at most two moves; a hold
/// and a chosen number have no moves.
fn moves_of(action: Option<Action>) -> (Option<Move>, Option<Move>)
    ensures { spec.listed result.0 ++ spec.listed result.1 ≡ spec.moves_of_next action }
{
    let Some(action) = action else {
        return (None, None);
    };
    match action {
        Action::TxTake => (Some(Move::Play(Choice::Step(StepKind::TxTake))), None),
        Action::TxPut => (Some(Move::Play(Choice::Step(StepKind::TxPut))), None),
        Action::RxData => (Some(Move::Play(Choice::Step(StepKind::RxData))), None),
        Action::RxDone => (Some(Move::Play(Choice::Step(StepKind::RxDone))), None),
        Action::EepromTick => (Some(Move::Play(Choice::Step(StepKind::EepromTick))), None),
        Action::PhyTick => (Some(Move::Play(Choice::Step(StepKind::PhyTick))), None),
        Action::Tx => (
            Some(Move::Play(Choice::Step(StepKind::TxTake))),
            Some(Move::Play(Choice::Step(StepKind::TxPut))),
        ),
        Action::Rx => (
            Some(Move::Play(Choice::Step(StepKind::RxData))),
            Some(Move::Play(Choice::Step(StepKind::RxDone))),
        ),
        Action::Arrive => (Some(Move::Play(Choice::Arrival)), None),
        Action::HoldEeprom | Action::HoldPhy | Action::Choose(_) => (None, None),
    }
}

/// Returns the move of a default step of this kind that has work: the action `hold` if the step is held, else the step.
fn default_move(is_held: bool, kind: StepKind, hold: Action) -> Move
    ensures { result ≡ spec.default_move is_held kind hold }
{
    if is_held {
        Move::Hold(hold)
    } else {
        Move::Tick(kind)
    }
}

impl PlayedAdapter {
    /// Plays the moves of the actions that are due before an access or a request that comes now, in the order of the
    /// schedule. Actions without moves, such as holds, do nothing. Then the agenda counts the access or the request.
    fn meet<O: Observer>(&mut self, agenda: &mut Agenda, event: &Event<'_>, observer: &mut O)
        ensures plays { Tells O.heard observer.old observer.new (InOrder Makes
            (flat_map spec.moves_of (due_before (event_value event.now) agenda.old.deviations))
            self.old self.new) }
        ensures met { agenda.new ≡ agenda_after (event_value event.now) agenda.old }
    {
        let waiting = agenda.deviations();
        for one in waiting {
            let (first, second) = moves_of(one.due_action(event));
            self.make(first, observer);
            self.make(second, observer);
        }
        agenda.count(event);
    }

    /// Plays the moves of the default steps of the EEPROM and of the PHY, and then of the due actions, before an access
    /// of this kind, whose target has this name. Then the agenda counts the access. The caller makes the access
    /// afterwards.
    pub fn meet_access<O: Observer>(
        &mut self,
        agenda: &mut Agenda,
        before: Before,
        name: &[u8],
        observer: &mut O,
    )
        ensures plays { Tells O.heard observer.old observer.new
            (InOrder Makes (spec.access_moves before name.now agenda.old self.old) self.old self.new) }
        ensures met { agenda.new ≡ spec.met before name.now agenda.old }
    {
        let event = agenda.coming(before, name);
        let held = agenda.held(&event);
        let eeprom = default_move(held.eeprom, StepKind::EepromTick, Action::HoldEeprom);
        let phy = default_move(held.phy, StepKind::PhyTick, Action::HoldPhy);
        // A step that has work has a move, the EEPROM's first. Both tests for work precede the first move.
        let eeprom = self.machine.eeprom_has_work().then_some(eeprom);
        let phy = self.machine.phy_has_work().then_some(phy);
        self.make(eeprom, observer);
        self.make(phy, observer);
        self.meet(agenda, &event, observer);
    }

    /// Plays the moves of the actions that are due before a request of this kind, with this first word. Then the agenda
    /// counts the request. The caller serves the request afterwards. No default step precedes a request.
    pub fn meet_request<O: Observer>(
        &mut self,
        agenda: &mut Agenda,
        before: Before,
        name: &[u8],
        observer: &mut O,
    )
        ensures plays { Tells O.heard observer.old observer.new
            (InOrder Makes (spec.request_moves before name.now agenda.old) self.old self.new) }
        ensures met { agenda.new ≡ spec.met before name.now agenda.old }
    {
        let event = agenda.coming(before, name);
        self.meet(agenda, &event, observer);
    }
}
