// The deviations of a schedule in a run.

ghost use Rattle.std.specs.Prelude.{◌≡◌, ◌∷◌, IfOk, List, map, string_bytes};
ghost use Rattle.step_schedules.specs.Agendas as spec;
ghost use Rattle.step_schedules.specs.Events.{event_value};
ghost use Rattle.step_schedules.specs.Players.{chosen};
ghost use Rattle.step_schedules.specs.Schedules.{schedule_value};
ghost use Rattle.step_schedules.specs.Texts.{deviation_lines};
ghost use Rattle.step_schedules.specs.Waiting.{due_before, unmet_in, waiting_value};

use crate::deviation::{Action, Before, Place};
use crate::event::{Event, next_place};
use crate::schedule::Schedule;
use crate::waiting::{Waiting, count_all, unmet_in, waiting_of};
use std::alloc::{AllocError, Global};
use std::marker::Model;

/// The place before the run.
const START: Place = Place {
    round: 0,
    access: 0,
};

/// Which default steps are left out (held) before an access.
#[derive(Clone, Copy)]
pub struct Held {
    /// Whether the default step of the EEPROM is left out.
    pub eeprom: bool,
    /// Whether the default step of the PHY is left out.
    pub phy: bool,
}

/// Counts the accesses and requests of a run, and finds the deviations that are due. An agenda records nothing. Only
/// `new`, `clone` and `unmet` allocate.
///
/// In contracts, the value is an `AgendaState`, plain data that `specs/Agendas.antt` defines.
#[derive(Drop)]
pub struct Agenda {
    /// Whether the run has a schedule. If not, all default steps are left out.
    has_schedule: bool,
    /// The place of the access or request that was counted last, or [`START`].
    last: Place,
    /// All deviations of the schedule, in order, also those that have been due.
    deviations: Vec<Waiting>,
}

impl Model for Agenda {
    ghost use Rattle.std.specs.Prelude.{map};
    ghost use Rattle.step_schedules.specs.Agendas.{AgendaState};
    ghost use Rattle.step_schedules.specs.Waiting.{waiting_value};

    ghost Value = { AgendaState };

    ghost view = { λ agenda. record {
      has_schedule = agenda.has_schedule;
      last = agenda.last;
      deviations = map waiting_value agenda.deviations.items;
    } };
}

impl Clone for Agenda {
    ghost is_clone = { λ agenda copy. copy ≡ agenda };

    /// Returns the same agenda. Fails only if memory was refused.
    #[tactic(auto, using(crate::proofs::Copies::copied_waiting))]
    fn clone(&self) -> Result<Agenda, AllocError> {
        Ok(Agenda {
            has_schedule: self.has_schedule,
            last: self.last,
            deviations: self.deviations.clone()?,
        })
    }
}

impl Held {
    /// Returns which default steps are left out if this action is also due: those of `self`, and the one that a hold
    /// leaves out. No action, or an action other than a hold, leaves out no further step.
    fn and(self, action: Option<Action>) -> Held
        ensures { result ≡ spec.held_after self action }
    {
        Held {
            eeprom: self.eeprom || matches!(action, Some(Action::HoldEeprom)),
            phy: self.phy || matches!(action, Some(Action::HoldPhy)),
        }
    }
}

/// Returns the number that an action chooses, or 0 if the action chooses no number. The clause: this number is `chosen`
/// of every list of actions that begins with this action, because later actions don't count.
fn chosen_by(action: Action) -> u32
    ensures { (later : List Action) → result ≡ chosen (action ∷ later) }
{
    match action {
        Action::Choose(number) => number,
        _ => 0,
    }
}

/// Returns which default steps are left out by the actions that are due before an event.
fn held_in(waiting: &[Waiting], event: &Event<'_>) -> Held
    ensures { result ≡ spec.held_by (due_before (event_value event.now) (map waiting_value waiting.now)) }
{
    let mut held = Held {
        eeprom: false,
        phy: false,
    };
    for one in waiting {
        held = held.and(one.due_action(event));
    }
    held
}

/// Returns the number that the first action due before an event chooses. Returns 0 if no action is due, or if this
/// first action chooses no number.
fn chosen_in(waiting: &[Waiting], event: &Event<'_>) -> u32
    ensures { result ≡ chosen (due_before (event_value event.now) (map waiting_value waiting.now)) }
{
    for one in waiting {
        if let Some(action) = one.due_action(event) {
            return chosen_by(action);
        }
    }
    0
}

impl Agenda {
    /// Returns the agenda of a schedule, before the run. Fails only if memory was refused.
    pub fn new(alloc: Global, schedule: Schedule) -> Result<Agenda, AllocError>
        ensures { IfOk result (λ agenda. agenda ≡ spec.agenda_of (schedule_value schedule)) }
    {
        Ok(Agenda {
            has_schedule: true,
            last: START,
            deviations: waiting_of(alloc, schedule.deviations)?,
        })
    }

    /// Returns the agenda of a run without a schedule, before the run. No action is ever due, and all default steps are
    /// left out.
    pub fn idle(alloc: Global) -> Agenda
        ensures { result ≡ spec.idle_agenda }
    {
        Agenda {
            has_schedule: false,
            last: START,
            deviations: Vec::new(alloc),
        }
    }

    /// Returns whether the run has a schedule. With a schedule, a default step is taken unless a due action leaves it
    /// out. Without a schedule, all default steps are left out.
    pub fn has_schedule(&self) -> bool
        ensures { result ≡ self.now.has_schedule }
    {
        self.has_schedule
    }

    /// Returns the access or request of this kind, and with this name, that comes next. The place of this event is the
    /// next place of this kind after the place of the last access or request.
    pub fn coming<'a>(&self, before: Before, name: &'a [u8]) -> Event<'a>
        ensures { event_value result ≡ spec.coming before name.entry.now self.now }
    {
        Event {
            place: next_place(self.last, before),
            before,
            name,
        }
    }

    /// Returns all deviations of the schedule, in order, each with the number of matching events that must still come.
    /// A deviation that has been due is also returned, although it no longer waits: its number is 0.
    pub fn deviations(&self) -> &[Waiting]
        ensures { map waiting_value result.now ≡ self.now.deviations }
    {
        self.deviations.as_slice()
    }

    /// Returns which default steps are left out before an event: those that due actions leave out, or all if the run
    /// has no schedule.
    pub fn held(&self, event: &Event<'_>) -> Held
        ensures { result ≡ spec.default_steps_held (due_before (event_value event.now) self.now.deviations) self.now }
    {
        if !self.has_schedule {
            return Held {
                eeprom: true,
                phy: true,
            };
        }
        held_in(self.deviations.as_slice(), event)
    }

    /// Returns the number that the first action due before an event chooses. Returns 0 if no action is due, or if this
    /// first action chooses no number.
    pub fn chosen(&self, event: &Event<'_>) -> u32
        ensures { result ≡ chosen (due_before (event_value event.now) self.now.deviations) }
    {
        chosen_in(self.deviations.as_slice(), event)
    }

    /// Returns the lines of the deviations that haven't been due yet, in the order of the schedule. Fails only if
    /// memory was refused.
    pub fn unmet(&self, alloc: Global) -> Result<String, AllocError>
        ensures { IfOk result (λ text. string_bytes text ≡ deviation_lines (unmet_in self.now.deviations)) }
    {
        // The text of a schedule without options consists of the lines of its deviations.
        let schedule = Schedule {
            options: None,
            deviations: unmet_in(alloc, self.deviations.as_slice())?,
        };
        schedule.to_string(alloc)
    }

    /// Counts an access or a request that comes now, for each deviation that matches it. A deviation that was due
    /// before this event has then been due, and isn't due again. The event's place becomes the last place.
    pub fn count(&mut self, event: &Event<'_>)
        ensures { self.new ≡ spec.agenda_after (event_value event.now) self.old }
    {
        self.last = event.place;
        count_all(self.deviations.as_mut_slice(), event);
    }
}
