// Players, and the records of what was played.

ghost use Rattle.std.specs.Prelude.{◌≡◌, IfOk, OnOk, string_bytes};
ghost use Rattle.std.specs.Option.{option_map};
ghost use Rattle.step_schedules.specs.Agendas.{agenda_of, idle_agenda};
ghost use Rattle.step_schedules.specs.Players as spec;
ghost use Rattle.step_schedules.specs.Schedules.{option_texts, schedule_value};
ghost use Rattle.step_schedules.specs.Texts.{schedule_text};

use crate::agenda::Agenda;
use crate::deviation::{Action, Before, Deviation, Place, Site};
use crate::event::Past;
use crate::schedule::Schedule;
use std::alloc::{AllocError, Global};
use std::marker::Model;

/// A player: the agenda of a run, and the record of what was played in the run.
#[derive(Drop)]
pub struct Player {
    /// Finds the deviations that are due.
    pub agenda: Agenda,
    /// Records the actions that were played.
    pub recorder: Recorder,
}

/// Records the actions that were played in a run, each before the access or the request that began last.
///
/// In contracts, the value is a `RecorderState`, plain data that `specs/Players.antt` defines.
#[derive(Drop)]
pub struct Recorder {
    /// The access or the request that began last.
    event: Past,
    /// The actions that were played, the oldest first, each with the place and name of its access or request.
    played: Vec<Deviation>,
}

impl Model for Recorder {
    ghost use Rattle.std.specs.Prelude.{map};
    ghost use Rattle.step_schedules.specs.Deviations.{deviation_value};
    ghost use Rattle.step_schedules.specs.Events.{past_value};
    ghost use Rattle.step_schedules.specs.Players.{RecorderState};

    ghost Value = { RecorderState };

    ghost view = { λ recorder. record {
      event = past_value recorder.event;
      played = map deviation_value recorder.played.items;
    } };
}

impl Clone for Recorder {
    ghost is_clone = { λ recorder copy. copy ≡ recorder };

    /// Returns the same recorder. Fails only if memory was refused.
    #[tactic(auto, using(crate::proofs::Copies::copied_deviations))]
    fn clone(&self) -> Result<Recorder, AllocError> {
        Ok(Recorder {
            event: self.event.clone()?,
            played: self.played.clone()?,
        })
    }
}

impl Player {
    /// Returns a player that only records, before the run: it has no schedule, so no action is ever due.
    pub fn recording(alloc: Global) -> Player
        ensures agenda { result.agenda ≡ idle_agenda }
        ensures recorder { result.recorder ≡ spec.new_recorder }
    {
        Player {
            agenda: Agenda::idle(alloc),
            recorder: Recorder::new(alloc),
        }
    }

    /// Returns a player of a schedule, before the run. The player also records. Fails only if memory was refused.
    pub fn playing(alloc: Global, schedule: Schedule) -> Result<Player, AllocError>
        ensures agenda { IfOk result (λ player. player.agenda ≡ agenda_of (schedule_value schedule)) }
        ensures recorder { IfOk result (λ player. player.recorder ≡ spec.new_recorder) }
    {
        Ok(Player {
            agenda: Agenda::new(alloc, schedule)?,
            recorder: Recorder::new(alloc),
        })
    }
}

impl Recorder {
    /// Returns a recorder before the run.
    fn new(alloc: Global) -> Recorder
        ensures { result ≡ spec.new_recorder }
    {
        Recorder {
            event: Past::none(alloc),
            played: Vec::new(alloc),
        }
    }

    /// Stores that an access or a request of this kind, with this place and name, begins. Actions that are noted from
    /// now on were played before this access or request.
    pub fn begin(&mut self, place: Place, before: Before, name: String)
        ensures { self.new ≡ spec.begun
            (record { place = place; before = before; name = string_bytes name }) self.old }
    {
        self.event = Past {
            place,
            before,
            name,
        };
    }

    /// Records an action that was played before the access or the request that began last. Fails only if memory was
    /// refused.
    pub fn note(&mut self, action: Action) -> Result<(), AllocError>
        ensures { OnOk result (self.new ≡ spec.after_playing action self.old) }
    {
        let deviation = Deviation {
            site: Site::Place(self.event.place),
            action,
            before: self.event.before,
            name: self.event.name.clone()?,
        };
        self.played.push(deviation)?;
        Ok(())
    }

    /// Returns the text of a schedule with these options, and with the actions that were recorded. Fails only if memory
    /// was refused.
    #[tactic(auto, using(crate::proofs::Copies::copied_deviations))]
    pub fn recorded(
        &self,
        alloc: Global,
        options: Option<Vec<String>>,
    ) -> Result<String, AllocError>
        ensures { IfOk result (λ text. string_bytes text
            ≡ schedule_text (spec.recorded (option_map option_texts options) self.now)) }
    {
        let schedule = Schedule {
            options,
            deviations: self.played.clone()?,
        };
        schedule.to_string(alloc)
    }
}
