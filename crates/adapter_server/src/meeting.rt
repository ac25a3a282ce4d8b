// A player meets tasks: the agenda's moves before the task's access or request are played, and the agenda counts this
// access or request. The recorder notes actions that have an effect.

ghost use Rattle.std.specs.Prelude.{◌≡◌, OnOk};
ghost use Rattle.played_adapter.specs.Order.{InOrder, Tells};
ghost use Rattle.played_adapter.specs.Playing.{Makes};

use crate::task::{Task, target_at};
use played_adapter::{Observer, PlayedAdapter};
use std::alloc::{AllocError, Global};
use step_schedules::{Agenda, Before, Recorder};

impl<'a> Task<'a> {
    ghost use Rattle.adapter_server.specs.Tasks.{number_wanted, task_agenda, task_moves, task_number};
    ghost use Rattle.adapter_server.specs.Tasks.{task_recorder, task_wanted};

    /// If there is a player, the recorder begins the task's access or request. Actions that are noted from now on were
    /// played before this access or request. Does nothing if the task sets the clock. Fails only if memory is refused.
    #[inline]
    pub(crate) fn begin(
        self,
        alloc: Global,
        device: &PlayedAdapter,
        agenda: &Option<Agenda>,
        recorder: &mut Option<Recorder>,
    ) -> Result<(), AllocError>
        ensures { OnOk result (recorder.new
            ≡ task_recorder self.entry device.now.machine.world.adapter agenda.now recorder.old) }
    {
        let Some(agenda) = agenda else {
            return Ok(());
        };
        let Some(before) = self.before() else {
            return Ok(());
        };
        let Some(recorder) = recorder else {
            return Ok(());
        };
        let name = self.name(alloc, device)?;
        // The place in the run, not the target of an access.
        let place = agenda.coming(before, name.as_bytes()).place;
        recorder.begin(place, before, name);
        Ok(())
    }

    /// If there is an agenda, plays its moves before the task's access or request, and counts this access or request.
    /// Does nothing if the task sets the clock. Returns the number that the first due action chooses at the task
    /// `choose`, or 0. For other tasks, returns 0.
    pub(crate) fn meet<O: Observer>(
        self,
        device: &mut PlayedAdapter,
        agenda: &mut Option<Agenda>,
        observer: &mut O,
    ) -> u32
        ensures moves { Tells O.heard observer.old observer.new
            (InOrder Makes (task_moves self.entry device.old agenda.old) device.old device.new) }
        ensures met { agenda.new ≡ task_agenda self.entry device.old.machine.world.adapter agenda.old }
        ensures wanted { result ≡ task_wanted self.entry agenda.old }
    {
        let Some(agenda) = agenda else {
            return 0;
        };
        match self {
            Task::Read(place, address, _) => {
                let name = target_at(device, place, address).name();
                device.meet_access(agenda, Before::Read, name.as_slice(), observer);
                0
            }
            Task::Write(place, address, _) => {
                let name = target_at(device, place, address).name();
                device.meet_access(agenda, Before::Write, name.as_slice(), observer);
                0
            }
            Task::Choose(_) => {
                // A request for a number has no moves, so it is only counted. Counting changes which actions are due,
                // so the number is found first.
                let event = agenda.coming(Before::Choice, self.word().as_bytes());
                let wanted = agenda.chosen(&event);
                agenda.count(&event);
                wanted
            }
            Task::SetClock(_) => 0,
            _ => {
                device.meet_request(agenda, Before::Request, self.word().as_bytes(), observer);
                0
            }
        }
    }

    /// Returns the number that answers the task `choose`: `number`, which is taken, or `due` if there is no `number`.
    /// For other tasks, returns `due`.
    pub(crate) fn take_number(self, number: &mut Option<u32>, due: u32) -> u32
        ensures number { result ≡ number_wanted self.entry number.old due }
        ensures taken { number.new ≡ task_number self.entry number.old }
    {
        match self {
            Task::Choose(_) => number.take().unwrap_or(due),
            _ => due,
        }
    }
}
