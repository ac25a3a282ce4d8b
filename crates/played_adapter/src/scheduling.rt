// Scheduled steps, which are played before accesses, by the numbers of the accesses.

ghost use Rattle.played_adapter.specs.Order.{InOrder, Tells};
ghost use Rattle.played_adapter.specs.Playing.{AnswersSchedule, PlaysScheduled, due_in};

use crate::observer::Observer;
use crate::player::PlayedAdapter;
use adapter::StepKind;

/// The maximum number of steps that wait for their accesses, after `new` (our choice).
pub(crate) const MOST_SCHEDULED: usize = 4096;

/// A step that waits for an access.
#[derive(Clone, Copy)]
pub struct ScheduledStep {
    /// The number of the first access before which the step can be played. The first access has number 0.
    pub access: u64,
    /// The kind of the step.
    pub kind: StepKind,
}

impl PlayedAdapter {
    /// Schedules a step of this kind, after all steps that are scheduled already.
    ///
    /// The step is played before the next access with a number of at least `access`, but not before the steps scheduled
    /// earlier. If there is no room for another step, returns `false` and changes nothing. An adapter made by
    /// `without_wire` has no room for any step.
    pub fn schedule(&mut self, access: u64, kind: StepKind) -> bool
        ensures { AnswersSchedule access kind result self.old self.new }
    {
        self.scheduled
            .try_push_back(ScheduledStep { access, kind })
            .is_ok()
    }

    /// Removes and plays the scheduled steps that are due before the next access, in order. These are the steps in
    /// front of the first step for a later access. The next access has the number `accesses`. Reports each step to the
    /// observer.
    pub(crate) fn play_scheduled<O: Observer>(&mut self, observer: &mut O)
        ensures { Tells O.heard observer.old observer.new (InOrder PlaysScheduled (due_in self.old) self.old self.new) }
    {
        while let Some(front) = self.scheduled.front() {
            let step = *front;
            if step.access > self.accesses {
                return;
            }
            self.scheduled.pop_front();
            self.step(step.kind, observer);
        }
    }
}
