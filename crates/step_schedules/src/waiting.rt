// Deviations that wait to be played.

ghost use Rattle.std.specs.Prelude.{◌≡◌, IfOk, map};
ghost use Rattle.step_schedules.specs.Events.{event_value};
ghost use Rattle.step_schedules.specs.Waiting as spec;
ghost use Rattle.step_schedules.specs.Deviations.{deviation_value};

use crate::deviation::{Action, Deviation, Site};
use crate::event::Event;
use std::alloc::{AllocError, Global};

/// A deviation of a schedule in a run: it waits for its access or request, or has been due and waits no longer.
#[derive(Drop)]
pub struct Waiting {
    /// The deviation.
    pub(crate) deviation: Deviation,
    /// The number of matching events that must still come. The deviation is due before the last of them. If the number
    /// is 0, the deviation has been due.
    pub(crate) left: u32,
}

impl Clone for Waiting {
    ghost is_clone = { λ waiting copy. spec.waiting_value copy ≡ spec.waiting_value waiting };

    fn clone(&self) -> Result<Waiting, AllocError> {
        Ok(Waiting {
            deviation: self.deviation.clone()?,
            left: self.left,
        })
    }
}

impl Waiting {
    /// Returns a deviation as it waits at the start of the run.
    pub(crate) fn new(deviation: Deviation) -> Waiting
        ensures { spec.waiting_value result ≡ spec.waits (deviation_value deviation) }
    {
        let left = match deviation.site {
            // Due before the first event that the deviation matches.
            Site::Place(_) => 1,
            Site::Number(number) => number,
        };
        Waiting { deviation, left }
    }

    /// Returns whether the deviation is due before an event that comes now.
    fn is_due(&self, event: &Event<'_>) -> bool
        ensures { result ≡ spec.is_due (event_value event.now) (spec.waiting_value self.now) }
    {
        self.left == 1 && event.is_matched_by(&self.deviation)
    }

    /// Returns the action of the deviation, if the deviation is due before an event that comes now.
    pub fn due_action(&self, event: &Event<'_>) -> Option<Action>
        ensures { result ≡ spec.due_action (event_value event.now) (spec.waiting_value self.now) }
    {
        if self.is_due(event) {
            Some(self.deviation.action)
        } else {
            None
        }
    }

    /// Counts an event that comes now, if the deviation matches it and hasn't been due yet.
    fn count(&mut self, event: &Event<'_>)
        ensures { spec.waiting_value self.new ≡
            spec.event_counted (event_value event.now) (spec.waiting_value self.old) }
    {
        if event.is_matched_by(&self.deviation) {
            self.left = self.left.saturating_sub(1);
        }
    }
}

/// Counts an event that comes now, for each deviation that matches it and hasn't been due yet.
pub(crate) fn count_all(waiting: &mut [Waiting], event: &Event<'_>)
    ensures { map spec.waiting_value waiting.new
        ≡ map (spec.event_counted (event_value event.now)) (map spec.waiting_value waiting.old) }
{
    for one in waiting.iter_mut() {
        one.count(event);
    }
}

/// Returns the deviations of a schedule as they wait at the start of the run. Fails only if memory was refused.
pub(crate) fn waiting_of(
    alloc: Global,
    deviations: Vec<Deviation>,
) -> Result<Vec<Waiting>, AllocError>
    ensures { IfOk result (λ waiting. map spec.waiting_value waiting.items
        ≡ map spec.waits (map deviation_value deviations.items)) }
{
    let mut waiting = Vec::new(alloc);
    for deviation in deviations {
        waiting.push(Waiting::new(deviation))?;
    }
    Ok(waiting)
}

/// Returns copies of the deviations that haven't been due yet, in order. Fails only if memory was refused.
pub(crate) fn unmet_in(alloc: Global, waiting: &[Waiting]) -> Result<Vec<Deviation>, AllocError>
    ensures { IfOk result (λ unmet. map deviation_value unmet.items
        ≡ spec.unmet_in (map spec.waiting_value waiting.now)) }
{
    let mut unmet = Vec::new(alloc);
    for one in waiting {
        if one.left > 0 {
            unmet.push(one.deviation.clone()?)?;
        }
    }
    Ok(unmet)
}
