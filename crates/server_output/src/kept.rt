// The past events that a server keeps, which events the server writes, and the recorder.

ghost use Rattle.std.specs.Prelude.{◌≡◌, OnOk};
ghost use Rattle.std.specs.Option.{option_map};
ghost use Rattle.adapter.specs.Outcomes.{with_frame};
ghost use Rattle.server_output.specs.Telling.{kept_with};
ghost use Rattle.step_schedules.specs.Players.{after_playing};

use crate::faults::Faults;
use access_names::EngineFault;
use adapter::Outcome;
use played_adapter::Frames;
use std::alloc::{AllocError, Global};
use step_schedules::{Action, Recorder};

/// The past events that a server keeps, which events the server writes, and the recorder.
#[derive(Drop)]
pub struct Kept {
    /// Whether steps, accesses and arrivals are written.
    pub log: bool,
    /// Whether frames that are put onto the wire, faults, and arrivals of offered frames are written.
    pub events: bool,
    /// The frames that were put onto the wire while events weren't written, and that weren't fetched yet.
    pub put: Frames,
    /// The faults that stopped an engine while events weren't written, and that weren't fetched yet.
    pub faults: Faults,
    /// The recorder of the actions that are played, if there is a player.
    pub recorder: Option<Recorder>,
}

impl Clone for Kept {
    ghost is_clone = { λ kept copy. copy ≡ kept };

    /// Returns a copy with its own memory. Fails only if memory was refused.
    fn clone(&self) -> Result<Kept, AllocError> {
        Ok(Kept {
            put: self.put.clone()?,
            faults: self.faults.clone()?,
            recorder: self.recorder.clone()?,
            log: self.log,
            events: self.events,
        })
    }
}

impl Kept {
    /// Keeps the frame that a step put and the step's fault, until the requests `frames` and `faults` fetch them. Keeps
    /// nothing if events are written. If the step put no frame, `frame` has no meaning. Fails only if memory was
    /// refused.
    pub(crate) fn keep_step(
        &mut self,
        alloc: Global,
        outcome: Outcome<()>,
        frame: &[u8],
        fault: Option<EngineFault>,
    ) -> Result<(), AllocError>
        ensures { OnOk result (self.new ≡ kept_with (with_frame frame.now outcome) fault self.old) }
    {
        if self.events {
            return Ok(());
        }
        if let Outcome::Put(()) = outcome {
            self.put.push(alloc, frame)?;
        }
        match fault {
            Some(fault) => self.faults.push(fault),
            None => Ok(()),
        }
    }

    /// Records an action, if there is a recorder. Fails only if memory was refused.
    pub(crate) fn note(&mut self, action: Action) -> Result<(), AllocError>
        ensures { OnOk result (self.new ≡
            record self.old { recorder = option_map (after_playing action) self.old.recorder }) }
    {
        match &mut self.recorder {
            Some(recorder) => recorder.note(action),
            None => Ok(()),
        }
    }
}
