// The state of a server: an adapter that is served, and the copy that `save` made last.

ghost use Rattle.std.specs.Prelude.{◌≡◌};

use crate::session::Session;
use server_output::{AnswerError, refuse, restored_text, say};
use server_requests::Refusal;
use std::alloc::Global;
use std::io::Write;
use step_schedules::Player;

/// The state of a server between two requests.
#[derive(Drop)]
pub struct Server {
    /// The adapter that is served.
    pub session: Session,
    /// The copy that `save` made last, if there is one.
    pub saved: Option<Session>,
}

/// Stores a value at a place, and drops the value that was there. This is a function because the proofs of `save` and
/// `restore` use its clause.
fn put_in_place<T: Drop>(place: &mut T, value: T)
    ensures { place.new ≡ value }
{
    *place = value;
}

impl Server {
    ghost use Rattle.adapter_server.specs.Answers.{Restores, Saves, TellsAnswer};
    ghost use Rattle.adapter_server.specs.Serving.{player_of};

    /// Returns the player: the agenda and the recorder of the session. Returns `None` if one of them is missing. Drops
    /// everything else.
    pub(crate) fn into_player(self) -> Option<Player>
        ensures { result ≡ player_of self.session.agenda self.session.kept.recorder }
    {
        let Server { mut session, saved } = self;
        let agenda = session.agenda.take();
        let recorder = session.kept.recorder.take();
        drop(session);
        drop(saved);
        match agenda.zip(recorder) {
            Some((agenda, recorder)) => Some(Player { agenda, recorder }),
            None => None,
        }
    }

    /// Answers `save`: replaces the saved copy by a copy of the session.
    pub(crate) fn save<W: Write>(&mut self, out: &mut W) -> Result<(), AnswerError>
        ensures { TellsAnswer result (W.contents out.old) (W.contents out.new) (Saves self.old) self.new }
    {
        let copy = self.session.copy()?;
        put_in_place(&mut self.saved, Some(copy));
        say(out, b"OK\n")
    }

    /// Answers `restore`: replaces the session by a copy of the saved session. Reports the level of the interrupt line
    /// if the replaced session had another level. Refuses the request if nothing was saved.
    pub(crate) fn restore<W: Write>(&mut self, out: &mut W) -> Result<(), AnswerError>
        ensures { TellsAnswer result (W.contents out.old) (W.contents out.new)
            (Restores self.old.saved self.old) self.new }
    {
        let Some(saved) = &self.saved else {
            return refuse(out, Refusal::Saved);
        };
        let before = self.session.device.machine.line();
        let level = saved.device.machine.line();
        let session = saved.copy()?;
        put_in_place(&mut self.session, session);
        say(out, restored_text((level != before).then_some(level)))
    }
}
