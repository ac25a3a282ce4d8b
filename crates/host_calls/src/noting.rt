// Notes of the ticks of a reset, and the observer that takes these notes.

ghost use Rattle.std.specs.Prelude.{◌≡◌, ◌≤◌, ◌∷◌, [], length, vec_capacity};
ghost use Rattle.adapter.specs.Outcomes.{with_frame};
ghost use Rattle.descriptors.specs.Frames.{longest_frame};
ghost use Rattle.stations.specs.ToldTicks.{tick_told};
ghost use Rattle.host_calls.specs.Notes as notes;
ghost use Rattle.host_calls.specs.Notes.{NotesFit, NotesTicks, Notes};
ghost use Rattle.host_calls.specs.NotesView.{NotesHaveRoom, notes_of};

use adapter::Outcome;
use descriptors::Frame;
use rx_engine::Fate;
use stations::{Observer, Tick};
use std::marker::Model;

/// The number of accesses before the write of CTRL.RST: the write of 0 to RCTL, and the read of MPC. Frames that are
/// put after more accesses aren't counted.
const BEFORE_RESET: u64 = 2;

/// Notes of a reset: the number of frames that the host put before CTRL.RST was written, and a list of at most `most`
/// frames. The list contains the frames held at the beginning, and then those stored before the receiver was disabled.
///
/// In contracts, the value is a `Notes` (`specs/Notes.antt`).
#[derive(Drop)]
pub(crate) struct Noted {
    /// The number of the host that is reset.
    host: usize,
    /// The greatest number of frames in `holding`: no more frames fit into the receive ring and the packet buffer.
    most: usize,
    /// The number of frames that the host put before CTRL.RST was written; it saturates at the greatest `u64`.
    put: u64,
    /// The frames that the host's adapter and receive ring hold: in finished slots, in the slot in progress, and in the
    /// receive packet buffer. The oldest frame is the first.
    holding: Vec<Frame>,
}

impl Model for Noted {
    ghost Value = { Notes };

    ghost view = { notes_of };

    ghost invariant = { NotesHaveRoom };
}

impl Noted {
    /// Returns the notes before any tick. `holding` contains the frames held at the beginning, at most `most` frames.
    /// This list must have room for `most` frames, because [`note`](Noted::note) appends stored frames.
    pub(crate) fn new(host: usize, most: usize, holding: Vec<Frame>) -> Noted
        requires room { most ≤ vec_capacity holding }
        requires fits { length holding.items ≤ most }
        ensures is { result ≡ record {
          host = host;
          most = most;
          put = 0;
          holding = holding.items;
        } }
        ensures within { NotesFit result }
    {
        Noted {
            host,
            most,
            put: 0,
            holding,
        }
    }

    /// Notes a tick, whose frame must have at most 1,518 bytes. Counts a frame that the reset host put after at most 2
    /// accesses: the third access writes CTRL.RST. Appends a frame that this host stored before the first access, if
    /// the list has fewer than `most` frames. The first access writes 0 to RCTL, so no frame is stored after it.
    fn note(&mut self, tick: Tick, accesses: u64, outcome: Outcome<()>, frame: &[u8])
        requires fits { length frame.now ≤ longest_frame }
        ensures { NotesTicks self.old self.new (tick_told tick accesses (with_frame frame.now outcome) ∷ []) }
    {
        if !is_of_host(self.host, tick) {
            return;
        }
        match outcome {
            Outcome::Put(()) if accesses <= BEFORE_RESET => self.put = self.put.saturating_add(1),
            Outcome::Delivered((), Fate::Stored)
                if accesses == 0 && self.holding.len() < self.most => {
                // There is room for `most` frames, so `push` returns no error.
                let _ = self.holding.push(Frame::from_slice(frame));
            }
            _ => {}
        }
    }

    /// Returns the number of frames put, and the list of frames held.
    pub(crate) fn into_parts(self) -> (u64, Vec<Frame>)
        ensures put { result.0 ≡ self.put }
        ensures holding { result.1.items ≡ self.holding }
    {
        (self.put, self.holding)
    }
}

/// Returns whether a tick is a step or a delivery at this host; `false` for `Go`.
fn is_of_host(host: usize, tick: Tick) -> bool
    ensures { result ≡ notes.is_of_host host tick }
{
    match tick {
        Tick::Go => false,
        Tick::Step(other, _) | Tick::Deliver(other) => other == host,
    }
}

/// An observer of the ticks of a reset. This observer passes what it is told to another observer, and also takes
/// notes.
#[derive(Drop)]
pub(crate) struct NotingObserver<'a, O: Observer> {
    /// The other observer.
    pub(crate) observer: &'a mut O,
    /// The notes.
    pub(crate) noted: &'a mut Noted,
}

impl<'a, O: Observer> Observer for NotingObserver<'a, O> {
    ghost use Rattle.host_calls.specs.NotingObservers.{TellsAndNotes};
    ghost use Rattle.host_calls.specs.NotingLaws.{tells_compose};

    ghost heard = { TellsAndNotes O.heard };

    ghost room_left = { λ noting. O.room_left noting.observer.now };

    ghost composes = { tells_compose O.heard O.composes };

    fn note(&mut self, tick: Tick, accesses: u64, outcome: Outcome<()>, frame: &[u8]) {
        self.observer.note(tick, accesses, outcome, frame);
        self.noted.note(tick, accesses, outcome, frame);
    }
}
