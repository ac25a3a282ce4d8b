// The observer with which `Lan::run` collects replies.

use crate::run_observer::RunObserver;
use adapter::Outcome;
use network_plan::{Answer, Event, Reply};
use stations::{HeapFrame, Observer, Outcomes, Tick};
use std::alloc::{AllocError, Global};

/// The parts of a reply that are collected before its event's answer, and memory for the answer's frame.
#[derive(Drop)]
pub(crate) struct Current {
    /// The outcomes of the ticks of the current event.
    pub(crate) outcomes: Outcomes,
    /// Memory for a frame that a socket may return; `None` until `reserve` allocates this memory, and after an answer.
    pub(crate) frame: Option<HeapFrame>,
}

/// An observer that collects a reply for each event of a run.
#[derive(Drop)]
pub(crate) struct Collector<'a> {
    pub(crate) alloc: Global,
    /// The list to which the replies are appended.
    pub(crate) replies: &'a mut Vec<Reply>,
    /// What is collected for the reply to the current event.
    pub(crate) current: &'a mut Current,
}

impl<'a> Collector<'a> {
    ghost use Rattle.std.specs.Prelude.{◌≤◌, [], IfOk};
    ghost use Rattle.wire.specs.Collecting.{CollectsTicks, HasPlaceForReply};

    /// Makes room for the reply to an event with `ticks` ticks, and for the frame that the reply may contain. The
    /// collected replies and outcomes don't change, even after an error.
    ///
    /// # Errors
    ///
    /// Returns an error only if an allocation fails.
    fn reserve(&mut self, ticks: usize) -> Result<(), AllocError>
        ensures nothing { CollectsTicks self.old self.new [] }
        ensures reply { IfOk result (λ done. HasPlaceForReply self.new) }
        ensures ticks { IfOk result (λ done. ticks ≤ self.new.current.now.outcomes.room) }
    {
        self.replies.reserve(1)?;
        self.current.outcomes.reserve(self.alloc, ticks)?;
        if self.current.frame.is_none() {
            self.current.frame = Some(HeapFrame::with_room(self.alloc)?);
        }
        Ok(())
    }
}

impl<'a> Observer for Collector<'a> {
    ghost use Rattle.wire.specs.Collecting.{CollectsTicks, room_in, ticks_composes};

    ghost heard = { CollectsTicks };

    ghost room_left = { room_in };

    ghost composes = { ticks_composes };

    fn note(&mut self, tick: Tick, accesses: u64, outcome: Outcome<()>, frame: &[u8]) {
        self.current.outcomes.note(tick, accesses, outcome, frame);
    }
}

impl<'a> RunObserver for Collector<'a> {
    ghost use Rattle.std.specs.Prelude.{⊤};
    ghost use Rattle.wire.specs.Collecting.{CollectsReplies, IsReadyToCollect, replies_compose};

    ghost ran = { CollectsReplies };

    ghost ready = { IsReadyToCollect };

    ghost refuses = { λ now event. ⊤ };

    ghost composes_runs = { replies_compose };

    fn make_room(&mut self, _event: &Event<'_>, ticks: usize) -> bool {
        self.reserve(ticks).is_ok()
    }

    fn answer(&mut self, _event: &Event<'_>, accesses: u64, answer: Answer<()>, frame: &[u8]) {
        // `reserve` allocated this memory before the event, so `self.current.frame` isn't `None`.
        let mut given = self.current.frame.take().unwrap();
        given.fill(frame);
        let outcomes = std::mem::replace(&mut self.current.outcomes, Outcomes::new(self.alloc));
        // `reserve` also made room for the reply.
        self.replies.push_reserved(Reply {
            answer: answer.with_frame(given),
            accesses,
            outcomes,
        });
    }
}
