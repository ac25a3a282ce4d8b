// An observer that collects the outcomes of ticks, in order.

ghost use Rattle.stations.specs.Outcomes.{OutcomeList, HasPlaces, outcomes_of};

use crate::heap_frame::HeapFrame;
use crate::observer::Observer;
use crate::tick::Tick;
use adapter::Outcome;
use std::alloc::{AllocError, Global};
use std::marker::Model;

/// An outcome of a tick, with the number of accesses that the call made before the tick.
#[derive(Debug, Drop, PartialEq, Eq)]
pub struct Numbered {
    /// The number of accesses that the call made before the tick.
    pub accesses: u64,
    /// The outcome of the tick.
    pub outcome: Outcome<HeapFrame>,
}

/// An observer that collects the outcomes of ticks, in order. Room for an outcome includes room for its frame.
///
/// In contracts, the value is an `OutcomeList`: the list of these outcomes, and the number of further outcomes for
/// which there is room.
#[derive(Debug, Drop)]
pub struct Outcomes {
    /// The outcomes so far, in order.
    list: Vec<Numbered>,
    /// An empty frame for each further outcome.
    spare: Vec<HeapFrame>,
}

impl Model for Outcomes {
    ghost Value = { OutcomeList };

    ghost view = { outcomes_of };

    ghost invariant = { HasPlaces };
}

impl Outcomes {
    ghost use Rattle.std.specs.Prelude.{◌≡◌, ◌≤◌, [], IfOk};

    /// Returns an empty list, without room for outcomes. The call allocates no memory.
    pub fn new(alloc: Global) -> Outcomes
        ensures none { result.list ≡ [] }
    {
        Outcomes {
            list: Vec::new(alloc),
            spare: Vec::new(alloc),
        }
    }

    /// Returns an empty list, with room for at least `room` outcomes.
    ///
    /// # Errors
    ///
    /// Returns an error only if an allocation fails.
    pub fn with_room(alloc: Global, room: usize) -> Result<Outcomes, AllocError>
        ensures none { IfOk result (λ outcomes. outcomes.list ≡ []) }
        ensures room { IfOk result (λ outcomes. room ≤ outcomes.room) }
    {
        let mut outcomes = Outcomes::new(alloc);
        outcomes.reserve(alloc, room)?;
        Ok(outcomes)
    }

    /// Makes room for at least `more` further outcomes, each with its frame, so that `note` allocates no memory. The
    /// list doesn't change, even after an error.
    ///
    /// # Errors
    ///
    /// Returns an error only if an allocation fails.
    pub fn reserve(&mut self, alloc: Global, more: usize) -> Result<(), AllocError>
        ensures stays { self.new.list ≡ self.old.list }
        ensures room { IfOk result (λ done. more ≤ self.new.room) }
    {
        self.list.reserve(more)?;
        while self.spare.len() < more {
            self.spare.push(HeapFrame::with_room(alloc)?)?;
        }
        Ok(())
    }

    /// Returns the outcomes, in order.
    pub fn as_slice(&self) -> &[Numbered]
        ensures { result.now ≡ self.now.list }
    {
        self.list.as_slice()
    }
}

impl Observer for Outcomes {
    ghost use Rattle.stations.specs.Outcomes.{Collects, room_of};
    ghost use Rattle.stations.specs.OutcomesLaws.{collects_join, collects_none};

    ghost heard = { Collects };

    ghost room_left = { room_of };

    ghost composes = { record {
      stays = collects_none;
      joins = collects_join;
    } };

    fn note(&mut self, _tick: Tick, accesses: u64, outcome: Outcome<()>, frame: &[u8]) {
        // The precondition `room` of `Observer::note` ensures that there is a spare frame.
        if let Some(mut kept) = self.spare.pop() {
            kept.fill(frame);
            let outcome = outcome.with_frame(kept);
            // The list has a place for each spare frame, so `push` returns no error.
            let _ = self.list.push(Numbered { accesses, outcome });
        }
    }
}
