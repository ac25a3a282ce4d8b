// Networks of hosts on wires, and runs of events.

use crate::collector::{Collector, Current};
use crate::events::{self, EventForm};
use crate::run_observer::RunObserver;
use host_calls::Network;
use network_plan::{Event, Reply, Stopped};
use stations::Outcomes;
use std::alloc::{AllocError, Global};
use std::marker::Model;

/// A network of hosts on wires, in which `HostStands` (`specs/Equations.antt`) holds for each host.
///
/// In contracts, the value is a `NetworkState` (`specs/Networks.antt` of `host_calls`).
#[derive(Drop)]
pub struct Lan {
    /// The allocator of the lists of frames that a reset drops.
    pub(crate) alloc: Global,
    pub(crate) network: Network,
    /// The bytes of the frame that a socket returned last. The bytes are lent to the observer.
    pub(crate) given: [u8; 1518],
}

impl Model for Lan {
    ghost use Rattle.host_calls.specs.Networks.{NetworkState};

    ghost Value = { NetworkState };

    ghost use Rattle.wire.specs.Equations.{NetworkStands};

    ghost view = { λ inside. inside.network };

    ghost invariant = { λ inside. NetworkStands inside.network };
}

impl Lan {
    ghost use Rattle.std.specs.Prelude.{◌≡◌, ◌<◌, IfErr, OnOk, length, slice_get, take};
    ghost use Rattle.wire.specs.RunObservers.{EventTold, HasRoomForEvent};
    ghost use Rattle.network_plan.specs.EventCalls.{in_event};
    ghost use Rattle.wire.specs.Runs.{EventRuns, IsResetOf, RunTold, RunsTo, StopsAt};

    /// Runs one event, and reports its outcomes and its answer to the observer. The observer must have room for the
    /// outcomes of the event's ticks, and for the event's answer.
    ///
    /// # Errors
    ///
    /// Returns an error only if the event is a reset of a host that exists, and memory for the dropped frames can't be
    /// allocated. After this error, the network and the observer haven't changed.
    #[inline(always)]
    fn event<O: RunObserver>(
        &mut self,
        event: &Event<'_>,
        observer: &mut O,
    ) -> Result<(), AllocError>
        requires room { HasRoomForEvent O.ready O.room_left event.now observer.old }
        ensures ok { OnOk result (EventTold O.ran event.now observer.old observer.new
            (λ reply. EventRuns self.old event.now reply self.new)) }
        ensures refused { IfErr result (λ error. IsResetOf (length self.old.hosts) (in_event event.now)
            × (self.new ≡ self.old) × (observer.new ≡ observer.old)) }
    {
        match EventForm::of(*event) {
            EventForm::Call(call) => {
                events::make_call(&mut self.network, event, &call, &mut self.given, observer);
                Ok(())
            }
            EventForm::Reset(reset) => {
                events::make_reset(&mut self.network, self.alloc, event, &reset, observer)
            }
            EventForm::Tick(tick) => {
                events::tick(&mut self.network, event, tick, observer);
                Ok(())
            }
        }
    }

    /// Runs events in order. Before each event, the observer is asked to make room for the event. During the event, the
    /// observer is told the outcome of each tick except each `Go` inside a call or a reset. At the event's end, the
    /// observer is told the answer.
    ///
    /// # Errors
    ///
    /// Returns an error only if the observer refuses to make room for an event, or if memory for the frames that a
    /// reset drops can't be allocated. The first `done` events were run and reported, and the next event changed
    /// nothing in the network.
    #[inline(always)]
    pub fn play<O: RunObserver>(
        &mut self,
        events: &[Event<'_>],
        observer: &mut O,
    ) -> Result<(), Stopped>
        ensures ok { OnOk result (RunTold O.ran events.now self.old self.new observer.old observer.new) }
        ensures stopped { IfErr result (λ stopped. (stopped.done < length events.now)
            × RunTold O.ran (take stopped.done events.now) self.old self.new observer.old observer.new) }
        ensures refused { IfErr result (λ stopped. StopsAt O.refuses (length self.old.hosts)
            (slice_get events.now stopped.done)
            (RunTold O.ran (take stopped.done events.now) self.old self.new observer.old)) }
    {
        for (done, event) in events.iter().enumerate() {
            if !observer.make_room(event, event.tick_count()) {
                return Err(Stopped { done });
            }
            if self.event(event, observer).is_err() {
                return Err(Stopped { done });
            }
        }
        Ok(())
    }

    /// Runs events in order, and appends a reply for each, unless memory runs out. Whatever the events are, each socket
    /// returns the frames that its host's adapter stored for the socket, in order, each once. Exceptions are frames
    /// that the host still holds, or that a reset dropped. `delivers` of `RunsTo` states this for the whole run, and
    /// [`runs_join`](crate::runs_join) for several runs. Before and after each event, each buffer has one owner.
    ///
    /// A frame is lost only for one of these reasons:
    /// - The frame has fewer than 60 or more than 1,518 bytes. In runs that follow each other, the first from a network
    ///   that [`new`](Lan::new) made, there is no such frame ([`frames_are_legal`](crate::frames_are_legal)).
    /// - The filter rejects the frame, the receive packet buffer has no room for it, or no socket takes it.
    /// - A reset drops the frame, or had disabled the receiver when the frame arrived.
    ///
    /// Missed frames and frames without a socket are counted, until a count saturates; replies report the other losses.
    ///
    /// # Errors
    ///
    /// Returns an error if memory for the reply to an event, or for the frames that a reset drops, can't be allocated.
    /// The first `done` events were run and have replies, and the next event changed nothing. A contract can't name
    /// the results of an allocator, so no clause states that this is the only reason.
    pub fn run(
        &mut self,
        alloc: Global,
        events: &[Event<'_>],
        replies: &mut Vec<Reply>,
    ) -> Result<(), Stopped>
        ensures ok { OnOk result (RunsTo self.old events.now replies.old.items replies.new.items self.new) }
        ensures stopped { IfErr result (λ stopped. (stopped.done < length events.now)
            × RunsTo self.old (take stopped.done events.now) replies.old.items replies.new.items self.new) }
    {
        let mut current = Current {
            outcomes: Outcomes::new(alloc),
            frame: None,
        };
        let mut collector = Collector {
            alloc,
            replies,
            current: &mut current,
        };
        self.play(events, &mut collector)
    }
}
