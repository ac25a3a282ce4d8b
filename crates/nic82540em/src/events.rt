// The events that are kept for C.

ghost use Rattle.std.specs.Prelude.{◌≡◌, IfOk, IfSome, None, Some, slice_get};
ghost use Rattle.nic82540em.specs.Events.{keeps, no_events, without_first};

use circular_buffer::HeapCircularBuffer;
use descriptors::copy_of;
use std::alloc::{AllocError, Global};

/// The maximum number of events that wait (our choice).
const MOST_EVENTS: usize = 4096;

/// An event, as numbers.
#[repr(C)]
#[derive(Clone, Copy)]
pub struct KeptEvent {
    /// 0: a step had another outcome than `Nothing`; 1: a frame arrived; 2: the interrupt line changed.
    pub what: u32,
    /// The number of the step's kind, or 0 if the event isn't a step.
    pub kind: u32,
    /// The number of the step's outcome or of the frame's fate, or the interrupt line's new level: 1 if the line is
    /// asserted, else 0.
    pub value: u32,
    /// The number of the fault's reason, or 0 if there is no fault.
    pub reason: u32,
    /// The head of the ring of the fault's engine, or 0 if there is no fault.
    pub index: u32,
}

/// The events that wait until C takes them, the oldest first, and whether new events are kept.
#[derive(Drop)]
pub struct Events {
    /// Whether new events are kept.
    pub on: bool,
    /// The events that were kept and not taken yet, the oldest first.
    pub waiting: HeapCircularBuffer<KeptEvent>,
}

impl Events {
    /// Returns an empty list of events, with room for 4,096. New events aren't added to it, because `on` is false.
    ///
    /// # Errors
    ///
    /// Returns an error only if an allocation fails.
    pub(crate) fn new(alloc: Global) -> Result<Events, AllocError>
        ensures { IfOk result (λ events. events ≡ no_events) }
    {
        Ok(Events {
            on: false,
            waiting: HeapCircularBuffer::with_capacity(alloc, MOST_EVENTS)?,
        })
    }

    /// Returns a copy: the same events wait, and new events are kept if and only if they are kept here.
    ///
    /// # Errors
    ///
    /// Returns an error only if an allocation fails.
    pub(crate) fn copy(&self) -> Result<Events, AllocError>
        ensures { IfOk result (λ copy. copy ≡ self.now) }
    {
        Ok(Events {
            on: self.on,
            waiting: copy_of(&self.waiting)?,
        })
    }

    /// Adds an event after the others, if new events are kept and fewer than 4,096 wait. Otherwise changes nothing.
    pub(crate) fn keep(&mut self, event: KeptEvent)
        ensures { self.new ≡ keeps self.old (Some event) }
    {
        if self.on {
            // If 4,096 events wait, this event is dropped.
            let _kept = self.waiting.try_push_back(event);
        }
    }

    /// Removes and returns the oldest event, or returns `None` if no event waits.
    pub(crate) fn take(&mut self) -> Option<KeptEvent>
        ensures event { result ≡ slice_get self.old.waiting.items 0 }
        ensures state { IfSome result (λ event. self.new ≡ without_first self.old) }
        ensures none { result ≡ None → self.new ≡ self.old }
    {
        let Some(front) = self.waiting.front() else {
            return None;
        };
        let event = *front;
        self.waiting.pop_front();
        Some(event)
    }
}
