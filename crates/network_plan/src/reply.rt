// The replies to events.

use descriptors::Frame;
use driver::{GroupError, Handled, SendError};
use packet_socket::RecvError;
use stations::{HeapFrame, Outcomes};
use thiserror::Error;

/// The answer to an event.
///
/// `F` is the type of the frame in [`Received`](Answer::Received). A [`Reply`] contains the frame itself, on the heap
/// (`HeapFrame`). An observer of a run is told an answer without a frame (`()`), and borrows the frame separately.
#[derive(Debug, Drop, PartialEq, Eq)]
pub enum Answer<F> {
    /// A host accepted or rejected a frame to send.
    Sent(Result<(), SendError>),
    /// A socket returned its oldest frame, or has no frame, or doesn't exist.
    Received(Result<F, RecvError>),
    /// An interrupt was handled.
    Interrupted(Handled),
    /// A host joined a group, or the join was rejected.
    Joined(Result<(), GroupError>),
    /// A host left a group, or the leave was rejected.
    Left(Result<(), GroupError>),
    /// An adapter was reset by a write of CTRL.RST. The reset dropped the frames that weren't yet on the wire at this
    /// write, and the received frames that the host held outside its sockets' queues.
    Reset {
        /// The dropped frames that were to be sent, the oldest first.
        sending: Vec<Frame>,
        /// The dropped frames that were held, the oldest first.
        holding: Vec<Frame>,
        /// The number of accesses up to and including the write of RCTL that enabled the receiver again.
        on_after: u64,
    },
    /// The event was a tick outside a call. The tick was played; a `Go` did nothing.
    Ticked,
    /// There is no such host. The ticks of the call or the reset were played.
    NoHost,
}

impl<F> Answer<F> {
    ghost use Rattle.std.specs.Prelude.{◌≡◌};
    ghost use Rattle.network_plan.specs.Answers.{answer_with};

    /// Returns the same answer, with `frame` in place of the answer's frame, if the answer has a frame.
    pub fn with_frame<G>(self, frame: G) -> Answer<G>
    where
        F: Drop,
        G: Drop,
        ensures { result ≡ answer_with frame self }
    {
        match self {
            Answer::Sent(sent) => Answer::Sent(sent),
            Answer::Received(Ok(_)) => Answer::Received(Ok(frame)),
            Answer::Received(Err(error)) => Answer::Received(Err(error)),
            Answer::Interrupted(handled) => Answer::Interrupted(handled),
            Answer::Joined(joined) => Answer::Joined(joined),
            Answer::Left(left) => Answer::Left(left),
            Answer::Reset {
                sending,
                holding,
                on_after,
            } => Answer::Reset {
                sending,
                holding,
                on_after,
            },
            Answer::Ticked => Answer::Ticked,
            Answer::NoHost => Answer::NoHost,
        }
    }
}

/// The reply to an event: its answer, its number of accesses, and the outcomes of its ticks. Each outcome has the
/// number of accesses that the event made before the tick. A `Go` inside a call or a reset has no outcome.
#[derive(Debug, Drop)]
pub struct Reply {
    /// The answer to the event.
    pub answer: Answer<HeapFrame>,
    /// The number of accesses of the call or the reset; 0 for a tick outside a call, and if there is no such host. The
    /// number saturates at the greatest `u64`.
    pub accesses: u64,
    /// The outcomes of the event's ticks.
    pub outcomes: Outcomes,
}

/// Out of memory during the run. Free some, or split the scenario
///
/// The run ended before an event: the observer refused to make room, or memory for the frames that a reset drops
/// couldn't be allocated. The first `done` events were run and reported, and nothing else changed in the network.
#[derive(Clone, Copy, Debug, PartialEq, Eq, Error)]
#[error("E47 Memory")]
pub struct Stopped {
    /// The number of events that were run.
    pub done: usize,
}
