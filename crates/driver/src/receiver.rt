// Receivers, which take the frames that a driver receives.

ghost use Rattle.std.specs.Prelude.{◌++◌, [], List};
ghost use Rattle.driver.specs.Answers.{ReceiverAnswers};
ghost use Rattle.driver.specs.declared.receiver.Received.{Received};

use crate::Parts;

/// A received frame, in its buffers.
#[derive(Drop)]
pub struct Received {
    /// The pieces of the frame, in order. The owner of this value owns the buffers of the pieces.
    pub parts: Parts,
    /// The size of the frame in bytes, from 60 to 1,518: the sum of the sizes of its pieces.
    pub len: u16,
    /// Bytes 12 and 13 of the frame, the more significant one first.
    pub ether_type: u16,
}

/// A receiver takes received frames. The receiver keeps a frame with the frame's buffers, or returns these buffers at
/// once.
pub trait Receiver {
    /// Between these two states, the receiver was shown the frames of the first list, and kept those of the second
    /// list, both in order.
    ghost took: { Self → Self → List Received → List Received → Type 0 };

    /// Takes a frame. Returns all buffers of the frame, or no buffer. If no buffer is returned, the receiver owns all
    /// buffers of the frame.
    fn take(&mut self, received: Received) -> Parts
        ensures { ReceiverAnswers took self.old self.new received result };

    /// In an empty interval, the receiver was shown no frame, and kept no frame.
    ghost stays: { (receiver : Self) → took receiver receiver [] [] };

    /// In two consecutive intervals together, the receiver was shown the frames of the first interval, and then those
    /// of the second. The frames that it kept are in the same order.
    ghost joins: { (a b c : Self) (shown kept later more : List Received)
        → took a b shown kept → took b c later more → took a c (shown ++ later) (kept ++ more) };
}
