//! The counts of a host's frames.
ghost use Rattle.std.specs.Prelude.{◌≡◌};
ghost use Rattle.run_record.specs.Tallies.{counted_once, resets_in, tally_given_up};

/// The counts of a host's frames, and whether the host was reset. Each count saturates at the greatest `u64`.
#[derive(Clone, Copy, Default)]
pub struct Tally {
    /// Frames that sends accepted.
    pub accepted: u64,
    /// Frames that the host's adapter put on its wire.
    pub put: u64,
    /// Frames that reached the host's adapter, whatever their fate.
    pub reached: u64,
    /// Frames that reached the host's adapter, which stored them.
    pub stored: u64,
    /// Frames that the host's sockets returned.
    pub given: u64,
    /// Frames to be sent that resets gave up.
    pub sending: u64,
    /// Frames that the host held outside its sockets' queues, and that resets gave up.
    pub holding: u64,
    /// Frames that reached the host's adapter while its receive side was disabled.
    pub off: u64,
    /// Whether the host was reset.
    pub is_reset: bool,
}

/// The numbers of frames that a host lost by its resets, or dropped while its receive side was disabled. Each saturates
/// at the greatest `u64`.
#[derive(Clone, Copy)]
pub struct GivenUp {
    /// Frames that were to be sent.
    pub sending: u64,
    /// Frames that the host held outside its sockets' queues.
    pub holding: u64,
    /// Frames that reached the host's adapter while its receive side was disabled.
    pub off: u64,
}

/// What happened to a frame at a host, as it is counted.
#[derive(Clone, Copy)]
pub(crate) enum Passage {
    /// A send accepted the frame.
    Accepted,
    /// The adapter put the frame on the wire.
    Put,
    /// The frame reached the adapter while its receive side was enabled, and the adapter didn't store the frame.
    Reached,
    /// The frame reached the adapter while its receive side was disabled.
    Off,
    /// The frame reached the adapter, which stored the frame.
    Stored,
    /// A socket returned the frame.
    Given,
}

impl Tally {
    /// Returns these counts after `passage` happened to one more frame. Each frame that reached the adapter is counted
    /// in `reached`. A stored frame is also counted in `stored`, and a frame with the passage `Off` in `off`.
    pub(crate) fn with(self, passage: Passage) -> Tally
        ensures { result ≡ counted_once passage self }
    {
        let mut tally = self;
        match passage {
            Passage::Accepted => tally.accepted = tally.accepted.saturating_add(1),
            Passage::Put => tally.put = tally.put.saturating_add(1),
            Passage::Reached => tally.reached = tally.reached.saturating_add(1),
            Passage::Off => {
                tally.reached = tally.reached.saturating_add(1);
                tally.off = tally.off.saturating_add(1);
            }
            Passage::Stored => {
                tally.reached = tally.reached.saturating_add(1);
                tally.stored = tally.stored.saturating_add(1);
            }
            Passage::Given => tally.given = tally.given.saturating_add(1),
        }
        tally
    }

    /// Returns these counts after one more reset, which gave up these numbers of frames to be sent and of held frames.
    pub(crate) fn given_up(self, sending: u64, holding: u64) -> Tally
        ensures { result ≡ tally_given_up sending holding self }
    {
        Tally {
            sending: self.sending.saturating_add(sending),
            holding: self.holding.saturating_add(holding),
            is_reset: true,
            ..self
        }
    }

    /// Returns the numbers of frames that the host lost by resets, or dropped while its receive side was disabled.
    /// Returns `None` if the host wasn't reset.
    pub fn resets(self) -> Option<GivenUp>
        ensures { result ≡ resets_in self }
    {
        if !self.is_reset {
            return None;
        }
        Some(GivenUp {
            sending: self.sending,
            holding: self.holding,
            off: self.off,
        })
    }
}
