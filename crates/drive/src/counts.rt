// The sizes of a driver's rings, the limits of a drive, and its counts.

ghost use Rattle.std.specs.Prelude.{◌↔◌, ◌≤◌, ◌+◌, IfSome, IsTrue};

use std::fmt;

/// The sizes of the driver's rings, and the number of its receive buffers.
#[derive(Clone, Copy, Debug, PartialEq, Eq)]
pub struct DriveRings {
    /// The number of descriptors in the receive ring.
    pub rx: u16,
    /// The number of descriptors in the transmit ring.
    pub tx: u16,
    /// The number of receive buffers.
    pub buffers: u16,
}

/// When a drive ends.
#[derive(Clone, Copy, Debug, PartialEq, Eq)]
pub struct DriveLimits {
    /// The number of received frames after which the drive ends, once it sends no more frames. If it is `None`, only
    /// `idle` ends the drive.
    pub expect: Option<u64>,
    /// The number of turns in a row, without a frame received or passed to the driver, after which the drive ends. A
    /// turn calls the interrupt handler, and takes the received frames. If the transmit ring was full before the last
    /// of these turns, the drive doesn't end, but sends no more frames. It then ends after this number of further turns
    /// in a row without a received frame.
    pub idle: u64,
}

impl DriveLimits {
    /// Returns whether the number of frames received is at least the number expected. Returns `false` if no number is
    /// expected. The limit `idle` isn't tested.
    pub(crate) fn is_expect_met(&self, received: u64) -> bool {
        match self.expect {
            Some(expected) => received >= expected,
            None => false,
        }
    }
}

/// The counts of a drive. Each count saturates at the greatest `u64`.
#[derive(Clone, Copy, Debug, PartialEq, Eq)]
pub struct DriveCounts {
    /// The number of frames that the driver accepted for sending.
    pub sent: u64,
    /// The number of frames passed to the driver that have fewer than 14 or more than 1,518 bytes. The driver rejects
    /// them.
    pub illegal: u64,
    /// The number of frames that were received.
    pub received: u64,
    /// The number of frames that the adapter missed: the sum of the values that the driver read from MPC.
    pub missed: u64,
    /// Whether the number of missed frames is exact. If it isn't exact, more frames may have been missed.
    pub is_exact: bool,
}

impl DriveCounts {
    /// Returns whether the drive is complete: at least `frames` frames were passed to the driver, and at least `expect`
    /// frames were received. If `expect` is `None`, the number of received frames doesn't matter.
    pub fn is_complete(&self, frames: u64, expect: Option<u64>) -> bool
        ensures { IsTrue result
            ↔ ((frames ≤ self.now.sent + self.now.illegal) × IfSome expect (λ n. n ≤ self.now.received)) }
    {
        // A sum that saturates is at least `frames`, because `frames` is a `u64`.
        self.sent.saturating_add(self.illegal) >= frames && self.received >= expect.unwrap_or(0)
    }
}

/// The text is a line without a line feed. It ends with `exact` if it counts each missed frame, and with `atleast` if
/// more frames may have been missed.
impl fmt::Display for DriveCounts {
    fn fmt<W: fmt::Write>(&self, f: &mut fmt::Formatter<W>) -> fmt::Result {
        let DriveCounts {
            sent,
            illegal,
            received,
            missed,
            is_exact,
        } = *self;
        let exact = if is_exact { "exact" } else { "atleast" };
        write!(
            f,
            "sent {sent} illegal {illegal} received {received} missed {missed} {exact}"
        )
    }
}
