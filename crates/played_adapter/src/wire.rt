// The wire: the frames that the adapter put, until they are taken.

ghost use Rattle.std.specs.Prelude.{◌≡◌};
ghost use Rattle.played_adapter.specs.Playing.{AnswersTaking, has_room};

use crate::player::PlayedAdapter;

/// The number of frames that fit on the wire (our choice).
pub const WIRE_FRAMES: u8 = 64;

impl PlayedAdapter {
    /// Returns whether the wire has room for a frame: the wire is free, and fewer frames wait on it than fit. If
    /// `keeps_put` isn't set, only the first condition counts.
    #[inline(always)]
    pub(crate) fn has_room(&self) -> bool
        ensures { result ≡ has_room self.now }
    {
        self.wire_free && (!self.keeps_put || self.wire.len() < self.wire.capacity())
    }

    /// Moves the oldest frame from the wire to the beginning of `into`, if the frame fits.
    ///
    /// Returns the frame's length in bytes, or 0 if no frame waits. If the frame is longer than `into`, nothing
    /// changes.
    pub fn take_put(&mut self, into: &mut [u8]) -> usize
        ensures { AnswersTaking into.old into.new result self.old self.new }
    {
        let Some(frame) = self.wire.front() else {
            return 0;
        };
        let count = frame.len();
        if count <= into.len() {
            into[..count].copy_from_slice(frame);
            self.wire.pop();
        }
        count
    }
}
