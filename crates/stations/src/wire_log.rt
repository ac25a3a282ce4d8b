// The log of a wire.

ghost use Rattle.std.specs.Prelude.{◌≡◌, ◌+◌, ◌<◌, ◌≤◌, ◌↔◌, ◌∷◌, ◌++◌, [], IfOk, IfSome, IsNone};
ghost use Rattle.std.specs.Prelude.{drop, length};
ghost use Rattle.descriptors.specs.Frames.{longest_frame};
ghost use Rattle.stations.specs.WireLogs.{closed_up, entry_frame, frames_of_others, log_entries};

use descriptors::Frame;
use std::alloc::{AllocError, Global};
use std::marker::Model;

/// The greatest number of entries of a wire's log (our choice).
pub const LOG_ENTRIES: usize = 1024;

/// The log of a wire: frames that hosts put on the wire, in order, each with the number of its sender.
///
/// Only [`new`](WireLog::new) allocates memory, for all entries. In contracts, the value is a list of `LogEntry`.
#[derive(Drop)]
pub(crate) struct WireLog {
    /// The number of each frame's sender, and the frame.
    entries: Vec<(usize, Frame)>,
}

impl Model for WireLog {
    ghost use Rattle.std.specs.Prelude.{List};
    ghost use Rattle.stations.specs.WireLogs.{LogEntry};

    ghost Value = { List LogEntry };

    ghost use Rattle.stations.specs.WiresView.{HasLogRoom};

    ghost view = { λ log. log.entries.items };

    ghost invariant = { HasLogRoom };
}

impl WireLog {
    /// Returns the log of a wire on which no frame was put.
    ///
    /// # Errors
    ///
    /// Returns an error only if an allocation fails.
    pub(crate) fn new(alloc: Global) -> Result<WireLog, AllocError>
        ensures { IfOk result (λ log. log ≡ []) }
    {
        Ok(WireLog {
            entries: Vec::with_capacity(alloc, LOG_ENTRIES)?,
        })
    }

    /// Returns the number of entries.
    pub(crate) fn len(&self) -> usize
        ensures value { result ≡ length self.now }
        ensures most { result ≤ log_entries }
    {
        self.entries.len()
    }

    /// Returns the entries, in the order in which their frames were put.
    pub(crate) fn as_slice(&self) -> &[(usize, Frame)]
        ensures value { result.now ≡ self.now }
        ensures most { length result.now ≤ log_entries }
    {
        self.entries.as_slice()
    }

    /// Appends a frame of at most 1,518 bytes, with its sender. The log must not be full.
    pub(crate) fn append(&mut self, sender: usize, frame: &[u8])
        requires room { length self.old < log_entries }
        requires fits { length frame.now ≤ longest_frame }
        ensures { self.new ≡ self.old ++ (sender, frame.now) ∷ [] }
    {
        // A log has room for all its entries, so `push` returns no error.
        let _ = self.entries.push((sender, Frame::from_slice(frame)));
    }

    /// Returns the place of the first entry, at `from` or later, whose sender isn't `reader`, or `None` if there is no
    /// such entry.
    /// - `first`: of the frames of other senders from `from` on, the frame at this place is the first. Those after this
    ///   place are the others.
    /// - `most`: a caller can add 1 to the place without overflow.
    pub(crate) fn next(&self, reader: usize, from: usize) -> Option<usize>
        ensures none { IsNone result ↔ (frames_of_others reader (drop from self.now) ≡ []) }
        ensures there { IfSome result (λ place. (from ≤ place) × (place < length self.now)) }
        ensures most { IfSome result (λ place. place < log_entries) }
        ensures first { IfSome result (λ place. frames_of_others reader (drop from self.now)
            ≡ entry_frame place self.now ∷ frames_of_others reader (drop (place + 1) self.now)) }
    {
        for place in from..self.entries.len() {
            if self.entries[place].0 != reader {
                return Some(place);
            }
        }
        None
    }

    /// Drops all entries before `first`, and the entries before `second` that `reader` sent. The remaining entries move
    /// to the front of the log, in order. `first` must be at most `second`, and `second` at most the number of entries.
    ///
    /// Let `first` be the least cursor, at the end `reader`, and `second` the least cursor of the other ends. Then each
    /// end has read the dropped entries of other senders.
    pub(crate) fn close_up(&mut self, reader: usize, first: usize, second: usize)
        requires order { first ≤ second }
        requires there { second ≤ length self.old }
        ensures { self.new ≡ closed_up reader first second self.old }
    {
        // The first `kept` entries are those that remain, in order.
        let mut kept = 0;
        for place in first..self.entries.len() {
            if place >= second || self.entries[place].0 != reader {
                self.entries.swap(kept, place);
                kept += 1;
            }
        }
        self.entries.truncate(kept);
    }
}
