ghost use Rattle.std.specs.Prelude.{◌≡◌, ◌+◌, ◌-◌, ◌<◌, ◌≤◌, ◌^◌, ◌↔◌, ◌++◌, ◌∷◌, [], drop, fold, length, map};
ghost use Rattle.std.specs.Prelude.{replicate, slice_get, true, false, IsTrue, IsNone, IfSome, IfOk};
ghost use Rattle.std.specs.List.{flat_map};
ghost use Rattle.tx_engine.specs.Hashed.{report_writes, transmitter_writes};
ghost use Rattle.tx_engine.specs.Transmitter.{new_transmitter, Transmitter};
ghost use Rattle.tx_engine.specs.Steps.{IfFront};
ghost use Rattle.tx_engine.specs.Buffer.{transmitter_of, IsWhole};

use crate::fetching::Named;
use crate::report::Report;
use circular_buffer::HeapCircularBuffer;
use descriptors::{FrameQueue, copy_of};
use std::alloc::{AllocError, Global};
use std::hash::{Hash, Hasher};
use std::marker::Model;

/// The greatest number of frames in the transmit packet buffer.
pub const PACKET_BUFFER_FRAMES: u8 = 4;

/// The transmit engine of an adapter: the transmit packet buffer, which contains at most four frames, and whether a
/// fault has stopped the engine.
///
/// In contracts, the value is the list of frames in the buffer, the oldest first, and whether the engine is stopped.
/// With each frame, the value contains the address of its descriptor, and whether this descriptor asks for a report
/// (RS). Only `new` and `clone` allocate memory.
#[derive(Drop)]
pub struct TxEngine {
    frames: FrameQueue,
    /// For each frame in `frames`, the address and the RS bit of its descriptor.
    reports: HeapCircularBuffer<Report>,
    /// Whether no fault has stopped the engine. In contracts, `stopped` is the opposite.
    running: bool,
}

impl Model for TxEngine {
    ghost Value = { Transmitter };

    ghost view = { transmitter_of };

    ghost invariant = { IsWhole };
}

impl Clone for TxEngine {
    ghost is_clone = { λ engine copy. copy ≡ engine };

    /// Returns a copy of the engine, in the same state.
    ///
    /// # Errors
    ///
    /// Returns an error only if an allocation fails.
    fn clone(&self) -> Result<TxEngine, AllocError> {
        Ok(TxEngine {
            frames: self.frames.clone()?,
            reports: copy_of(&self.reports)?,
            running: self.running,
        })
    }
}

impl TxEngine {
    /// Returns an engine with an empty buffer, which no fault has stopped.
    ///
    /// # Errors
    ///
    /// Returns an error only if an allocation fails.
    pub fn new(alloc: Global) -> Result<TxEngine, AllocError>
        ensures { IfOk result (λ engine. engine ≡ new_transmitter) }
    {
        Ok(TxEngine {
            frames: FrameQueue::new(alloc, PACKET_BUFFER_FRAMES)?,
            reports: HeapCircularBuffer::with_capacity(alloc, usize::from(PACKET_BUFFER_FRAMES))?,
            running: true,
        })
    }

    /// Resets the engine: empties the buffer and restarts a stopped engine.
    pub fn reset(&mut self)
        ensures { self.new ≡ new_transmitter }
    {
        self.frames.clear();
        self.reports.clear();
        self.running = true;
    }

    /// Returns the number of frames in the buffer.
    pub fn len(&self) -> u8
        ensures count { result ≡ length self.now.buffer }
        ensures fits { result ≤ 4 }
    {
        self.frames.len()
    }

    /// Returns whether no frame is in the buffer.
    pub fn is_empty(&self) -> bool
        ensures { IsTrue result ↔ (self.now.buffer ≡ []) }
    {
        self.frames.is_empty()
    }

    /// Returns whether the buffer is full: it contains four frames.
    pub fn is_full(&self) -> bool
        ensures full { IsTrue result ↔ (length self.now.buffer ≡ 4) }
        ensures fits { length self.now.buffer ≤ 4 }
    {
        self.len() == PACKET_BUFFER_FRAMES
    }

    /// Returns whether a fault has stopped the step that takes frames, [`take`](crate::take).
    pub fn is_stopped(&self) -> bool
        ensures { result ≡ self.now.stopped }
    {
        !self.running
    }

    /// Returns the oldest frame of the buffer as it is put onto the wire, without a copy, or `None` exactly if the
    /// buffer is empty. The frame has at most 1,518 bytes.
    pub fn front(&self) -> Option<&[u8]>
        ensures none { IsNone result ↔ (self.now.buffer ≡ []) }
        ensures oldest { IfSome result (λ frame. IfFront self.now.buffer (λ queued. queued.frame ≡ frame.now)) }
        ensures fits { IfSome result (λ frame. length frame.now ≤ 1518) }
    {
        self.frames.front()
    }

    /// Returns the frame of the buffer with this index, without a copy. The oldest frame has index 0, and `index` must
    /// be below the number of frames. The frame has at most 1,518 bytes.
    pub fn frame_at(&self, index: usize) -> &[u8]
        requires { index < length self.now.buffer }
        ensures frame { slice_get (map (λ queued. queued.frame) self.now.buffer) index ≡ Some result.now }
        ensures fits { length result.now ≤ 1518 }
    {
        self.frames.frame_at(index)
    }

    /// Feeds the whole state of the engine to a hasher. Equal engines feed the same bytes.
    pub fn feed<H: Hasher>(&self, hasher: &mut H)
        ensures { hasher.new ≡ fold H.write hasher.old (transmitter_writes self.now) }
    {
        self.is_stopped().hash(hasher);
        self.frames.feed(hasher);
        // The reports in `wrapped` follow those in `front`.
        let (front, wrapped) = self.reports.as_slices();
        feed_reports(front, hasher);
        feed_reports(wrapped, hasher);
    }

    /// Stops the engine after a fault: the engine takes no frame until a reset.
    pub(crate) fn stop(&mut self)
        ensures { self.new ≡ record self.old { stopped = true } }
    {
        self.running = false;
    }

    /// Appends a frame, with the address and the RS bit of its descriptor. If the frame has fewer than `least` bytes,
    /// zeros follow the frame up to this number of bytes. The buffer must not be full, and neither the frame nor
    /// `least` may exceed 1,518 bytes. The address of the descriptor's status byte, byte 12, must fit into 64 bits.
    pub(crate) fn push(&mut self, named: Named<'_>, least: usize)
        requires room { length self.old.buffer < 4 }
        requires fits { length named.bytes.now ≤ 1518 }
        requires least_fits { least ≤ 1518 }
        requires status_fits { named.descriptor + 12 < 2 ^ 64 }
        ensures { self.new ≡ record self.old {
          buffer = self.old.buffer ++ record {
            frame = named.entry.bytes.now ++ replicate (least - length named.entry.bytes.now) 0;
            descriptor = named.entry.descriptor;
            rs = named.entry.rs;
          } ∷ [];
        } }
    {
        self.frames.push_padded(named.bytes, least);
        // There is room, so the call drops no older report.
        let _ = self.reports.push_back(Report {
            descriptor: named.descriptor,
            rs: named.rs,
        });
    }

    /// Removes the oldest frame. Returns the address and the RS bit of the frame's descriptor. Returns `None` exactly
    /// if the buffer is empty, and then nothing changes.
    pub(crate) fn pop(&mut self) -> Option<Report>
        ensures none { IsNone result ↔ (self.old.buffer ≡ []) }
        ensures rest { self.new ≡ record self.old { buffer = drop 1 self.old.buffer } }
        ensures descriptor { IfSome result
            (λ report. IfFront self.old.buffer (λ queued. queued.descriptor ≡ report.descriptor)) }
        ensures rs { IfSome result (λ report. IfFront self.old.buffer (λ queued. queued.rs ≡ report.rs)) }
    {
        self.frames.pop();
        self.reports.pop_front()
    }
}

/// Feeds reports to a hasher, in order: for each report, the address of its descriptor and then the RS bit.
fn feed_reports<H: Hasher>(reports: &[Report], hasher: &mut H)
    ensures { hasher.new ≡ fold H.write hasher.old (flat_map report_writes reports.now) }
{
    for report in reports {
        hasher.write_u64(report.descriptor);
        report.rs.hash(hasher);
    }
}
