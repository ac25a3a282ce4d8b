// The state of the receive engine.

ghost use Rattle.std.specs.Prelude.{◌≡◌, ◌≢◌, ◌+◌, ◌<◌, ◌≤◌, ◌↔◌, [], ◌∷◌, ◌++◌, true, false, drop, fold, length};
ghost use Rattle.std.specs.Prelude.{IsSome, Some, option_copied, slice_get};
ghost use Rattle.std.specs.Prelude.{IfSome, IfOk};
ghost use Rattle.rx_engine.specs.Hashed.{work_writes};
ghost use Rattle.descriptors.specs.Frames.{IsLegal};
ghost use Rattle.rx_engine.specs.Room.{cost, cost_of_length, most_room, occupied_by};
ghost use Rattle.rx_engine.specs.Receiver.{Receiver};
ghost use Rattle.rx_engine.specs.Inside.{receiver_of, IsReceiverInside};

use descriptors::PackedQueue;
use std::alloc::{AllocError, Global};
use std::hash::{Hash, Hasher};
use std::marker::Model;

/// The maximum number of frames in the receive packet buffer: 48 kilobytes have room for 614 frames of 60 bytes, each
/// of which occupies 80 bytes.
pub const MOST_FRAMES: u16 = 614;

/// The number of bytes that are allocated for the frames in the packet buffer. This number is more than 48 kilobytes,
/// so that a push seldom has to move frames.
const QUEUE_BYTES: usize = 65_536;

/// The number of bytes that a frame occupies is a multiple of this number.
const UNIT_BYTES: u32 = 16;

/// The piece of a frame in progress: it is in memory, and its descriptor isn't written back yet.
#[derive(Clone, Copy)]
pub struct Work {
    /// The address at which the piece's descriptor was read.
    pub descriptor: u64,
    /// The number of bytes of the piece.
    pub length: u16,
    /// Whether the frame ends in this piece.
    pub ends: bool,
}

/// The receive engine: its packet buffer, the number of moved bytes of the oldest frame, the piece in progress, and
/// whether the engine is stopped.
#[derive(Clone, Drop)]
pub struct RxEngine {
    /// The frames of the packet buffer, oldest first.
    buffer: PackedQueue,
    /// The number of bytes that the frames in `buffer` occupy.
    occupied: u32,
    /// The number of bytes of the oldest frame that have been moved to memory.
    moved: u16,
    /// The piece in progress.
    work: Option<Work>,
    /// Whether a fault has stopped the data step.
    stopped: bool,
}

impl Model for RxEngine {
    ghost Value = { Receiver };

    ghost view = { receiver_of };

    ghost invariant = { IsReceiverInside };
}

// The clauses `sound` state the invariant of an engine's value, for the proofs of callers.
impl RxEngine {
    ghost use Rattle.rx_engine.specs.Hashed.{receiver_writes};
    ghost use Rattle.rx_engine.specs.Receiver.{new_receiver, IsReceiver, IsReady, oldest};
    ghost use Rattle.rx_engine.specs.Moving.{begun_with, left_bytes};

    /// Returns an engine with an empty packet buffer and no piece in progress, which no fault has stopped.
    ///
    /// # Errors
    ///
    /// Returns an error only if an allocation fails.
    pub fn new(alloc: Global) -> Result<RxEngine, AllocError>
        ensures { IfOk result (λ engine. engine ≡ new_receiver) }
    {
        Ok(RxEngine {
            buffer: PackedQueue::new(alloc, MOST_FRAMES, QUEUE_BYTES)?,
            occupied: 0,
            moved: 0,
            work: None,
            stopped: false,
        })
    }

    /// Empties the packet buffer, drops the piece in progress and starts a stopped engine again, as a reset by CTRL.RST
    /// does ("13.4.1 Device Control Register").
    pub fn reset(&mut self)
        ensures { self.new ≡ new_receiver }
    {
        self.buffer.clear();
        self.occupied = 0;
        self.moved = 0;
        self.work = None;
        self.stopped = false;
    }

    /// Returns the number of frames in the packet buffer. A frame is counted until its last piece is moved.
    pub fn buffered(&self) -> u16
        ensures count { result ≡ length self.now.buffer }
        ensures fits { result ≤ MOST_FRAMES }
        ensures sound { IsReceiver self.now }
    {
        self.buffer.len()
    }

    /// Returns the frame of the packet buffer with this index, without a copy. The oldest frame has index 0, and
    /// `index` must be below the number of frames.
    pub fn frame_at(&self, index: usize) -> &[u8]
        requires { index < length self.now.buffer }
        ensures frame { slice_get self.now.buffer index ≡ Some result.now }
        ensures legal { IsLegal result.now }
    {
        self.buffer.frame_at(index)
    }

    /// Returns the number of bytes of the packet buffer that its frames occupy. A frame occupies these bytes until its
    /// last piece is moved.
    pub fn occupied(&self) -> u32
        ensures occupied { result ≡ occupied_by self.now.buffer }
        ensures fits { result ≤ most_room }
        ensures sound { IsReceiver self.now }
    {
        self.occupied
    }

    /// Returns the piece in progress, if there is one.
    pub fn work(&self) -> Option<&Work>
        ensures work { option_copied result ≡ self.now.work }
        ensures sound { IsReceiver self.now }
    {
        self.work.as_ref()
    }

    /// Feeds the whole state of the engine to a hasher. Equal engines feed the same bytes.
    pub fn feed<H: Hasher>(&self, hasher: &mut H)
        ensures { hasher.new ≡ fold H.write hasher.old (receiver_writes self.now) }
    {
        // The field `occupied` isn't fed: the frames in the buffer determine it.
        self.stopped.hash(hasher);
        hasher.write_u16(self.moved);
        feed_work(self.work, hasher);
        self.buffer.feed(hasher);
    }

    /// Appends a frame of a legal length to the packet buffer. With this frame, the frames in the packet buffer must
    /// occupy at most 49,152 bytes.
    pub(crate) fn store(&mut self, frame: &[u8])
        requires room { occupied_by self.old.buffer + cost frame.now ≤ most_room }
        requires legal { IsLegal frame.now }
        ensures stored { self.new ≡ record self.old { buffer = self.old.buffer ++ frame.now ∷ [] } }
        ensures sound { IsReceiver self.new }
    {
        self.occupied += cost(frame.len());
        self.buffer.push(frame);
    }

    /// Returns the bytes of the packet buffer's oldest frame that aren't moved yet. Returns `None` if a fault has
    /// stopped the engine, a piece is in progress, or there is no frame.
    pub(crate) fn left(&self) -> Option<&[u8]>
        ensures ready { IsSome result ↔ IsReady self.now }
        ensures left { IfSome result (λ bytes. bytes.now ≡ drop self.now.moved (oldest self.now.buffer)) }
        ensures some { IfSome result (λ bytes. 1 ≤ length bytes.now) }
        ensures most { IfSome result (λ bytes. length bytes.now ≤ 1518) }
        ensures count { IfSome result (λ bytes. length bytes.now ≡ left_bytes self.now) }
        ensures sound { IsReceiver self.now }
    {
        if self.stopped || self.work.is_some() {
            return None;
        }
        let frame = self.buffer.front()?;
        Some(&frame[usize::from(self.moved)..])
    }

    /// Records that a piece of the oldest frame is in progress. If the frame ends in the piece, removes the frame from
    /// the packet buffer. Otherwise adds the piece's length to the number of moved bytes. The piece must have 1 to
    /// 1,518 bytes. If the frame ends in the piece, the piece must be all bytes that aren't moved yet. Otherwise the
    /// piece must be shorter.
    #[tactic(auto, using(crate::specs::RoomLaws::legal_oldest))]
    pub(crate) fn begin(&mut self, work: Work)
        requires least { 1 ≤ work.length }
        requires most { work.length ≤ 1518 }
        requires left { work.ends ≡ false → work.length < left_bytes self.old }
        requires last { work.ends ≡ true → work.length ≡ left_bytes self.old }
        ensures begun { self.new ≡ begun_with work self.old }
        ensures sound { IsReceiver self.new }
    {
        if work.ends {
            // The moved bytes and the piece are the whole frame.
            self.drop_oldest(self.moved + work.length);
        } else {
            self.moved += work.length;
        }
        self.work = Some(work);
    }

    /// Removes the oldest frame, which has `size` bytes, from the packet buffer, and sets the number of moved bytes to
    /// 0.
    #[tactic(auto, using(crate::specs::RoomLaws::occupied_oldest))]
    fn drop_oldest(&mut self, size: u16)
        requires some { self.old.buffer ≢ [] }
        requires size { size ≡ length (oldest self.old.buffer) }
        requires most { size ≤ 1518 }
        ensures dropped { self.new ≡ record self.old { buffer = drop 1 self.old.buffer; moved = 0 } }
    {
        self.occupied -= cost(usize::from(size));
        self.buffer.pop();
        self.moved = 0;
    }

    /// Records that no piece is in progress any more.
    pub(crate) fn end(&mut self)
        ensures ended { self.new ≡ record self.old { work = None } }
        ensures sound { IsReceiver self.new }
    {
        self.work = None;
    }

    /// Stops the engine after a fault: the engine moves no piece until a reset.
    pub(crate) fn stop(&mut self)
        ensures stopped { self.new ≡ record self.old { stopped = true } }
        ensures sound { IsReceiver self.new }
    {
        self.stopped = true;
    }
}

/// Feeds to a hasher whether a piece is in progress, and then the piece if there is one.
fn feed_work<H: Hasher>(work: Option<Work>, hasher: &mut H)
    ensures { hasher.new ≡ fold H.write hasher.old (work_writes work) }
{
    work.is_some().hash(hasher);
    if let Some(work) = work {
        hasher.write_u64(work.descriptor);
        hasher.write_u16(work.length);
        work.ends.hash(hasher);
    }
}

/// Returns the number of bytes of the packet buffer that a frame of this length, at most 65,535, occupies (our choice).
/// This number is the length, rounded up to a multiple of 16, and 16 more.
pub(crate) fn cost(length: usize) -> u32
    requires { length ≤ 65535 }
    ensures { result ≡ cost_of_length length }
{
    (length as u32).div_ceil(UNIT_BYTES) * UNIT_BYTES + UNIT_BYTES
}
