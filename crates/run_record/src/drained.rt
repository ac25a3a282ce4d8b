//! The frames of a drained host.
ghost use Rattle.std.specs.Prelude.{◌≡◌, ◌≤◌, ◌-◌, [], OnOk, length, map, vec_capacity};
ghost use Rattle.run_record.specs.DrainedView.{drained_frame};

use descriptors::Frame;
use std::alloc::{AllocError, Global};
use wire::Outlet;

/// A frame, with the number of the socket that returned it.
#[derive(Drop)]
pub struct DrainedFrame {
    /// The number of the socket.
    pub socket: usize,
    /// The frame that the socket returned.
    pub frame: Frame,
}

/// The frames that a drain returned, in order. Room for them is allocated before the first drain of a run, and again
/// only if a later drain needs more.
#[derive(Drop)]
pub struct DrainedFrames {
    /// The frames, in order.
    pub list: Vec<DrainedFrame>,
}

impl DrainedFrames {
    /// Returns an empty list. Allocates no memory.
    pub fn new(alloc: Global) -> DrainedFrames
        ensures { result.list.items ≡ [] }
    {
        DrainedFrames {
            list: Vec::new(alloc),
        }
    }

    /// Removes all frames, and makes room for `room` frames. Allocates only if the list has less room. Fails if memory
    /// is refused; then the list is empty, too.
    pub fn make_room(&mut self, room: usize) -> Result<(), AllocError>
        ensures none { self.new.list.items ≡ [] }
        ensures room { OnOk result (room ≤ vec_capacity self.new.list - length self.new.list.items) }
    {
        self.list.clear();
        self.list.reserve_exact(room)
    }
}

impl Outlet for DrainedFrames {
    ghost frames = { λ drained. map drained_frame drained.list.items };

    ghost room_left = { λ drained. vec_capacity drained.list - length drained.list.items };

    fn room(&self) -> usize {
        self.list.capacity() - self.list.len()
    }

    fn take(&mut self, socket: usize, frame: &Frame) {
        // The precondition `room` of `Outlet::take` ensures that there is room, so `push` returns no error.
        let _ = self.list.push(DrainedFrame {
            socket,
            frame: Frame::from_slice(frame.as_slice()),
        });
    }
}
