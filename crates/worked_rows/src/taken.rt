//! A sink that stores the frames of a drain.

ghost use Rattle.std.specs.Prelude.{◌≤◌, ◌-◌, IfOk, length, map, vec_capacity};

use descriptors::Frame;
use std::alloc::{AllocError, Global};
use wire::Outlet;

/// A frame, with the number of the socket that returned it.
#[derive(Drop)]
pub(crate) struct TakenFrame {
    pub(crate) socket: usize,
    pub(crate) frame: Frame,
}

/// The frames that a drain returned, in order.
#[derive(Drop)]
pub(crate) struct Taken {
    pub(crate) list: Vec<TakenFrame>,
}

impl Taken {
    pub(crate) fn with_room(alloc: Global, room: usize) -> Result<Taken, AllocError>
        ensures { IfOk result (λ taken. room ≤ vec_capacity taken.list - length taken.list.items) }
    {
        Ok(Taken {
            list: Vec::with_capacity(alloc, room)?,
        })
    }
}

impl Outlet for Taken {
    ghost frames = { λ taken. map (λ one. record { socket = one.socket; frame = one.frame }) taken.list.items };

    ghost room_left = { λ taken. vec_capacity taken.list - length taken.list.items };

    fn room(&self) -> usize {
        self.list.capacity() - self.list.len()
    }

    fn take(&mut self, socket: usize, frame: &Frame) {
        let _ = self.list.push(TakenFrame {
            socket,
            frame: Frame::from_slice(frame.as_slice()),
        });
    }
}
