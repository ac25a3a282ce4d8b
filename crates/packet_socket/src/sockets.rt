// The sockets of a host, each with a queue of received frames.

ghost use Rattle.std.specs.Prelude.{◌≡◌, ◌<◌, ◌∷◌, [], IfNone, IfOk, IfSome, length, replicate, slice_set};
ghost use Rattle.packet_socket.specs.HostState.{queue_at, SocketsState};
ghost use Rattle.packet_socket.specs.Sorting.{Sorts};
ghost use Rattle.packet_socket.specs.InsideSockets.{AreConsistent, sockets_of};

use crate::SocketKind;
use crate::socket_kind::socket_of;
use arrayvec::ArrayVec;
use circular_buffer::HeapCircularBuffer;
use driver::{Parts, Received, Receiver};
use std::alloc::{AllocError, Global};
use std::marker::Model;

/// The greatest number of sockets of a host (our choice).
pub const MOST_SOCKETS: usize = 8;

/// The sockets of a host, each with a queue of received frames, the oldest first.
#[derive(Drop)]
pub(crate) struct Sockets {
    /// Which frames each socket takes, in the order of the table.
    kinds: ArrayVec<SocketKind, MOST_SOCKETS>,
    /// The queue of each socket.
    queues: Vec<HeapCircularBuffer<Received>>,
    /// The number of frames that each queue has room for.
    room: usize,
    /// The number of received frames without a socket; this number saturates at the greatest `u64`.
    unclaimed: u64,
}

impl Model for Sockets {
    ghost Value = { SocketsState };

    ghost view = { sockets_of };

    ghost invariant = { AreConsistent };
}

impl Sockets {
    /// Returns sockets with empty queues, each with room for `room` frames. Returns an error if an allocation fails.
    pub(crate) fn new(
        alloc: Global,
        kinds: ArrayVec<SocketKind, MOST_SOCKETS>,
        room: usize,
    ) -> Result<Sockets, AllocError>
        ensures new { IfOk result (λ sockets. sockets ≡ record {
          kinds = kinds.items;
          queues = replicate (length kinds.items) [];
          room = room;
          unclaimed = 0;
        }) }
    {
        let mut queues = Vec::with_capacity(alloc, kinds.len())?;
        for _ in 0..kinds.len() {
            queues.push(HeapCircularBuffer::with_capacity(alloc, room)?)?;
        }
        Ok(Sockets {
            kinds,
            queues,
            room,
            unclaimed: 0,
        })
    }

    /// Returns the number of sockets. Each socket has a queue (`queues`).
    pub(crate) fn len(&self) -> usize
        ensures count { result ≡ length self.now.kinds }
        ensures queues { length self.now.queues ≡ length self.now.kinds }
    {
        self.queues.len()
    }

    /// Returns the number of frames queued for a socket, or 0 if there is no such socket.
    pub(crate) fn waiting(&self, socket: usize) -> usize
        ensures { result ≡ length (queue_at self.now.queues socket) }
    {
        match self.queues.as_slice().get(socket) {
            Some(queue) => queue.len(),
            None => 0,
        }
    }

    /// Returns the number of received frames without a socket. The number saturates at the greatest `u64`.
    pub(crate) fn unclaimed(&self) -> u64
        ensures { result ≡ self.now.unclaimed }
    {
        self.unclaimed
    }

    /// Removes and returns the oldest frame of a socket's queue. Returns `None` if the queue is empty. There must be
    /// such a socket. No other queue changes (`others`).
    #[tactic(auto, using(crate::proofs::InsideQueues::others_stay))]
    pub(crate) fn next(&mut self, socket: usize) -> Option<Received>
        requires there { socket < length self.old.kinds }
        ensures none { IfNone result (queue_at self.old.queues socket ≡ []) }
        ensures stays { IfNone result (self.new ≡ self.old) }
        ensures oldest { IfSome result
            (λ received. queue_at self.old.queues socket ≡ received ∷ queue_at self.new.queues socket) }
        ensures others { self.new ≡ record self.old
            { queues = slice_set self.old.queues socket (queue_at self.new.queues socket) } }
    {
        self.queues[socket].pop_front()
    }
}

impl Receiver for Sockets {
    ghost use Rattle.packet_socket.specs.SortingLaws.{sorts_join, sorts_stays};

    ghost took = { Sorts };

    /// Puts a frame at the end of the queue of its socket, and returns no buffer. In a host, the queue has room for the
    /// frame. A frame without a socket is counted, and its buffers are returned at once.
    fn take(&mut self, received: Received) -> Parts {
        let Some(socket) = socket_of(self.kinds.as_slice(), received.ether_type) else {
            self.unclaimed = self.unclaimed.saturating_add(1);
            return received.parts;
        };
        // In a host, the queue has room, so the result is always Ok, and no frame is dropped.
        let _ = self.queues[socket].push_back(received);
        Parts::new()
    }

    ghost stays = { sorts_stays };

    ghost joins = { sorts_join };
}
