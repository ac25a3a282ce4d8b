// Returning a frame of a socket.

ghost use Rattle.std.specs.Prelude.{◌≡◌, ◌↔◌, ◌≤◌, ◌<◌, [], Err, IfErr, IfOk, length};
ghost use Rattle.dma_memory.specs.Layout.{size_of};
ghost use Rattle.adapter.specs.Keeping.{Keeps};
ghost use Rattle.packet_socket.specs.ErrorTexts.{recv_error_text};
ghost use Rattle.packet_socket.specs.HostActs.{CallsOver};
ghost use Rattle.packet_socket.specs.HostCalls.{Returns, host_at};
ghost use Rattle.packet_socket.specs.HostEffects.{RecvEffect, frame_answer, given_by};
ghost use Rattle.packet_socket.specs.HostState.{queue_at};
ghost use Rattle.packet_socket.specs.declared.receive.RecvError.TheVariants as RecvError;

use crate::Host;
use adapter::Bus;
use thiserror::Error;

/// The reason why no frame is returned.
#[derive(Clone, Copy, Debug, PartialEq, Eq, Error)]
#[error("{}", self.text())]
pub enum RecvError {
    /// The socket's queue is empty.
    Empty,
    /// There is no such socket.
    NoSocket,
}

impl RecvError {
    /// Returns the code and the name of the error, which are also its message.
    pub fn text(self) -> &'static str
        ensures { result.now ≡ recv_error_text self }
    {
        match self {
            RecvError::Empty => "E30 Empty",
            RecvError::NoSocket => "E31 NoSocket",
        }
    }
}

impl Host {
    /// Removes the oldest entry of a socket's queue, copies the entry's frame to the front of `into`, and returns the
    /// frame's length, from 60 to 1,518 bytes. The bytes of `into` after this length don't change. The entry's buffers
    /// return to the driver, which refills its receive ring. The copied bytes are the frame if the bus obeys the law
    /// and the host is ready. The other statements hold over any bus. `bus` must have at least `layout().size()` bytes.
    ///
    /// # Errors
    ///
    /// E31 [`NoSocket`](RecvError::NoSocket) if there is no such socket, E30 [`Empty`](RecvError::Empty) if its queue
    /// is empty; both without an access. After an error, the host and `into` are unchanged.
    pub fn recv<B: Bus>(
        &mut self,
        bus: &mut B,
        socket: usize,
        into: &mut [u8; 1518],
    ) -> Result<usize, RecvError>
        requires memory { size_of self.old.driver.layout ≤ B.extent bus.old }
        ensures keeps { Keeps B.Bus bus.old bus.new }

        // Over any bus.
        ensures no_socket { (result ≡ Err RecvError.NoSocket) ↔ (length self.old.kinds ≤ socket) }
        ensures empty { (result ≡ Err RecvError.Empty)
            ↔ ((socket < length self.old.kinds) × (queue_at self.old.queues socket ≡ [])) }
        ensures err { IfErr result (λ error. (bus.new ≡ bus.old) × (self.new ≡ self.old) × (into.new ≡ into.old)) }
        ensures ok { IfOk result (Returns self.old self.new socket into.old into.new) }

        // Over a bus that obeys the law. The call accepts no frames (the empty list).
        ensures receives { CallsOver B.Bus (given_by socket (frame_answer into.new result)) []
            (host_at bus.old self.old) (host_at bus.new self.new) (RecvEffect socket (frame_answer into.new result)) }
    {
        if socket >= self.sockets.len() {
            return Err(RecvError::NoSocket);
        }
        let Some(received) = self.sockets.next(socket) else {
            return Err(RecvError::Empty);
        };
        let size = self.driver.read(bus, &received, into);
        self.driver.give(bus, received.parts);
        Ok(size)
    }
}
