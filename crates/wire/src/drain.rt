// Draining a host of a network.

ghost use Rattle.std.specs.Prelude.{◌≡◌, ◌≤◌, ◌+◌, length};
ghost use Rattle.host_calls.specs.DrainedHosts.{count_frames};
ghost use Rattle.packet_socket.specs.HostState.{HostState};
ghost use Rattle.stations.specs.Stations.{world_at};
ghost use Rattle.wire.specs.DrainedNetworks.{NetworkDrains};
ghost use Rattle.host_calls.specs.Networks.{IsHost};

use crate::Lan;
use host_calls::Outlet;
use rx_engine::MOST_FRAMES;

impl Lan {
    /// Returns the number of frames for which a [`drain`](Lan::drain) of a host needs room: the number of its receive
    /// buffers, plus [`MOST_FRAMES`] (614) for its packet buffer. A host never holds more frames than this number.
    /// Returns 0 if there is no such host.
    pub fn drain_room(&self, host: usize) -> usize
        ensures there { (state : HostState) → IsHost self.now host state
            → result ≡ state.driver.layout.buffers + MOST_FRAMES }
        ensures enough { (state : HostState) → IsHost self.now host state
            → count_frames state (world_at self.now.stations host) ≤ result }
        ensures none { length self.now.hosts ≤ host → result ≡ 0 }
    {
        let Some(host) = self.network.host(host) else {
            return 0;
        };
        usize::from(host.layout().buffers()) + usize::from(MOST_FRAMES)
    }

    /// Drains a host: passes each frame that the host holds for its sockets to `sink`, with the socket's number, and
    /// returns the number of steps. If there is no such host, nothing changes, and the result is 0. The call allocates
    /// no memory. `sink` must have room for the number of frames that [`drain_room`](Lan::drain_room) returns. Each
    /// frame uses at most one place of this room (`left`).
    ///
    /// Each step is the first of these that applies. If a piece of a frame is in progress, the host's adapter writes
    /// back the descriptor of the piece. If the interrupt line is asserted, the host handles an interrupt. If a frame
    /// is queued for a socket, the first such socket returns its oldest frame. If the receive packet buffer contains a
    /// frame, the adapter moves the next piece of the oldest frame to memory.
    pub fn drain<S: Outlet>(&mut self, host: usize, sink: &mut S) -> u64
        requires room { (state : HostState) → IsHost self.old host state
            → state.driver.layout.buffers + MOST_FRAMES ≤ S.room_left sink.old }
        ensures drains { NetworkDrains self.old host result (S.frames sink.old) (S.frames sink.new) self.new }
        ensures left { length (S.frames sink.old) + S.room_left sink.old
            ≤ length (S.frames sink.new) + S.room_left sink.new }
    {
        if host >= self.network.len() {
            return 0;
        }
        self.network.drain(host, sink)
    }
}
