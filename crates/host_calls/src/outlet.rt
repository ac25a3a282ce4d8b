// Sinks, which take the frames of a host that is drained.

ghost use Rattle.std.specs.Prelude.{◌≡◌, ◌≤◌, ◌<◌, ◌+◌, ◌++◌, ◌∷◌, [], ℕ, List};
ghost use Rattle.packet_socket.specs.HostCalls.{Given};

use descriptors::Frame;

/// A sink takes the frames of a host that is drained, each with the number of the socket that returned it.
pub trait Outlet {
    /// The frames that the sink has taken, in order.
    ghost frames: { Self → List Given };

    /// The number of further frames for which the sink has room.
    ghost room_left: { Self → ℕ };

    /// Returns the number of further frames for which the sink has room.
    fn room(&self) -> usize
        ensures { result ≡ room_left self.now };

    /// Appends a frame that this socket returned. The sink must have room for a frame. The room decreases by at most
    /// one frame.
    fn take(&mut self, socket: usize, frame: &Frame)
        requires room { 0 < room_left self.old }
        ensures room { room_left self.old ≤ room_left self.new + 1 }
        ensures last { frames self.new
            ≡ frames self.old ++ record { socket = socket; frame = frame.now } ∷ [] };
}
