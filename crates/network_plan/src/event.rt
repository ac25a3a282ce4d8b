// The events of a run.

use stations::Tick;

/// An event of a run. Before each access of a call or reset, the event's ticks up to the next [`Go`](Tick::Go) are
/// played, or all remaining ticks if no `Go` remains. After the last access, the remaining ticks are played, and each
/// `Go` is skipped. Hosts are numbered from 0 in the order of the plan. An event borrows its frame and its ticks.
#[derive(Clone, Copy, Debug, Drop)]
pub enum Event<'a> {
    /// A host sends a frame of any length. The answer is E20 if the frame has fewer than 14 bytes, and E21 if the frame
    /// has more than 1,518 bytes.
    Send {
        /// The number of the host.
        host: usize,
        /// The frame's bytes.
        frame: &'a [u8],
        /// The ticks that are played inside the call.
        ticks: &'a [Tick],
    },
    /// A host asks for the oldest frame of a socket.
    Recv {
        /// The number of the host.
        host: usize,
        /// The number of the socket: its index in the host's table of sockets.
        socket: usize,
        /// The ticks that are played inside the call.
        ticks: &'a [Tick],
    },
    /// A host handles an interrupt.
    Interrupt {
        /// The number of the host.
        host: usize,
        /// The ticks that are played inside the call.
        ticks: &'a [Tick],
    },
    /// A host joins a multicast group.
    Join {
        /// The number of the host.
        host: usize,
        /// The group's address.
        group: [u8; 6],
        /// The ticks that are played inside the call.
        ticks: &'a [Tick],
    },
    /// A host leaves a multicast group.
    Leave {
        /// The number of the host.
        host: usize,
        /// The group's address.
        group: [u8; 6],
        /// The ticks that are played inside the call.
        ticks: &'a [Tick],
    },
    /// A host's driver resets the host's adapter, and initializes the adapter with the groups that the host has joined.
    Reset {
        /// The number of the host.
        host: usize,
        /// The ticks that are played inside the reset.
        ticks: &'a [Tick],
    },
    /// A tick outside a call. `Go` does nothing here.
    Tick(Tick),
}

impl Event<'_> {
    ghost use Rattle.std.specs.Prelude.{◌≡◌, length};
    ghost use Rattle.network_plan.specs.Answers.{ticks_of};

    /// Returns the number of the event's ticks, including each `Go`.
    pub fn tick_count(&self) -> usize
        ensures { result ≡ length (ticks_of self.now) }
    {
        match self {
            Event::Send { ticks, .. }
            | Event::Recv { ticks, .. }
            | Event::Interrupt { ticks, .. }
            | Event::Join { ticks, .. }
            | Event::Leave { ticks, .. }
            | Event::Reset { ticks, .. } => { ticks.len() }
            Event::Tick(_) => 1,
        }
    }
}
