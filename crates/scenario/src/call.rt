// A call of a host.

ghost use Rattle.std.specs.Prelude.{◌≡◌};
ghost use Rattle.scenario.specs.SoFar.{command_of_event, said_of_call};

use network_plan::Event;
use stations::Tick;

/// A call of a host, or a reset: what the host is asked to do, without the ticks that are played during the call.
#[derive(Drop)]
pub enum Call {
    /// To send this frame.
    Send(Vec<u8>),
    /// To return the oldest frame of the socket with this number.
    Recv(usize),
    /// To handle an interrupt.
    Interrupt,
    /// To reset its adapter.
    Reset,
    /// To join the group with this address.
    Join([u8; 6]),
    /// To leave the group with this address.
    Leave([u8; 6]),
}

impl Call {
    /// Returns the event of this call at a host, during which these ticks are played. The event borrows the frame of a
    /// send, and the ticks. The clause compares the event and the call as commands, without borrows.
    pub fn event<'a>(&'a self, host: usize, ticks: &'a [Tick]) -> Event<'a>
        ensures { command_of_event result ≡ said_of_call self.now host ticks.now }
    {
        match self {
            Call::Send(frame) => Event::Send {
                host,
                frame: frame.as_slice(),
                ticks,
            },
            Call::Recv(socket) => Event::Recv {
                host,
                socket: *socket,
                ticks,
            },
            Call::Interrupt => Event::Interrupt { host, ticks },
            Call::Reset => Event::Reset { host, ticks },
            Call::Join(group) => Event::Join {
                host,
                group: *group,
                ticks,
            },
            Call::Leave(group) => Event::Leave {
                host,
                group: *group,
                ticks,
            },
        }
    }
}
