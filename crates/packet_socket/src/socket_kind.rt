// Which frames a socket takes.

ghost use Rattle.std.specs.Prelude.{◌≡◌, ◌<◌, IfSome, length, position};
ghost use Rattle.packet_socket.specs.SocketKinds as kinds;

/// Which frames a socket takes.
#[derive(Clone, Copy, Debug, Default, PartialEq, Eq)]
pub enum SocketKind {
    /// Frames of this EtherType (bytes 12 and 13), if no earlier socket in the table has the same EtherType.
    Ether(u16),
    /// Frames that no `Ether` socket takes, if no earlier socket in the table is an `All` socket.
    #[default]
    All,
}

impl SocketKind {
    /// Returns whether this is an `Ether` socket of this EtherType.
    fn is_of_type(self, ether_type: u16) -> bool
        ensures { result ≡ kinds.is_of_type ether_type self }
    {
        match self {
            SocketKind::Ether(own) => own == ether_type,
            SocketKind::All => false,
        }
    }

    /// Returns whether this is an `All` socket.
    fn is_all(self) -> bool
        ensures { result ≡ kinds.is_all self }
    {
        match self {
            SocketKind::Ether(_) => false,
            SocketKind::All => true,
        }
    }
}

/// Returns the index of the first `Ether` socket of this EtherType, if there is such a socket.
fn first_of_type(table: &[SocketKind], ether_type: u16) -> Option<usize>
    ensures { result ≡ position (kinds.is_of_type ether_type) table.now }
{
    table.iter().position(|kind| kind.is_of_type(ether_type))
}

/// Returns the index of the first `All` socket, if there is such a socket.
fn first_all(table: &[SocketKind]) -> Option<usize>
    ensures { result ≡ position kinds.is_all table.now }
{
    table.iter().position(|kind| kind.is_all())
}

/// Returns the index of the socket that takes frames of this EtherType. This is the first `Ether` socket of the
/// EtherType, else the first `All` socket, else `None`.
pub(crate) fn socket_of(table: &[SocketKind], ether_type: u16) -> Option<usize>
    ensures socket { result ≡ kinds.socket_of table.now ether_type }
    ensures there { IfSome result (λ socket. socket < length table.now) }
{
    match first_of_type(table, ether_type) {
        Some(own) => Some(own),
        None => first_all(table),
    }
}
