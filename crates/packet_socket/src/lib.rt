//! Packet sockets over a driver of the 82540EM: a host sends frames, and its sockets receive frames by EtherType.
#![tactic(auto)]

mod call;
mod groups;
mod host;
mod interrupt;
mod law;
mod receive;
mod reset;
mod socket_kind;
mod sockets;

pub use call::{HostAnswer, HostCall};
pub use host::Host;
pub use law::{host_intervals_join, hosts_go_on};
pub use receive::RecvError;
pub use socket_kind::SocketKind;
pub use sockets::MOST_SOCKETS;
