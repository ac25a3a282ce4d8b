//! Descriptors of sixteen bytes in a host's memory, rings of descriptors, Ethernet frames, and queues of frames.
//!
//! A frame is the bytes from the destination address to the end of the data, without the check sequence. The packet
//! buffers of a network adapter are queues of frames: first in, first out, for a limited number of frames or bytes. The
//! memory of a queue is allocated once. The crate also copies circular buffers.
#![tactic(auto)]

mod buffers;
mod flags;
mod frame;
mod laws;
mod packed;
mod queue;
mod ring;
mod rx_desc;
mod tx_desc;

pub use buffers::copy_of;
pub use flags::{RxStatus, TxCommand, TxStatus};
pub use frame::{
    Frame, LONGEST_LEGAL, LONGEST_SENDABLE, SHORTEST_LEGAL, SHORTEST_SENDABLE, is_sendable,
};
pub use laws::{
    descriptors_come_back, offered_places_go_from_head_to_tail,
    sendable_frames_are_padded_to_legal, transmit_descriptors_come_back,
};
pub use packed::PackedQueue;
pub use queue::{FrameQueue, PLACE_BYTES};
pub use ring::Ring;
pub use rx_desc::{RX_DESC_BYTES, RxDesc};
pub use tx_desc::{TX_DESC_BYTES, TxDesc};
