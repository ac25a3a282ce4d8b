//! The memory that a host shares with its network adapter, the places of a driver's rings and buffers
//! in it, and the owners of receive buffers.
//!
//! A [`HostMemory`] is a sequence of bytes, which host and adapter load and store by address. A [`Layout`] places the
//! descriptor rings and the packet buffers of one driver in such a memory, without overlaps. A [`Pool`] contains the
//! numbers of free receive buffers, and passes each number to one owner at a time.
#![tactic(auto)]

mod host_memory;
mod laws;
mod memory_layout;
mod pool;

pub use host_memory::{HostMemory, OutOfRange};
pub use laws::{numbers_have_one_owner, places_are_apart, stores_are_loaded};
pub use memory_layout::{
    DESCRIPTOR_BYTES, Layout, LayoutError, MOST_BUFFERS, MOST_DESCRIPTORS, RECEIVE_BUFFER_BYTES,
    RING_STEP, TRANSMIT_BUFFER_BYTES,
};
pub use pool::{BufId, Pool};
