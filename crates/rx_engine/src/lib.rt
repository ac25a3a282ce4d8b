//! The receive engine of the Intel 82540EM: it stores frames from the wire, and writes them to a host's memory.
//!
//! Frames wait in the receive packet buffer, oldest first. A data step writes the next piece of the oldest frame to the
//! buffer that the descriptor at the head of the receive ring points to. A done step then writes back this descriptor,
//! if the descriptor is inside memory. Section numbers are those of Intel's "PCI/PCI-X Family of Gigabit Ethernet
//! Controllers Software Developer's Manual".
#![tactic(auto)]

mod arrival;
mod data;
mod done;
mod engine;
mod finished;
mod laws;
mod storing;

pub use arrival::{Fate, arrive};
pub use data::{Data, has_frame_to_move, rx_data};
pub use done::{Done, rx_done};
pub use engine::{MOST_FRAMES, RxEngine, Work};
pub use finished::{append_finished, append_piece, bytes_in_progress};
pub use laws::frames_held_by_the_receive_engine;
