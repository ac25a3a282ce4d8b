//! The contents of a trace file.

use crate::frames::Frames;

/// The contents of a trace file of libpcap, without the times.
#[derive(Drop)]
pub struct Trace {
    /// The frames: the captured bytes of the packets that aren't truncated, in order (libpcap, "pcap-savefile", Packet
    /// Header).
    pub frames: Frames,
    /// The number of truncated packets, which are skipped. A packet is truncated if its captured length is below its
    /// original length.
    pub skipped: u64,
    /// Whether the file ends inside a packet header or a packet. The beginning of the last packet is then neither a
    /// frame nor counted as skipped.
    pub cut: bool,
}
