//! Bytes and whole traces written to a sink.
ghost use Rattle.std.specs.Prelude.{◌<◌, OnOk, OnErr, map};
ghost use Rattle.std.specs.Io.KnownBytes.{Appends};
ghost use Rattle.pcap_trace.specs.Devices.{AppendsFront, CountsFailures};
ghost use Rattle.pcap_trace.specs.Format.{packet_of, timed, written};

use crate::device::Sink;
use crate::fault::WriteError;
use crate::packet::{file_header, packet_header};
use crate::trace::Trace;
use crate::unit::Unit;
use descriptors::Frame;

/// Writes all bytes of a slice to a sink, in as many writes as the sink needs.
///
/// # Errors
///
/// [`Write`](WriteError::Write) if the sink fails. Then a beginning of the slice was written.
pub fn write_all<W: Sink>(sink: &mut W, bytes: &[u8]) -> Result<(), WriteError>
    requires { W.failures sink.old < u64.MAX }
    ensures ok { OnOk result (Appends (W.taken sink.old) (W.taken sink.new) bytes.now) }
    ensures err { OnErr result (AppendsFront (W.taken sink.old) (W.taken sink.new) bytes.now) }
    ensures failures { CountsFailures result (W.failures sink.old) (W.failures sink.new) }
{
    let mut rest = bytes;
    while !rest.is_empty() {
        let count = sink.write(rest)?;
        rest = rest.split_at(count).1;
    }
    Ok(())
}

/// Writes a packet, in two slices. `packet` is its time in microseconds, and its frame; the written time is in `unit`.
/// If the sink fails, a beginning of the packet was written.
fn write_packet<W: Sink>(sink: &mut W, unit: Unit, packet: &(u64, Frame)) -> Result<(), WriteError>
    requires { W.failures sink.old < u64.MAX }
    ensures ok { OnOk result (Appends (W.taken sink.old) (W.taken sink.new) (packet_of unit (timed packet.now))) }
    ensures err { OnErr result
        (AppendsFront (W.taken sink.old) (W.taken sink.new) (packet_of unit (timed packet.now))) }
    ensures failures { CountsFailures result (W.failures sink.old) (W.failures sink.new) }
{
    let (time, frame) = packet;
    write_all(sink, &packet_header(unit, *time, frame.len() as u32))?;
    write_all(sink, frame.as_slice())
}

impl Trace {
    /// Writes a trace file of these frames, each with its time in microseconds. The file has version 2.4 of libpcap's
    /// format (its manual page "pcap-savefile"), is little-endian, and has snapshot length 65,535 and link type
    /// Ethernet. It has times in `unit`, with the low 32 bits of the seconds. Both lengths of a packet are the length
    /// of its frame. The call allocates nothing, and writes two slices for each packet; [`RecordWriter`] writes large
    /// blocks.
    ///
    /// # Errors
    ///
    /// [`Write`](WriteError::Write) if the sink fails. Then only a beginning of the file was written.
    pub fn write<W: Sink>(
        sink: &mut W,
        unit: Unit,
        packets: &[(u64, Frame)],
    ) -> Result<(), WriteError>
        requires { W.failures sink.old < u64.MAX }
        ensures ok { OnOk result
            (Appends (W.taken sink.old) (W.taken sink.new) (written unit (map timed packets.now))) }
        ensures err { OnErr result
            (AppendsFront (W.taken sink.old) (W.taken sink.new) (written unit (map timed packets.now))) }
        ensures failures { CountsFailures result (W.failures sink.old) (W.failures sink.new) }
    {
        write_all(sink, &file_header(unit))?;
        for packet in packets {
            write_packet(sink, unit, packet)?;
        }
        Ok(())
    }
}
