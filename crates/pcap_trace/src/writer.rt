//! A trace written in large blocks.
ghost use Rattle.std.specs.Prelude.{◌≡◌, ◌<◌, ◌≤◌, ◌+◌, ◌++◌, [], drop, length, take, OnOk, OnErr, IfOk};
ghost use Rattle.std.specs.Io.KnownBytes.{Appends, append_known};
ghost use Rattle.pcap_trace.specs.Devices.{AppendsFront, CountsFailures, Grows};
ghost use Rattle.pcap_trace.specs.Format.{file_header, packet_of};

use crate::device::Sink;
use crate::fault::WriteError;
use crate::packet::{PACKET_HEADER, file_header, packet_header};
use crate::unit::Unit;
use crate::writing::write_all;
use std::alloc::{AllocError, Global};
use std::marker::Model;

/// The size in bytes of the block in which bytes wait for the sink.
const BLOCK: usize = 65_536;

/// Writes a trace packet by packet: little-endian, times in a [`Unit`], version 2.4, snapshot length 65,535, link
/// type Ethernet (libpcap, "pcap-savefile"). All packets of a trace must have the unit of its file header.
///
/// Bytes that wait for the sink are in a block of 64 KiB, which `new` allocates. In contracts, the value is the list of
/// these bytes. [`RecordWriter::flush`] writes the last bytes.
#[derive(Drop)]
pub struct RecordWriter {
    block: Vec<u8>,
    /// The number of bytes of the block that wait.
    end: usize,
}

impl Model for RecordWriter {
    ghost use Rattle.std.specs.Prelude.{List, ℕ, ◌≡◌, ◌≤◌, length, take};

    ghost Value = { List ℕ };

    ghost view = { λ w. take w.end w.block.items };

    ghost invariant = { λ w. (length w.block.items ≡ 65536) × (w.end ≤ 65536) };
}

/// Returns a block of 65,536 zeros.
fn new_block(alloc: Global) -> Result<Vec<u8>, AllocError>
    ensures { IfOk result (λ block. length block.items ≡ 65536) }
{
    vec![in alloc; 0; BLOCK]
}

/// Writes bytes into a block from `start` on. The bytes must fit into the block.
fn write_at(block: &mut [u8], start: usize, bytes: &[u8])
    requires room { start + length bytes.now ≤ length block.old }
    ensures { block.new ≡ take start block.old ++ bytes.now ++ drop (start + length bytes.now) block.old }
{
    block[start..start + bytes.len()].copy_from_slice(bytes);
}

/// Writes bytes after the first `end` bytes of a block, and returns the place after the last byte written. The bytes
/// must fit into the block.
fn put(block: &mut [u8], end: usize, bytes: &[u8]) -> usize
    requires room { end + length bytes.now ≤ length block.old }
    ensures put { take result block.new ≡ take end block.old ++ bytes.now }
    ensures end { result ≡ end + length bytes.now }
    ensures size { length block.new ≡ length block.old }
{
    write_at(block, end, bytes);
    end + bytes.len()
}

impl RecordWriter {
    /// Returns a writer in which the file header waits. The call allocates 64 KiB.
    ///
    /// # Errors
    ///
    /// Only if memory is refused.
    pub fn new(alloc: Global, unit: Unit) -> Result<RecordWriter, AllocError>
        ensures { IfOk result (λ w. w ≡ file_header unit) }
    {
        let block = new_block(alloc)?;
        let mut writer = RecordWriter { block, end: 0 };
        writer.begin(unit);
        Ok(writer)
    }

    /// Begins a trace: only the file header waits. Bytes that waited before are dropped.
    pub fn begin(&mut self, unit: Unit)
        ensures { self.new ≡ file_header unit }
    {
        self.end = put(self.block.as_mut_slice(), 0, &file_header(unit));
    }

    /// Appends the packet of a frame of at most 1,518 bytes, at a time in microseconds. If the block has no room for
    /// the packet, the bytes that wait are first written to the sink. `unit` must be that of the trace's file header;
    /// no clause states this.
    ///
    /// # Errors
    ///
    /// [`Write`](WriteError::Write) if the sink fails. Then a beginning of the bytes that waited was written, and all
    /// of these bytes still wait, without this packet. Another flush would write that beginning again.
    #[inline(always)]
    pub fn write<W: Sink>(
        &mut self,
        sink: &mut W,
        unit: Unit,
        time: u64,
        frame: &[u8],
    ) -> Result<(), WriteError>
        requires countable { W.failures sink.old < u64.MAX }
        requires short { length frame.now ≤ 1518 }
        // The bytes that the sink has taken, followed by the bytes that wait, grow by the packet.
        ensures ok { OnOk result
            (Appends (append_known (W.taken sink.old) self.old) (append_known (W.taken sink.new) self.new)
            (packet_of unit (record { time = time; frame = frame.now }))) }
        ensures grows { OnOk result (Grows (W.taken sink.old) (W.taken sink.new)) }
        ensures err { OnErr result (AppendsFront (W.taken sink.old) (W.taken sink.new) self.old) }
        ensures kept { OnErr result (self.new ≡ self.old) }
        ensures failures { CountsFailures result (W.failures sink.old) (W.failures sink.new) }
    {
        // If more bytes wait than this difference, the packet doesn't fit. A packet is shorter than a block.
        if BLOCK - PACKET_HEADER - frame.len() < self.end {
            self.flush(sink)?;
        }
        self.append(unit, time, frame);
        Ok(())
    }

    /// Appends the packet of a frame of at most 1,518 bytes to the bytes that wait. The block must have room for the
    /// packet.
    #[inline(always)]
    fn append(&mut self, unit: Unit, time: u64, frame: &[u8])
        requires short { length frame.now ≤ 1518 }
        requires room { length self.old + 16 + length frame.now ≤ 65536 }
        ensures { self.new ≡ self.old ++ packet_of unit (record { time = time; frame = frame.now }) }
    {
        let header = packet_header(unit, time, frame.len() as u32);
        let end = put(self.block.as_mut_slice(), self.end, &header);
        self.end = put(self.block.as_mut_slice(), end, frame);
    }

    /// Writes the bytes that wait to the sink. A trace is complete only after a flush.
    ///
    /// # Errors
    ///
    /// [`Write`](WriteError::Write) if the sink fails. Then a beginning of the bytes that waited was written, and all
    /// of these bytes still wait. Another flush would write that beginning again.
    pub fn flush<W: Sink>(&mut self, sink: &mut W) -> Result<(), WriteError>
        requires { W.failures sink.old < u64.MAX }
        ensures ok { OnOk result (Appends (W.taken sink.old) (W.taken sink.new) self.old) }
        ensures empty { OnOk result (self.new ≡ []) }
        ensures err { OnErr result (AppendsFront (W.taken sink.old) (W.taken sink.new) self.old) }
        ensures kept { OnErr result (self.new ≡ self.old) }
        ensures failures { CountsFailures result (W.failures sink.old) (W.failures sink.new) }
    {
        write_all(sink, &self.block.as_slice()[..self.end])?;
        self.end = 0;
        Ok(())
    }
}
