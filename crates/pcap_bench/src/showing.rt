//! The frames of a trace, shown one per line.
ghost use Rattle.std.specs.Prelude.{◌≡◌, ◌<◌, ◌≤◌, ◌+◌, ◌++◌, codes, length, OnOk, OnErr};
ghost use Rattle.std.specs.Io.KnownBytes.{Appends};
ghost use Rattle.pcap_trace.specs.Devices.{AppendsFront, CountsFailures};
ghost use Rattle.pcap_bench.specs.Showing.{address_text, end_line, shown_frame, header_text, pair};
ghost use Rattle.pcap_bench.specs.Showing.{shown_trace};

use crate::printing::{Line, push_cut};
use pcap_trace::{Sink, Trace, WriteError, write_all};
use text::push_field;

/// The number of bytes of a frame's two addresses and its type (IEEE 802.3 clause 3.2).
const HEADER: usize = 14;

/// Appends a byte, as two hexadecimal digits, for which the line must have room.
fn push_byte(line: &mut Line, byte: u8)
    requires room { length line.old.items + 2 ≤ 320 }
    ensures text { line.new.items ≡ line.old.items ++ pair byte }
    ensures size { length line.new.items ≡ length line.old.items + 2 }
{
    let mut digits = [0; 2];
    hex::encode_to_slice([byte], &mut digits).unwrap();
    line.try_extend_from_slice(&digits).unwrap();
}

/// Appends a space and an address of 6 bytes: 18 characters, for which the line must have room.
fn push_address(line: &mut Line, address: &[u8])
    requires whole { length address.now ≡ 6 }
    requires room { length line.old.items + 18 ≤ 320 }
    ensures text { line.new.items ≡ line.old.items ++ codes " " ++ address_text address.now }
    ensures size { length line.new.items ≡ length line.old.items + 18 }
{
    line.push(b' ');
    push_byte(line, address[0]);
    for byte in &address[1..] {
        line.push(b':');
        push_byte(line, *byte);
    }
}

/// Appends a frame's destination, source and type, or `short` if the frame has fewer than 14 bytes. Appends at most 41
/// bytes, but the line must have room for 60 bytes, as for a call of `push_field`.
fn push_header(line: &mut Line, frame: &[u8])
    requires room { length line.old.items + 60 ≤ 320 }
    ensures text { line.new.items ≡ line.old.items ++ header_text frame.now }
    ensures short { length line.new.items ≤ length line.old.items + 60 }
{
    if frame.len() < HEADER {
        line.try_extend_from_slice(b" short").unwrap();
        return;
    }
    push_address(line, &frame[..6]);
    push_address(line, &frame[6..12]);
    line.push(b' ');
    push_byte(line, frame[12]);
    push_byte(line, frame[13]);
}

/// Writes the line of a frame: its number, its length, and its addresses and type, or `short` if the frame has fewer
/// than 14 bytes. These fields have no labels.
fn write_frame<W: Sink>(sink: &mut W, number: u64, frame: &[u8]) -> Result<(), WriteError>
    requires { W.failures sink.old < u64.MAX }
    ensures ok { OnOk result (Appends (W.taken sink.old) (W.taken sink.new) (shown_frame number frame.now)) }
    ensures err { OnErr result (AppendsFront (W.taken sink.old) (W.taken sink.new) (shown_frame number frame.now)) }
    ensures failures { CountsFailures result (W.failures sink.old) (W.failures sink.new) }
{
    let mut line = Line::new();
    push_field(&mut line, b"", number);
    push_field(&mut line, b" ", frame.len() as u64);
    push_header(&mut line, frame);
    line.push(b'\n');
    write_all(sink, line.as_slice())
}

/// Writes the last line: the numbers of frames and of skipped packets, and whether the trace is cut off. `count` must
/// be the number of frames.
fn write_end<W: Sink>(sink: &mut W, trace: &Trace, count: u64) -> Result<(), WriteError>
    requires countable { W.failures sink.old < u64.MAX }
    requires counted { count ≡ length trace.now.frames }
    ensures ok { OnOk result (Appends (W.taken sink.old) (W.taken sink.new) (end_line trace.now)) }
    ensures err { OnErr result (AppendsFront (W.taken sink.old) (W.taken sink.new) (end_line trace.now)) }
    ensures failures { CountsFailures result (W.failures sink.old) (W.failures sink.new) }
{
    let mut line = Line::new();
    push_field(&mut line, b"frames ", count);
    push_field(&mut line, b" skipped ", trace.skipped);
    push_cut(&mut line, trace.cut);
    write_all(sink, line.as_slice())
}

/// Writes the lines of `show` to a sink, each ended by a line feed. The line of a frame is `N LEN DST SRC TYPE`, or `N
/// LEN short` if the frame has fewer than 14 bytes. The last line is `frames F skipped K cut no` (or `cut yes`).
///
/// N is the frame's number, from 0, and LEN is its length in bytes. DST and SRC are its addresses, as
/// `02:00:00:00:00:01`, and TYPE is its bytes 12 and 13, as `0800`. The call allocates nothing, and writes one line at
/// a time.
///
/// # Errors
///
/// [`Write`](WriteError::Write) if the sink fails. Then only a beginning of the lines was written.
pub fn show<W: Sink>(trace: &Trace, sink: &mut W) -> Result<(), WriteError>
    requires { W.failures sink.old < u64.MAX }
    ensures ok { OnOk result (Appends (W.taken sink.old) (W.taken sink.new) (shown_trace trace.now)) }
    ensures err { OnErr result (AppendsFront (W.taken sink.old) (W.taken sink.new) (shown_trace trace.now)) }
    ensures failures { CountsFailures result (W.failures sink.old) (W.failures sink.new) }
{
    let count = trace.frames.len() as u64;
    let mut next = 0;
    for frame in trace.frames.iter() {
        write_frame(sink, next, frame)?;
        next += 1;
    }
    write_end(sink, trace, count)
}
