//! The lines that the program prints.
ghost use Rattle.std.specs.Prelude.{◌≡◌, ◌<◌, ◌≤◌, ◌+◌, ◌++◌, length, OnOk, OnErr};
ghost use Rattle.std.specs.Io.KnownBytes.{Appends};
ghost use Rattle.pcap_trace.specs.Devices.{AppendsFront, CountsFailures};
ghost use Rattle.pcap_bench.specs.Printing.{cut_word, pass_line};

use crate::counts::PassCounts;
use arrayvec::ArrayVec;
use pcap_trace::{Sink, Trace, WriteError, write_all};
use text::push_field;

/// Room in bytes for the longest line: five labels with numbers, of at most 60 bytes each, and `cut no` or `cut yes`.
const LONGEST_LINE: usize = 320;

/// A line under construction.
pub(crate) type Line = ArrayVec<u8, LONGEST_LINE>;

/// Appends ` cut yes` or ` cut no`, and a line feed: at most 9 bytes, for which the line must have room.
pub(crate) fn push_cut(line: &mut Line, cut: bool)
    requires room { length line.old.items + 9 ≤ 320 }
    ensures text { line.new.items ≡ line.old.items ++ cut_word cut }
{
    let word: &[u8] = if cut { b" cut yes\n" } else { b" cut no\n" };
    line.try_extend_from_slice(word).unwrap();
}

/// Writes the program's line of a pass to a sink: `read R skipped K illegal I filtered F written W cut no` (or `cut
/// yes`), ended by a line feed. The call allocates nothing.
///
/// # Errors
///
/// [`Write`](WriteError::Write) if the sink fails. Then only a beginning of the line was written.
pub fn print_pass<W: Sink>(
    trace: &Trace,
    counts: &PassCounts,
    sink: &mut W,
) -> Result<(), WriteError>
    requires { W.failures sink.old < u64.MAX }
    ensures ok { OnOk result (Appends (W.taken sink.old) (W.taken sink.new) (pass_line trace.now counts.now)) }
    ensures err { OnErr result (AppendsFront (W.taken sink.old) (W.taken sink.new) (pass_line trace.now counts.now)) }
    ensures failures { CountsFailures result (W.failures sink.old) (W.failures sink.new) }
{
    let mut line = Line::new();
    push_field(&mut line, b"read ", counts.read);
    push_field(&mut line, b" skipped ", trace.skipped);
    push_field(&mut line, b" illegal ", counts.illegal);
    push_field(&mut line, b" filtered ", counts.filtered);
    push_field(&mut line, b" written ", counts.written);
    push_cut(&mut line, trace.cut);
    write_all(sink, line.as_slice())
}
