//! The lines that the program prints of a run, one line for each host.
ghost use Rattle.std.specs.Prelude.{◌≡◌, ◌<◌, ◌≤◌, ◌+◌, ◌++◌, length, OnErr, OnOk};
ghost use Rattle.std.specs.Io.KnownBytes.{Appends};
ghost use Rattle.pcap_trace.specs.Devices.{AppendsFront, CountsFailures};
ghost use Rattle.run_record.specs.Printing.{exact_word, host_fields};
ghost use Rattle.run_record.specs.Printing.{host_line, resets_text, summary_text};

use crate::summary::{HostSummary, Summary};
use crate::tally::GivenUp;
use arrayvec::ArrayVec;
use pcap_trace::{Sink, WriteError, write_all};
use text::push_field;

/// Room in bytes for the part of a host's line after its name: ten labels with numbers, of at most 60 bytes each, a
/// word of at most 8 bytes, and a line feed.
const LONGEST_LINE: usize = 700;

/// The part of a host's line after its name.
type Line = ArrayVec<u8, LONGEST_LINE>;

/// Appends ` exact` if the number of missed frames is exact, else ` atleast`. The line must have room for 8 bytes.
fn push_exact(line: &mut Line, exact: bool)
    requires room { length line.old.items + 8 ≤ 700 }
    ensures text { line.new.items ≡ line.old.items ++ exact_word exact }
    ensures short { length line.new.items ≤ length line.old.items + 8 }
{
    let word: &[u8] = if exact { b" exact" } else { b" atleast" };
    line.try_extend_from_slice(word).unwrap();
}

/// Appends the numbers of frames that resets dropped, and that arrived while the receive side was disabled. Appends
/// nothing if there was no reset. The line must have room for 180 bytes: three fields of at most 60 bytes.
fn push_resets(line: &mut Line, given_up: Option<GivenUp>)
    requires room { length line.old.items + 180 ≤ 700 }
    ensures text { line.new.items ≡ line.old.items ++ resets_text given_up }
    ensures short { length line.new.items ≤ length line.old.items + 180 }
{
    let Some(given_up) = given_up else {
        return;
    };
    push_field(line, b" givenup ", given_up.sending);
    push_field(line, b" ", given_up.holding);
    push_field(line, b" off ", given_up.off);
}

/// Returns the part of a host's line after its name.
fn fields_of(host: &HostSummary) -> Line
    ensures { result.items ≡ host_fields host.now }
{
    let mut line = Line::new();
    push_field(&mut line, b" accepted ", host.accepted);
    push_field(&mut line, b" put ", host.put);
    push_field(&mut line, b" reached ", host.reached);
    push_field(&mut line, b" stored ", host.stored);
    push_field(&mut line, b" missed ", host.missed);
    push_exact(&mut line, host.exact);
    push_field(&mut line, b" given ", host.given);
    push_field(&mut line, b" unclaimed ", host.unclaimed);
    push_resets(&mut line, host.given_up);
    line.push(b'\n');
    line
}

/// Writes the line of a host. If the sink fails, it has taken a beginning of the line.
fn print_host<W: Sink>(host: &HostSummary, sink: &mut W) -> Result<(), WriteError>
    requires { W.failures sink.old < u64.MAX }
    ensures ok { OnOk result (Appends (W.taken sink.old) (W.taken sink.new) (host_line host.now)) }
    ensures err { OnErr result (AppendsFront (W.taken sink.old) (W.taken sink.new) (host_line host.now)) }
    ensures failures { CountsFailures result (W.failures sink.old) (W.failures sink.new) }
{
    write_all(sink, host.name.as_bytes())?;
    write_all(sink, fields_of(host).as_slice())
}

/// Writes the program's lines of a run to a sink, one line for each host: `NAME accepted A put P reached R stored S
/// missed M exact given G unclaimed U`. `atleast` replaces `exact` if more frames may have been missed. The line of a
/// host that was reset has ` givenup T R off O` at its end ([`GivenUp`]: `sending`, `holding`, `off`). Each line ends
/// with a line feed. The call allocates no memory.
///
/// # Errors
///
/// E67 [`Write`](WriteError::Write) if the sink fails. Then the sink has taken a beginning of the text.
pub fn print_summary<W: Sink>(summary: &Summary, sink: &mut W) -> Result<(), WriteError>
    requires { W.failures sink.old < u64.MAX }
    ensures ok { OnOk result (Appends (W.taken sink.old) (W.taken sink.new) (summary_text summary.now)) }
    ensures err { OnErr result (AppendsFront (W.taken sink.old) (W.taken sink.new) (summary_text summary.now)) }
    ensures failures { CountsFailures result (W.failures sink.old) (W.failures sink.new) }
{
    for host in summary.hosts.iter() {
        print_host(host, sink)?;
    }
    Ok(())
}
