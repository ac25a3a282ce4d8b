//! The calls of `pcap_trace` that read and write traces, each made twice. The prover knows only the clauses of a call,
//! so these determine what is compared.

ghost use Rattle.std.specs.Prelude.{◌≡◌, ◌<◌, ◌≤◌, ◌↔◌, IfOk, IfSome, OnOk, Err, length, true};
ghost use Rattle.std.specs.Io.KnownBytes.{append_known};
ghost use Rattle.pcap_trace.specs.Reading.{is_of_bytes};
ghost use Rattle.pcap_trace.specs.declared.fault.ReadError.TheVariants.{Read};

use descriptors::Frame;
use pcap_trace::{ReadError, RecordWriter, Sink, Source, Trace, Unit, WriteError};
use std::alloc::{AllocError, Global};

/// Calls [`Trace::read`] with two sources of the same bytes. The contract leaves open when memory is refused, and when
/// a read fails.
pub fn read_trace<S: Source>(
    alloc: Global,
    one: &mut S,
    other: &mut S,
) -> (Result<Trace, ReadError>, Result<Trace, ReadError>)
    requires countable { S.failures one.old < u64.MAX }
    requires bytes { S.left one.old ≡ S.left other.old }
    requires failures { S.failures one.old ≡ S.failures other.old }
    ensures trace { IfSome (S.left one.old) (λ _. is_of_bytes result.0 ≡ true → is_of_bytes result.1 ≡ true
        → result.0 ≡ result.1) }
    ensures failure { S.failures one.new ≡ S.failures other.new → (result.0 ≡ Err Read) ↔ (result.1 ≡ Err Read) }
{
    (Trace::read(alloc, one), Trace::read(alloc, other))
}

/// Calls [`Trace::write`] with two sinks of the same bytes. The contract leaves open when a write fails.
pub fn write_trace<W: Sink>(
    one: &mut W,
    other: &mut W,
    unit: Unit,
    packets: &[(u64, Frame)],
) -> (Result<(), WriteError>, Result<(), WriteError>)
    requires countable { W.failures one.old < u64.MAX }
    requires taken { W.taken one.old ≡ W.taken other.old }
    requires failures { W.failures one.old ≡ W.failures other.old }
    ensures outcome { W.failures one.new ≡ W.failures other.new → result.0 ≡ result.1 }
    ensures taken { IfSome (W.taken one.old)
        (λ _. OnOk result.0 (OnOk result.1 (W.taken one.new ≡ W.taken other.new))) }
{
    (
        Trace::write(one, unit, packets),
        Trace::write(other, unit, packets),
    )
}

/// Calls [`RecordWriter::new`] twice. The contract of the call leaves open when memory is refused.
pub fn new_writer(
    alloc: Global,
    unit: Unit,
) -> (
    Result<RecordWriter, AllocError>,
    Result<RecordWriter, AllocError>,
)
    ensures { IfOk result.0 (λ writer. IfOk result.1 (λ another. writer ≡ another)) }
{
    (
        RecordWriter::new(alloc, unit),
        RecordWriter::new(alloc, unit),
    )
}

/// Calls [`RecordWriter::write`] twice, of two equal writers, with two sinks of the same bytes. The contract doesn't
/// state when a write fails, and how many of its bytes a writer keeps.
pub fn write_record<W: Sink>(
    one: &mut RecordWriter,
    other: &mut RecordWriter,
    sink: &mut W,
    another: &mut W,
    unit: Unit,
    time: u64,
    frame: &[u8],
) -> (Result<(), WriteError>, Result<(), WriteError>)
    requires countable { W.failures sink.old < u64.MAX }
    requires writer { one.old ≡ other.old }
    requires taken { W.taken sink.old ≡ W.taken another.old }
    requires failures { W.failures sink.old ≡ W.failures another.old }
    requires short { length frame.now ≤ 1518 }
    ensures outcome { W.failures sink.new ≡ W.failures another.new → result.0 ≡ result.1 }
    ensures bytes { IfSome (W.taken sink.old) (λ _. OnOk result.0 (OnOk result.1
        (append_known (W.taken sink.new) one.new ≡ append_known (W.taken another.new) other.new))) }
{
    (
        one.write(sink, unit, time, frame),
        other.write(another, unit, time, frame),
    )
}
