//! The frames of a trace pass through an adapter.
ghost use Rattle.std.specs.Prelude.{◌≡◌, ◌<◌, ◌≤◌, length, IfOk, IfErr, OnOk, OnErr};
ghost use Rattle.std.specs.Io.KnownBytes.{Appends, append_known};
ghost use Rattle.pcap_trace.specs.Devices.{AppendsFront, CountsFailures, Grows};
ghost use Rattle.pcap_trace.specs.Format.{file_header, packet_of};
ghost use Rattle.rx_filter.specs.Passing.{Passes};
ghost use Rattle.rx_filter.specs.Registers.{filter_of};
ghost use Rattle.receive_lane.specs.Options.{HasVlanNumber, KeptBy};
ghost use Rattle.pcap_bench.specs.Passing.{WritesKept, StopsAmong, StopsBy};
ghost use Rattle.receive_lane.specs.Lane.{slot_bytes, HasFrame, IsWaiting};

use crate::counts::PassCounts;
use descriptors::is_sendable;
use pcap_trace::{RecordWriter, Sink, Trace, Unit, WriteError};
use receive_lane::{PassFilter, ReceiveLane};
use scenario_bench::BenchError;
use std::alloc::Global;

/// Writes the frame at the driver's slot through the writer, with this number as time. Then moves the driver to the
/// next slot ([`offer`](ReceiveLane::offer)). The slot's descriptor must be finished, with a frame of at most 1,518
/// bytes. If the sink fails, a beginning of the bytes that waited in the writer was written.
pub(crate) fn write_received<W: Sink>(
    lane: &mut ReceiveLane,
    writer: &mut RecordWriter,
    unit: Unit,
    sink: &mut W,
    number: u64,
) -> Result<(), WriteError>
    requires countable { W.failures sink.old < u64.MAX }
    requires short { length (slot_bytes lane.old) ≤ 1518 }
    requires finished { HasFrame lane.old (slot_bytes lane.old) }
    ensures ok { OnOk result
        (Appends (append_known (W.taken sink.old) writer.old) (append_known (W.taken sink.new) writer.new)
        (packet_of unit (record { time = number; frame = slot_bytes lane.old }))) }
    ensures grows { OnOk result (Grows (W.taken sink.old) (W.taken sink.new)) }
    ensures err { OnErr result (AppendsFront (W.taken sink.old) (W.taken sink.new) writer.old) }
    ensures failures { CountsFailures result (W.failures sink.old) (W.failures sink.new) }
    ensures waiting { OnOk result (IsWaiting lane.new) }
    ensures filter { OnOk result (lane.new.adapter.filter ≡ lane.old.adapter.filter) }
{
    writer.write(sink, unit, number, lane.received())?;
    lane.offer();
    Ok(())
}

/// Sends the frames of 14 to 1,518 bytes, padded, to a lane. Writes the frames that its receive filter accepts, flushes
/// the writer, and returns the counts. Before the call, only the file header for `unit` must wait in the writer, and
/// the lane must wait for a frame. If the sink fails, only a beginning of the trace was written.
fn pass_frames<W: Sink>(
    lane: &mut ReceiveLane,
    writer: &mut RecordWriter,
    trace: &Trace,
    unit: Unit,
    sink: &mut W,
) -> Result<PassCounts, WriteError>
    requires countable { W.failures sink.old < u64.MAX }
    requires waiting { IsWaiting lane.old }
    requires begun { writer.old ≡ file_header unit }
    ensures ok { IfOk result (λ counts. WritesKept unit (Passes (filter_of lane.old.adapter.filter)) trace.now.frames
        counts (W.taken sink.old) (W.taken sink.new)) }
    ensures err { OnErr result (StopsAmong unit (Passes (filter_of lane.old.adapter.filter)) trace.now.frames
        (W.taken sink.old) (W.taken sink.new)) }
    ensures failures { CountsFailures result (W.failures sink.old) (W.failures sink.new) }
{
    let mut counts = PassCounts {
        read: trace.frames.len() as u64,
        ..PassCounts::default()
    };
    let mut next = 0;
    for frame in trace.frames.iter() {
        // All frames are numbered, also those that aren't written.
        let number = next;
        next += 1;
        if !is_sendable(frame) {
            counts.illegal += 1;
            continue;
        }
        if !lane.receive(frame) {
            counts.filtered += 1;
            continue;
        }
        write_received(lane, writer, unit, sink, number)?;
        counts.written += 1;
    }
    writer.flush(sink)?;
    Ok(counts)
}

/// Sends each frame of 14 to 1,518 bytes of a trace to an adapter, padded with zeros to at least 60 bytes. Frames that
/// its receive filter accepts reach the host's memory through a receive ring of 8 descriptors, and are written from
/// there. A written frame's time in microseconds is its number among the frames of the trace, from 0; truncated packets
/// don't count. The written trace has its times in `unit`.
///
/// Frames below 14 or above 1,518 bytes are counted as illegal. The filter checks each of the other frames after
/// padding. If an address is given, it is the only receive address. If a group is given, its hash (RCTL.MO 00) selects
/// the only bit of MTA that is 1. If a VLAN is given, it is the only VLAN, with the VLAN type 0x8100. If neither an
/// address nor a group is given, the filter accepts every address (UPE, MPE). The filter always accepts the broadcast
/// address (BAM).
///
/// # Errors
///
/// [`Memory`](BenchError::Memory) if memory is refused, before anything is written. [`Write`](BenchError::Write) if the
/// sink fails during the call; then only a beginning of the trace was written. Never another error.
pub fn pass<W: Sink>(
    alloc: Global,
    trace: &Trace,
    filter: &PassFilter,
    unit: Unit,
    sink: &mut W,
) -> Result<PassCounts, BenchError>
    requires countable { W.failures sink.old < u64.MAX }
    requires vlan { HasVlanNumber filter.now }
    ensures ok { IfOk result
        (λ counts. WritesKept unit (KeptBy filter.now) trace.now.frames counts (W.taken sink.old) (W.taken sink.new)) }
    ensures quiet { OnOk result (W.failures sink.new ≡ W.failures sink.old) }
    ensures err { OnErr result
        (StopsAmong unit (KeptBy filter.now) trace.now.frames (W.taken sink.old) (W.taken sink.new)) }
    ensures fault { IfErr result
        (λ e. StopsBy e (W.taken sink.old) (W.taken sink.new) (W.failures sink.old) (W.failures sink.new)) }
{
    let mut lane = ReceiveLane::new(alloc, filter)?;
    let mut writer = RecordWriter::new(alloc, unit)?;
    let counts = pass_frames(&mut lane, &mut writer, trace, unit, sink)?;
    Ok(counts)
}
