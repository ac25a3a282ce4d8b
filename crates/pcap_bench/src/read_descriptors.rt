//! The descriptors in the host's memory from which `pass` reads frames.
ghost use Rattle.std.specs.Prelude.{◌≡◌, ◌<◌, OnOk};
ghost use Rattle.receive_lane.specs.Lane.{IsWaiting};

use crate::passing::{pass, write_received};
use descriptors::{RX_DESC_BYTES, is_sendable};
use pcap_trace::{Frames, RecordWriter, Sink, Trace, Unit, VecSink, WriteError};
use receive_lane::{PassFilter, ReceiveLane};
use std::test::Fail;

/// Passes one frame, with its number, as [`pass`] does. If the frame is read from memory, returns the bytes of its
/// descriptor, as they are in memory immediately before.
fn pass_one<W: Sink>(
    lane: &mut ReceiveLane,
    writer: &mut RecordWriter,
    sink: &mut W,
    number: u64,
    frame: &[u8],
) -> Result<Option<[u8; RX_DESC_BYTES]>, WriteError>
    requires countable { W.failures sink.old < u64.MAX }
    requires waiting { IsWaiting lane.old }
    ensures waiting { OnOk result (IsWaiting lane.new) }
    ensures quiet { OnOk result (W.failures sink.new ≡ W.failures sink.old) }
{
    if !is_sendable(frame) || !lane.receive(frame) {
        return Ok(None);
    }
    let found = lane.descriptor().to_bytes();
    write_received(lane, writer, Unit::Micros, sink, number)?;
    Ok(Some(found))
}

#[test]
fn frames_are_read_from_finished_descriptors(rt: HostRuntime) -> Result<(), Fail> {
    let alloc = rt.alloc();
    let (short, illegal, longest) = ([0xAA; 14], [0xBB; 13], [0xCC; 1_518]);
    let mut lane = ReceiveLane::new(alloc, &PassFilter::default())?;
    let mut writer = RecordWriter::new(alloc, Unit::Micros)?;
    let mut sink = VecSink::new(alloc);
    let first = pass_one(&mut lane, &mut writer, &mut sink, 0, &short)?;
    let second = pass_one(&mut lane, &mut writer, &mut sink, 1, &illegal)?;
    let third = pass_one(&mut lane, &mut writer, &mut sink, 2, &longest)?;
    writer.flush(&mut sink)?;
    // The address of the buffer, the length, the checksum 0, DD and EOP, the errors 0 and the special field 0 (3.2.3).
    let padded = [0, 0x48, 0, 0, 0, 0, 0, 0, 60, 0, 0, 0, 0x03, 0, 0, 0];
    let whole = [0, 0x50, 0, 0, 0, 0, 0, 0, 0xEE, 0x05, 0, 0, 0x03, 0, 0, 0];
    assert!(rt; first == Some(padded) && second.is_none() && third == Some(whole));
    // `pass` writes the same trace of the same frames.
    let mut frames = Frames::new(alloc);
    frames.push(&short)?;
    frames.push(&illegal)?;
    frames.push(&longest)?;
    let trace = Trace {
        frames,
        skipped: 0,
        cut: false,
    };
    let mut written = VecSink::new(alloc);
    pass(
        alloc,
        &trace,
        &PassFilter::default(),
        Unit::Micros,
        &mut written,
    )?;
    assert!(rt; written.bytes() == sink.bytes() && written.bytes().len() == 24 + 76 + 1_534);
    Ok(())
}
