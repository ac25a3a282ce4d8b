//! The code of the READMEs of `command_line`, `pcap_bench` and `pcap_trace`, word for word.

use command_line::{Job, LineError, line};
use pcap_bench::{Frames, PassFilter, pass, print_pass};
use pcap_trace::{RecordWriter, SliceSource, Trace, Unit, VecSink};
use std::test::Fail;

#[test]
fn the_code_of_the_readme_of_command_line(rt: HostRuntime) -> Result<(), Fail> {
    let words = ["nicbench", "pass", "--vlan", "5", "in.pcap", "out.pcap"];
    let job = line(rt.alloc(), words.as_slice());
    assert!(rt;
        matches!(&job, Ok(Job::Pass(job)) if job.filter.vlan == Some(5) && job.output == "out.pcap")
    );
    let words = ["nicbench", "pass", "--address", "x", "in.pcap", "out.pcap"];
    let refused = line(rt.alloc(), words.as_slice());
    assert!(rt; matches!(&refused, Err(LineError::Value(value)) if value.text == "x"));
    Ok(())
}

#[test]
fn the_code_of_the_readme_of_pcap_bench(rt: HostRuntime) -> Result<(), Fail> {
    // One of the two frames has the destination that the filter accepts.
    let mut frames = Frames::new(rt.alloc());
    frames.push(&[0x02, 0, 0, 0, 0, 0x01, 0x02, 0, 0, 0, 0, 0x09, 0x08, 0])?;
    frames.push(&[0x02, 0, 0, 0, 0, 0x07, 0x02, 0, 0, 0, 0, 0x09, 0x08, 0])?;
    let trace = Trace {
        frames,
        skipped: 0,
        cut: false,
    };
    let filter = PassFilter {
        address: Some([0x02, 0, 0, 0, 0, 0x01]),
        ..PassFilter::default()
    };
    let mut sink = VecSink::new(rt.alloc());
    let counts = pass(rt.alloc(), &trace, &filter, Unit::Micros, &mut sink)?;
    let mut printed = VecSink::new(rt.alloc());
    print_pass(&trace, &counts, &mut printed)?;
    let line = b"read 2 skipped 0 illegal 0 filtered 1 written 1 cut no\n";
    assert!(rt; printed.bytes() == line.as_slice());
    // A file header, a packet header and the frame, padded to 60 bytes.
    assert!(rt; sink.bytes().len() == 24 + 16 + 60);
    Ok(())
}

#[test]
fn the_code_of_the_readme_of_pcap_trace(rt: HostRuntime) -> Result<(), Fail> {
    // Two frames are written, with their times in microseconds.
    let mut sink = VecSink::new(rt.alloc());
    let mut writer = RecordWriter::new(rt.alloc(), Unit::Micros)?;
    writer.write(&mut sink, Unit::Micros, 0, &[0xFF; 60])?;
    writer.write(&mut sink, Unit::Micros, 1, &[0xAA; 64])?;
    writer.flush(&mut sink)?;
    assert!(rt; sink.bytes().len() == 24 + 76 + 80);
    // The frames are read again, from a source of bytes in memory.
    let mut source = SliceSource::new(sink.bytes());
    let trace = Trace::read(rt.alloc(), &mut source)?;
    assert!(rt; trace.frames.len() == 2 && trace.skipped == 0 && !trace.cut);
    let mut frames = trace.frames.iter();
    assert!(rt; frames.next() == Some([0xFF; 60].as_slice()));
    assert!(rt; frames.next() == Some([0xAA; 64].as_slice()) && frames.next().is_none());
    Ok(())
}
