//! Traces over the system's readers and writers, without memory, and with the greatest counts.
ghost use Rattle.std.specs.Prelude.{◌<◌};

use descriptors::Frame;
use pcap_bench::{Frames, PassCounts, print_pass, show};
use pcap_trace::{
    DeviceError, ReadError, ReaderSource, RecordWriter, Sink, Source, Trace, Unit, VecSink,
    WriteError, WriterSink, written_is_trace,
};
use std::alloc::{AllocError, Global};
use std::io;
use std::process::Abort;
use std::test::Fail;

/// Writes a trace of two frames of 60 bytes, with times in microseconds. The trace has 176 bytes.
fn record<W: Sink>(writer: &mut RecordWriter, sink: &mut W) -> Result<(), WriteError>
    requires { W.failures sink.old < u64.MAX }
{
    writer.write(sink, Unit::Micros, 0, &[0xA5; 60])?;
    writer.write(sink, Unit::Micros, 1_000_001, &[0x5A; 60])?;
    writer.flush(sink)
}

/// Returns a sink with the trace of the two frames of `record`.
fn two_frames(alloc: Global) -> Result<VecSink, Fail> {
    let mut sink = VecSink::new(alloc);
    record(&mut RecordWriter::new(alloc, Unit::Micros)?, &mut sink)?;
    Ok(sink)
}

/// Returns the number of frames that are read from a source, or why no trace is read.
fn count<S: Source>(alloc: Global, source: &mut S) -> Result<usize, ReadError>
    requires { S.failures source.old < u64.MAX }
{
    Ok(Trace::read(alloc, source)?.frames.len())
}

/// A reader that fails.
#[derive(Drop)]
struct Broken;

impl io::Read for Broken {
    fn read(&mut self, _buf: &mut [u8]) -> io::Result<usize> {
        Err(io::Error::from(io::ErrorKind::TimedOut))
    }
}

#[test]
fn readers_of_the_system(rt: HostRuntime) -> Result<(), Fail> {
    let mut source = ReaderSource::new(Broken, 1_000);
    let read = count(rt.alloc(), &mut source);
    assert!(rt; read == Err(ReadError::Read) && source.failures() == 1 && source.limit() == 1_000);
    let whole = two_frames(rt.alloc())?;
    let mut source = ReaderSource::new(whole.bytes(), 100);
    let read = count(rt.alloc(), &mut source);
    assert!(rt; read == Ok(1) && source.failures() == 0 && source.limit() == 0);
    Ok(())
}

#[test]
fn vectors_of_the_system(rt: HostRuntime) -> Result<(), Fail> {
    let mut writer = RecordWriter::new(rt.alloc(), Unit::Micros)?;
    let whole = two_frames(rt.alloc())?;
    let mut text = Vec::new(rt.alloc());
    let written = record(&mut writer, &mut WriterSink::new(&mut text));
    assert!(rt; written.is_ok() && text.as_slice() == whole.bytes());
    Ok(())
}

/// A slice of 100 bytes takes at most 100 bytes.
#[test]
fn slices_of_the_system(rt: HostRuntime) -> Result<(), Fail> {
    let mut writer = RecordWriter::new(rt.alloc(), Unit::Micros)?;
    let whole = two_frames(rt.alloc())?;
    let mut room = [0; 100];
    let mut sink = WriterSink::new(&mut room[..]);
    let written = record(&mut writer, &mut sink);
    assert!(rt; written == Err(WriteError::Write) && sink.failures() == 1);
    assert!(rt; whole.bytes().starts_with(&room));
    Ok(())
}

/// The seconds have 32 bits: their higher bits are lost. 2^64 - 1 microseconds are 18,446,744,073,709 seconds (4,294
/// times 2^32, plus 0xF7A0_B5ED) and 551,615 (0x86ABF) microseconds.
#[test]
fn the_greatest_time(rt: HostRuntime) -> Result<(), Fail> {
    let mut packets = Vec::new(rt.alloc());
    packets.push((u64::MAX, Frame::from_slice(&[])))?;
    let mut sink = VecSink::new(rt.alloc());
    Trace::write(&mut sink, Unit::Micros, &packets)?;
    let wanted = [
        0xED, 0xB5, 0xA0, 0xF7, 0xBF, 0x6A, 0x08, 0, 0, 0, 0, 0, 0, 0, 0, 0,
    ];
    assert!(rt; sink.bytes().ends_with(&wanted) && sink.bytes().len() == 40);
    Ok(())
}

#[test]
fn a_device_that_failed_has_a_text_and_the_law_can_be_called(rt: HostRuntime) -> Result<(), Fail> {
    let text = format!(in rt.alloc(); "{DeviceError}")?;
    assert!(rt; text.as_str() == "the device failed");
    written_is_trace();
    Ok(())
}

/// A second and a microsecond, in nanoseconds.
#[test]
fn nanoseconds(rt: HostRuntime) -> Result<(), Fail> {
    let mut packets = Vec::new(rt.alloc());
    packets.push((1_000_001, Frame::from_slice(&[])))?;
    let mut sink = VecSink::new(rt.alloc());
    Trace::write(&mut sink, Unit::Nanos, &packets)?;
    let header = [
        0x4D, 0x3C, 0xB2, 0xA1, 2, 0, 4, 0, 0, 0, 0, 0, 0, 0, 0, 0, 0xFF, 0xFF, 0, 0, 1, 0, 0, 0,
    ];
    let packet = [1, 0, 0, 0, 0xE8, 3, 0, 0, 0, 0, 0, 0, 0, 0, 0, 0];
    assert!(rt; sink.bytes().starts_with(&header) && sink.bytes().ends_with(&packet));
    Ok(())
}

/// Returns a list with one frame of 60 bytes, at time 7 in microseconds.
fn one_packet(alloc: Global) -> Result<Vec<(u64, Frame)>, AllocError> {
    let mut packets = Vec::new(alloc);
    packets.push((7, Frame::from_slice(&[0xA5; 60])))?;
    Ok(packets)
}

/// Returns a trace with one frame of 60 bytes.
fn one_frame(alloc: Global) -> Result<Trace, AllocError> {
    let mut frames = Frames::new(alloc);
    frames.push(&[0xA5; 60])?;
    Ok(Trace {
        frames,
        skipped: 0,
        cut: false,
    })
}

/// Writes the frame as a trace, to a slice.
fn writes(rt: &impl Abort, packets: &[(u64, Frame)]) {
    let mut room = [0; 100];
    let mut sink = WriterSink::new(&mut room[..]);
    let is_written = Trace::write(&mut sink, Unit::Micros, packets).is_ok();
    assert!(rt; is_written && room.ends_with(&[0xA5; 60]));
}

/// Prints the trace, to a slice.
fn shows(rt: &impl Abort, trace: &Trace) {
    let mut room = [0; 200];
    let mut sink = WriterSink::new(&mut room[..]);
    let is_shown = show(trace, &mut sink).is_ok();
    assert!(rt; is_shown && room.starts_with(b"0 60 a5:a5:a5:a5:a5:a5"));
}

/// Calls that write allocate nothing: they succeed even if every allocation fails after their arguments were made.
#[test]
fn calls_that_write_take_no_memory(rt: HostRuntime) {
    let (Ok(packets), Ok(trace)) = (one_packet(rt.alloc()), one_frame(rt.alloc())) else {
        return;
    };
    writes(&rt, &packets);
    shows(&rt, &trace);
}

/// Returns a trace with no frame: the greatest number of truncated packets, and then a packet that is cut off.
fn cut_trace(alloc: Global) -> Trace {
    Trace {
        frames: Frames::new(alloc),
        skipped: 18_446_744_073_709_551_615,
        cut: true,
    }
}

#[test]
fn a_skipped_and_a_cut_packet_are_told(rt: HostRuntime) -> Result<(), Fail> {
    let counts = PassCounts {
        read: 1,
        illegal: 20,
        filtered: 300,
        written: 4_000,
    };
    let mut line = VecSink::new(rt.alloc());
    print_pass(&cut_trace(rt.alloc()), &counts, &mut line)?;
    let want =
        b"read 1 skipped 18446744073709551615 illegal 20 filtered 300 written 4000 cut yes\n";
    assert!(rt; line.bytes() == want.as_slice());
    Ok(())
}

#[test]
fn skipped_and_cut_packets_are_shown(rt: HostRuntime) -> Result<(), Fail> {
    let mut text = VecSink::new(rt.alloc());
    show(&cut_trace(rt.alloc()), &mut text)?;
    let want = b"frames 0 skipped 18446744073709551615 cut yes\n";
    assert!(rt; text.bytes() == want.as_slice());
    Ok(())
}
