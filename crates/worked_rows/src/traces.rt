//! Traces that are read and written, whole, cut, and from and to devices that fail.

ghost use Rattle.std.specs.Prelude.{◌≡◌, ◌<◌, Some};

use crate::said::hex;
use descriptors::Frame;
use pcap_trace::{DeviceError, ReadError, ReaderSource, Sink, SliceSource, Trace, Unit, VecSink};
use std::alloc::Global;
use std::io::{self, Read};
use std::test::Fail;

/// Appends a number of 4 bytes in an order of bytes.
fn push_number(bytes: &mut Vec<u8>, number: u32, big: bool) -> Result<(), Fail> {
    let order = if big {
        number.to_be_bytes()
    } else {
        number.to_le_bytes()
    };
    bytes.extend_from_slice(&order)?;
    Ok(())
}

/// Returns a trace: a file header, and for each packet its captured bytes and its original length.
pub(crate) fn trace_of(
    alloc: Global,
    magic: u32,
    big: bool,
    packets: &[(&[u8], u32)],
) -> Result<Vec<u8>, Fail> {
    let mut bytes = Vec::new(alloc);
    let version = if big { 0x0002_0004 } else { 0x0004_0002 };
    for number in [magic, version, 0, 0, 0xFFFF, 1] {
        push_number(&mut bytes, number, big)?;
    }
    for (captured, original) in packets {
        for number in [0, 0, u32::try_from(captured.len()).unwrap_or(0), *original] {
            push_number(&mut bytes, number, big)?;
        }
        bytes.extend_from_slice(captured)?;
    }
    Ok(bytes)
}

/// Returns the number of frames of a trace, the number of packets skipped, and whether the trace is cut.
fn read(alloc: Global, bytes: &[u8]) -> Result<(usize, u64, bool), ReadError> {
    let trace = Trace::read(alloc, &mut SliceSource::new(bytes))?;
    Ok((trace.frames.len(), trace.skipped, trace.cut))
}

/// What a read returns of the first `length` bytes of a trace of two frames of 60 bytes.
fn wanted(length: usize) -> Result<(usize, u64, bool), ReadError> {
    match length {
        0..24 => Err(ReadError::Header),
        24 => Ok((0, 0, false)),
        25..100 => Ok((0, 0, true)),
        100 => Ok((1, 0, false)),
        101..176 => Ok((1, 0, true)),
        _ => Ok((2, 0, false)),
    }
}

#[test]
fn traces_are_read_in_each_order_and_cut_anywhere(rt: HostRuntime) -> Result<(), Fail> {
    let alloc = rt.alloc();
    for (magic, big) in [
        (0xA1B2_C3D4, true),
        (0xA1B2_C3D4, false),
        (0xA1B2_3C4D, true),
        (0xA1B2_3C4D, false),
    ] {
        let mut bytes = trace_of(alloc, magic, big, &[(&[0xFF; 14], 14), (&[0xFF; 14], 100)])?;
        bytes.extend_from_slice(&[0; 7])?;
        assert!(rt; read(alloc, &bytes) == Ok((1, 1, true)), "{magic:x} {big}");
    }
    let bytes = trace_of(
        alloc,
        0xA1B2_C3D4,
        false,
        &[(&[0xFF; 60], 60), (&[0xFF; 60], 60)],
    )?;
    assert!(rt; bytes.len() == 176);
    for length in 0..177usize {
        let cut = bytes.get(..length).unwrap_or(&[]);
        assert!(rt; read(alloc, cut) == wanted(length), "{length}");
    }
    Ok(())
}

/// A reader of at most 7 bytes a call, which fails at one of its calls, from 0 on.
#[derive(Drop)]
struct Reader<'a> {
    bytes: &'a [u8],
    calls: u64,
    fails_at: u64,
}

impl io::Read for Reader<'_> {
    fn read(&mut self, buf: &mut [u8]) -> io::Result<usize> {
        let call = self.calls;
        self.calls = self.calls.saturating_add(1);
        if call == self.fails_at {
            return Err(io::Error::from(io::ErrorKind::TimedOut));
        }
        let count = buf.len().min(7);
        self.bytes.read(&mut buf[..count])
    }
}

/// A sink that takes at most `most` bytes a call, and fails at one of its calls, from 0 on.
#[derive(Drop)]
pub(crate) struct FailingSink {
    pub(crate) bytes: Vec<u8>,
    pub(crate) most: usize,
    pub(crate) calls: u64,
    pub(crate) fails_at: u64,
    failures: u64,
}

impl FailingSink {
    pub(crate) fn new(alloc: Global, most: usize, fails_at: u64) -> FailingSink
        ensures { result.failures ≡ 0 }
    {
        FailingSink {
            bytes: Vec::new(alloc),
            most,
            calls: 0,
            fails_at,
            failures: 0,
        }
    }
}

impl Sink for FailingSink {
    ghost taken = { λ s. Some s.bytes.items };

    ghost failures = { λ s. s.failures };

    fn write(&mut self, bytes: &[u8]) -> Result<usize, DeviceError> {
        let call = self.calls;
        self.calls = self.calls.saturating_add(1);
        let count = bytes.len().min(self.most.max(1));
        if call == self.fails_at || self.bytes.extend_from_slice(&bytes[..count]).is_err() {
            self.failures += 1;
            return Err(DeviceError);
        }
        Ok(count)
    }

    fn failures(&self) -> u64 {
        self.failures
    }
}

/// Two frames of 60 bytes, with the times of their events in microseconds.
const PACKETS: [(u64, usize); 2] = [(7, 60), (1_000_001, 60)];

/// Writes a trace of two frames.
fn write<W: Sink>(alloc: Global, sink: &mut W, unit: Unit) -> Result<bool, Fail>
    requires { W.failures sink.old < u64.MAX }
{
    let mut packets = Vec::new(alloc);
    for (time, length) in PACKETS {
        packets.push((
            time,
            Frame::from_slice([0xFF; 60].get(..length).unwrap_or(&[])),
        ))?;
    }
    Ok(Trace::write(sink, unit, &packets).is_ok())
}

#[test]
fn devices_fail_at_any_call(rt: HostRuntime) -> Result<(), Fail> {
    let alloc = rt.alloc();
    let bytes = trace_of(
        alloc,
        0xA1B2_C3D4,
        false,
        &[(&[0xFF; 60], 60), (&[0xFF; 60], 60)],
    )?;
    for fails_at in 0..26u64 {
        let reader = Reader {
            bytes: &bytes,
            calls: 0,
            fails_at,
        };
        let mut source = ReaderSource::new(reader, 176);
        let answer = Trace::read(alloc, &mut source);
        assert!(rt; answer.err() == Some(ReadError::Read), "{fails_at}");
    }
    let mut whole = VecSink::new(alloc);
    assert!(rt; write(alloc, &mut whole, Unit::Micros)? && whole.bytes().len() == 176);
    for most in [1, 1000] {
        for fails_at in 0..200u64 {
            let mut sink = FailingSink::new(alloc, most, fails_at);
            let succeeds = write(alloc, &mut sink, Unit::Micros)?;
            let length = sink.bytes.len();
            assert!(rt; succeeds == (sink.calls <= fails_at) && succeeds == (length == 176));
            assert!(rt;
                Some(sink.bytes.as_slice()) == whole.bytes().get(..length),
                "{most} {fails_at}"
            );
        }
    }
    Ok(())
}

#[test]
fn times_in_microseconds_and_nanoseconds(rt: HostRuntime) -> Result<(), Fail> {
    for (unit, file, first, second) in [
        (
            Unit::Micros,
            "d4c3b2a1020004000000000000000000ffff000001000000",
            "00000000070000003c0000003c000000",
            "01000000010000003c0000003c000000",
        ),
        (
            Unit::Nanos,
            "4d3cb2a1020004000000000000000000ffff000001000000",
            "00000000581b00003c0000003c000000",
            "01000000e80300003c0000003c000000",
        ),
    ] {
        let mut sink = VecSink::new(rt.alloc());
        assert!(rt; write(rt.alloc(), &mut sink, unit)?);
        for (place, wanted) in [(0..24, file), (24..40, first), (100..116, second)] {
            let said = hex(rt.alloc(), sink.bytes().get(place).unwrap_or(&[]))?;
            assert!(rt; said.as_str() == wanted, "{said}");
        }
    }
    Ok(())
}
