//! Sources and sinks over the readers and writers of the system.
ghost use Rattle.std.specs.Prelude.{◌≡◌};
ghost use Rattle.pcap_trace.specs.Devices.{first_of};

use crate::device::{DeviceError, Sink, Source};
use std::io::{Read, Write};

/// The first bytes of a reader as a source. With the length of an opened file as the limit, bytes that are appended
/// later aren't read.
#[derive(Drop)]
pub struct ReaderSource<R> {
    reader: R,
    limit: u64,
    failures: u64,
}

impl<R: Read> ReaderSource<R> {
    /// Returns a source of the first `limit` bytes of a reader, or of all bytes if the reader has fewer.
    pub fn new(reader: R, limit: u64) -> Self
        ensures left { ⟦<ReaderSource<R> as Source>⟧.left result ≡ first_of limit (R.remaining reader) }
        ensures limit { ⟦<ReaderSource<R> as Source>⟧.limit result ≡ limit }
        ensures failures { ⟦<ReaderSource<R> as Source>⟧.failures result ≡ 0 }
    {
        ReaderSource {
            reader,
            limit,
            failures: 0,
        }
    }
}

impl<R: Read> Source for ReaderSource<R> {
    ghost left = { λ s. first_of s.limit (R.remaining s.reader) };

    ghost limit = { λ s. s.limit };

    ghost failures = { λ s. s.failures };

    fn read(&mut self, into: &mut [u8]) -> Result<usize, DeviceError> {
        // If the limit is 0, the reader gets an empty slice, and reads 0 bytes. `usize` has the size of `u64`.
        let room = into.len().min(self.limit as usize);
        match self.reader.read(&mut into[..room]) {
            Ok(count) => {
                self.limit -= count as u64;
                Ok(count)
            }
            Err(_) => {
                self.failures += 1;
                Err(DeviceError)
            }
        }
    }

    fn limit(&self) -> u64 {
        self.limit
    }

    fn failures(&self) -> u64 {
        self.failures
    }
}

/// A writer as a sink. A write fails if the writer fails, or takes no byte of a slice that isn't empty.
///
/// The sink never flushes the writer: the owner of a buffered writer must flush it.
#[derive(Drop)]
pub struct WriterSink<W> {
    writer: W,
    failures: u64,
}

impl<W: Write> WriterSink<W> {
    /// Returns a sink over a writer. The sink's number of failures is 0.
    pub fn new(writer: W) -> Self
        ensures taken { ⟦<WriterSink<W> as Sink>⟧.taken result ≡ W.contents writer }
        ensures failures { ⟦<WriterSink<W> as Sink>⟧.failures result ≡ 0 }
    {
        WriterSink {
            writer,
            failures: 0,
        }
    }
}

impl<W: Write> Sink for WriterSink<W> {
    ghost taken = { λ s. W.contents s.writer };

    ghost failures = { λ s. s.failures };

    fn write(&mut self, bytes: &[u8]) -> Result<usize, DeviceError> {
        match self.writer.write(bytes) {
            Ok(count) if 0 < count || bytes.is_empty() => Ok(count),
            _ => {
                self.failures += 1;
                Err(DeviceError)
            }
        }
    }

    fn failures(&self) -> u64 {
        self.failures
    }
}
