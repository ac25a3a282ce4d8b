//! A source and a sink in memory, whose bytes contracts know.
ghost use Rattle.std.specs.Prelude.{◌≡◌, [], Some, length};

use crate::device::{DeviceError, Sink, Source};
use std::alloc::Global;

/// Bytes in memory as a source. It never fails.
#[derive(Drop)]
pub struct SliceSource<'a> {
    bytes: &'a [u8],
}

impl<'a> SliceSource<'a> {
    /// Returns a source of these bytes.
    pub fn new(bytes: &'a [u8]) -> Self
        ensures left { ⟦<SliceSource<'a> as Source>⟧.left result ≡ Some bytes.now }
        ensures limit { ⟦<SliceSource<'a> as Source>⟧.limit result ≡ length bytes.now }
        ensures failures { ⟦<SliceSource<'a> as Source>⟧.failures result ≡ 0 }
    {
        SliceSource { bytes }
    }
}

impl<'a> Source for SliceSource<'a> {
    ghost left = { λ s. Some s.bytes.now };

    ghost limit = { λ s. length s.bytes.now };

    ghost failures = { λ _. 0 };

    fn read(&mut self, into: &mut [u8]) -> Result<usize, DeviceError> {
        let count = self.bytes.len().min(into.len());
        let (front, rest) = self.bytes.split_at(count);
        into[..count].copy_from_slice(front);
        self.bytes = rest;
        Ok(count)
    }

    fn limit(&self) -> u64 {
        self.bytes.len() as u64
    }

    fn failures(&self) -> u64 {
        0
    }
}

/// A vector as a sink. A write fails only if memory is refused; then no byte is taken.
#[derive(Drop)]
pub struct VecSink {
    bytes: Vec<u8>,
    failures: u64,
}

impl VecSink {
    /// Returns a sink to which nothing was written.
    pub fn new(alloc: Global) -> Self
        ensures taken { ⟦<VecSink as Sink>⟧.taken result ≡ Some [] }
        ensures failures { ⟦<VecSink as Sink>⟧.failures result ≡ 0 }
    {
        VecSink {
            bytes: Vec::new(alloc),
            failures: 0,
        }
    }

    /// Returns the bytes that were written to the sink.
    pub fn bytes(&self) -> &[u8]
        ensures { ⟦<VecSink as Sink>⟧.taken self.now ≡ Some result.now }
    {
        &self.bytes
    }
}

impl Sink for VecSink {
    ghost taken = { λ s. Some s.bytes.items };

    ghost failures = { λ s. s.failures };

    fn write(&mut self, bytes: &[u8]) -> Result<usize, DeviceError> {
        match self.bytes.extend_from_slice(bytes) {
            Ok(()) => Ok(bytes.len()),
            Err(_) => {
                self.failures += 1;
                Err(DeviceError)
            }
        }
    }

    fn failures(&self) -> u64 {
        self.failures
    }
}
