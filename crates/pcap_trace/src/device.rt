//! Sources and sinks of bytes, such as a file or memory.
ghost use Rattle.std.specs.Prelude.{◌≡◌, ◌<◌, ◌≤◌, ◌+◌, List, ℕ, Option, length, MatchResult, IfOk};
ghost use Rattle.std.specs.Io.KnownBytes.{ReadConsumes, WriteAppends};
ghost use Rattle.pcap_trace.specs.Devices.{CountsFailures};

use thiserror::Error;

/// A device failed to read or to write. The device counts the failure; the reason isn't kept.
#[derive(Clone, Copy, Debug, PartialEq, Eq, Error)]
#[error("the device failed")]
pub struct DeviceError;

/// A source of bytes, such as a file or a slice.
///
/// A call that may read from a source requires that the source's count of failures is below 2^64 - 1.
pub trait Source {
    /// The bytes that are left to read, if the source knows them.
    ghost left: { Self → Option (List ℕ) };

    /// The maximum number of bytes that the source can still return. Before each read, this number is below 2^64
    /// (`counted`).
    ghost limit: { Self → ℕ };

    /// The number of times the source has failed.
    ghost failures: { Self → ℕ };

    /// Reads the next bytes of the source into the front of a slice, and returns their number. If the slice isn't
    /// empty, 0 means that the source is at its end.
    ///
    /// # Errors
    ///
    /// [`DeviceError`] if the device fails. Then no byte is used up, and the number of failures grows by 1.
    fn read(&mut self, into: &mut [u8]) -> Result<usize, DeviceError>
        requires { failures self.old < u64.MAX }
        ensures count { IfOk result (λ n. n ≤ length into.old) }
        ensures limit { MatchResult result (λ n. limit self.new + n ≤ limit self.old)
            (λ _. limit self.new ≤ limit self.old) }
        // The limit fits into the `u64` that the call `limit` returns.
        ensures counted { limit self.old ≤ u64.MAX }
        ensures bytes { ReadConsumes (left self.old) (left self.new) result into.new }
        ensures failures { CountsFailures result (failures self.old) (failures self.new) };

    /// Returns the maximum number of bytes that the source can still return. A read lowers this number by at least the
    /// number of bytes read.
    fn limit(&self) -> u64
        ensures { result ≡ limit self.now };

    /// Returns the number of times the source has failed.
    fn failures(&self) -> u64
        ensures { result ≡ failures self.now };
}

/// A sink of bytes, such as a file or a vector.
///
/// A call that may write to a sink requires that the sink's count of failures is below 2^64 - 1.
pub trait Sink {
    /// The bytes that were written, if the sink knows them.
    ghost taken: { Self → Option (List ℕ) };

    /// The number of times the sink has failed.
    ghost failures: { Self → ℕ };

    /// Writes bytes from the front of a slice, and returns their number: at least 1 if the slice isn't empty.
    ///
    /// # Errors
    ///
    /// [`DeviceError`] if the device fails. Then the sink takes no byte, and the number of failures grows by 1.
    fn write(&mut self, bytes: &[u8]) -> Result<usize, DeviceError>
        requires { failures self.old < u64.MAX }
        ensures count { IfOk result (λ n. n ≤ length bytes.now) }
        ensures some { IfOk result (λ n. 0 < length bytes.now → 0 < n) }
        ensures bytes { WriteAppends (taken self.old) (taken self.new) result bytes.now }
        ensures failures { CountsFailures result (failures self.old) (failures self.new) };

    /// Returns the number of times the sink has failed.
    fn failures(&self) -> u64
        ensures { result ≡ failures self.now };
}
