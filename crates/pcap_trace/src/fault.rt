//! Why a trace was not read or written.
ghost use Rattle.std.specs.Prelude.{◌≡◌};
ghost use Rattle.pcap_trace.specs.Statuses.{read_status, write_status};
ghost use Rattle.pcap_trace.specs.declared.device.DeviceError.{DeviceError};
ghost use Rattle.pcap_trace.specs.declared.fault.ReadError.TheVariants.{Memory, Read};
ghost use Rattle.pcap_trace.specs.declared.fault.WriteError.TheVariants.{Write};

use crate::device::DeviceError;
use std::alloc::AllocError;
use thiserror::Error;

/// Why a trace was not read. A call that fails returns no part of the trace.
///
/// The first four errors are faults of the file header (libpcap, "pcap-savefile", File Header). If a header has several
/// faults, the first in this order is returned.
#[derive(Clone, Copy, Debug, PartialEq, Eq, Error)]
pub enum ReadError {
    /// The source has fewer than the 24 bytes of a file header.
    #[error("E60 Header")]
    Header,
    /// The first four bytes are neither 0xA1B2C3D4 (times in microseconds) nor 0xA1B23C4D (nanoseconds), in either byte
    /// order.
    #[error("E61 Magic")]
    Magic,
    /// The version isn't 2.4.
    #[error("E62 Version")]
    Version,
    /// The link type isn't 1, Ethernet.
    #[error("E63 LinkType")]
    LinkType,
    /// A complete packet header, at the beginning or after complete packets, has a captured length above 262,144 bytes.
    #[error("E64 Record")]
    Record,
    /// Memory was refused.
    #[error("E65 Memory")]
    Memory,
    /// The source failed during the call.
    #[error("E66 Read")]
    Read,
}

impl ReadError {
    /// Returns the program's exit status for this error.
    pub fn status(&self) -> u8
        ensures { result ≡ read_status self.now }
    {
        match self {
            ReadError::Header
            | ReadError::Magic
            | ReadError::Version
            | ReadError::LinkType
            | ReadError::Record => 1,
            ReadError::Memory => 4,
            ReadError::Read => 3,
        }
    }
}

impl From<AllocError> for ReadError {
    ghost from_gives = { λ _ e. e ≡ Memory };

    fn from(_error: AllocError) -> ReadError {
        ReadError::Memory
    }
}

impl From<DeviceError> for ReadError {
    ghost from_gives = { λ _ e. e ≡ Read };

    fn from(_error: DeviceError) -> ReadError {
        ReadError::Read
    }
}

/// Why a trace was not written.
#[derive(Clone, Copy, Debug, PartialEq, Eq, Error)]
pub enum WriteError {
    /// OUT or standard output could not be written. Free space there
    ///
    /// The sink failed during the call. The sink has taken a beginning of the bytes, perhaps no byte.
    #[error("E67 Write")]
    Write,
}

impl WriteError {
    /// Returns the program's exit status for this error.
    pub fn status(&self) -> u8
        ensures { result ≡ write_status self.now }
    {
        match self {
            WriteError::Write => 3,
        }
    }
}

impl From<DeviceError> for WriteError {
    ghost from_gives = { λ _ e. e ≡ Write };

    fn from(_error: DeviceError) -> WriteError {
        WriteError::Write
    }
}
