//! The file header of a trace, as it is read (libpcap, "pcap-savefile", File Header).
ghost use Rattle.std.specs.Prelude.{◌≡◌, IfOk, IfErr, MatchResult, Some, None};
ghost use Rattle.pcap_trace.specs.Format.{is_magic, number_order};
ghost use Rattle.pcap_trace.specs.Reading.{header_fault, IsHeaderFault};

use crate::fault::ReadError;
use crate::packet::{ETHERNET, FILE_HEADER, MAJOR, MICROSECONDS_MAGIC, MINOR, NANOSECONDS_MAGIC};
use byteorder::{BigEndian, ByteOrder, LittleEndian};

/// The order of the bytes of a number in a trace: the byte order of the machine that wrote the trace.
#[derive(Clone, Copy)]
pub enum Endianness {
    /// The highest byte first.
    Big,
    /// The lowest byte first.
    Little,
}

/// Returns whether a word is one of the two magic numbers.
fn is_magic(word: u32) -> bool
    ensures { result ≡ is_magic word }
{
    word == MICROSECONDS_MAGIC || word == NANOSECONDS_MAGIC
}

/// Checks the file header that the bytes begin with, in the byte order `T`. Fails with the header's first fault, in the
/// order of [`ReadError`].
fn check_header<T: ByteOrder>(bytes: &[u8]) -> Result<(), ReadError>
    ensures { MatchResult result (λ _. header_fault T.number_of bytes.now ≡ None)
        (λ e. header_fault T.number_of bytes.now ≡ Some e) }
{
    if bytes.len() < FILE_HEADER {
        return Err(ReadError::Header);
    }
    if !is_magic(T::read_u32(bytes)) {
        return Err(ReadError::Magic);
    }
    if T::read_u16(&bytes[4..]) != MAJOR || T::read_u16(&bytes[6..]) != MINOR {
        return Err(ReadError::Version);
    }
    if T::read_u32(&bytes[20..]) != ETHERNET {
        return Err(ReadError::LinkType);
    }
    Ok(())
}

/// Returns the byte order in which the file header at the front has no fault.
///
/// # Errors
///
/// The header's first fault of [`Header`](ReadError::Header), [`Magic`](ReadError::Magic),
/// [`Version`](ReadError::Version) and [`LinkType`](ReadError::LinkType). `Magic` is returned only if neither byte
/// order has a magic number.
pub fn byte_order(bytes: &[u8]) -> Result<Endianness, ReadError>
    ensures ok { IfOk result (λ order. header_fault (number_order order) bytes.now ≡ None) }
    ensures fault { IfErr result (λ e. IsHeaderFault bytes.now e) }
{
    match check_header::<LittleEndian>(bytes) {
        Ok(()) => Ok(Endianness::Little),
        // The header is too short for either byte order, or its magic number is little-endian.
        Err(fault) if fault != ReadError::Magic => Err(fault),
        Err(_) => check_header::<BigEndian>(bytes).map(|()| Endianness::Big),
    }
}
