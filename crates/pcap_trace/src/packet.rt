//! The headers of a trace file and of its packets: their sizes and constants, and the headers of a written trace
//! (libpcap, "pcap-savefile", File Header and Packet Header).
ghost use Rattle.std.specs.Prelude.{◌≡◌};
ghost use Rattle.pcap_trace.specs.Format.{file_header, fraction_of, magic_of, packet_header};

use crate::unit::Unit;
use byteorder::{ByteOrder, LittleEndian};

/// The number of bytes of a file header.
pub const FILE_HEADER: usize = 24;

/// The number of bytes of a packet header.
pub const PACKET_HEADER: usize = 16;

/// The first word of a trace with times in seconds and microseconds.
pub const MICROSECONDS_MAGIC: u32 = 0xA1B2_C3D4;

/// The first word of a trace with times in seconds and nanoseconds.
pub const NANOSECONDS_MAGIC: u32 = 0xA1B2_3C4D;

/// The major number of version 2.4.
pub const MAJOR: u16 = 2;

/// The minor number of version 2.4.
pub const MINOR: u16 = 4;

/// The snapshot length in the file header of a written trace.
const SNAPSHOT_LENGTH: u32 = 65_535;

/// The link type of Ethernet (libpcap, "pcap-linktype", LINKTYPE_ETHERNET).
pub const ETHERNET: u32 = 1;

/// The number of microseconds in a second.
const MICROSECONDS: u64 = 1_000_000;

/// The number of nanoseconds in a microsecond.
const NANOSECONDS: u64 = 1_000;

/// Returns the first word of a trace whose times have this unit.
fn magic_of(unit: Unit) -> u32
    ensures { result ≡ magic_of unit }
{
    match unit {
        Unit::Micros => MICROSECONDS_MAGIC,
        Unit::Nanos => NANOSECONDS_MAGIC,
    }
}

/// Returns the part of a time, given in microseconds, that is less than a second, in this unit.
fn fraction_of(unit: Unit, time: u64) -> u32
    ensures { result ≡ fraction_of unit time }
{
    let fraction = time % MICROSECONDS;
    // Both values are below 10^9, so the casts don't change them.
    match unit {
        Unit::Micros => fraction as u32,
        Unit::Nanos => (fraction * NANOSECONDS) as u32,
    }
}

/// Returns the file header of written traces with this unit. Bytes 8 to 15, two words that readers ignore, are 0.
#[tactic(auto, unfolding(crate::specs::Format::file_header))]
pub fn file_header(unit: Unit) -> [u8; FILE_HEADER]
    ensures { result ≡ file_header unit }
{
    let mut header = [0; FILE_HEADER];
    LittleEndian::write_u32(&mut header, magic_of(unit));
    LittleEndian::write_u16(&mut header[4..], MAJOR);
    LittleEndian::write_u16(&mut header[6..], MINOR);
    LittleEndian::write_u32(&mut header[16..], SNAPSHOT_LENGTH);
    LittleEndian::write_u32(&mut header[20..], ETHERNET);
    header
}

/// Returns the packet header of a frame of `length` bytes. `time` is in microseconds. The header contains the low 32
/// bits of the seconds, the fraction of a second in `unit`, and the length twice.
#[tactic(auto, unfolding(crate::specs::Format::packet_header))]
pub fn packet_header(unit: Unit, time: u64, length: u32) -> [u8; PACKET_HEADER]
    ensures { result ≡ packet_header unit time length }
{
    let mut header = [0; PACKET_HEADER];
    LittleEndian::write_u32(&mut header, (time / MICROSECONDS % (1 << 32)) as u32);
    LittleEndian::write_u32(&mut header[4..], fraction_of(unit, time));
    LittleEndian::write_u32(&mut header[8..], length);
    LittleEndian::write_u32(&mut header[12..], length);
    header
}
