//! Traces read from a source.
ghost use Rattle.std.specs.Prelude.{◌≡◌, ◌<◌, ◌≤◌, ◌+◌, [], length, IfOk, IfErr, IfSome, IfNone, OnOk, OnSome};
ghost use Rattle.std.specs.Io.KnownBytes.{IsAtEnd, prepend_known};
ghost use Rattle.pcap_trace.specs.Format.{IsBody, ending_of, captured_length, number_order, original_length};
ghost use Rattle.pcap_trace.specs.Devices.{Uses};
ghost use Rattle.pcap_trace.specs.Reading.{IsAnswer, IsOnlyAnswer, IsBodyFault, TellsFailure};

use crate::block::Block;
use crate::device::Source;
use crate::fault::ReadError;
use crate::frames::Frames;
use crate::header::{Endianness, byte_order};
use crate::packet::{FILE_HEADER, PACKET_HEADER};
use crate::trace::Trace;
use byteorder::{BigEndian, ByteOrder, LittleEndian};
use std::alloc::Global;

/// The maximum captured length of a packet in bytes, which is libpcap's limit.
const MOST_CAPTURED: u32 = 262_144;

/// The two lengths in a packet header, in bytes.
#[derive(Drop)]
struct Lengths {
    captured: u32,
    original: u32,
}

/// Returns the lengths in the packet header at the front, or `None` if there are fewer than 16 bytes.
fn packet_lengths<T: ByteOrder>(bytes: &[u8]) -> Option<Lengths>
    ensures short { IfNone result (length bytes.now < 16) }
    ensures whole { OnSome result (16 ≤ length bytes.now) }
    ensures captured { IfSome result (λ l. l.captured ≡ captured_length T.number_of bytes.now) }
    ensures original { IfSome result (λ l. l.original ≡ original_length T.number_of bytes.now) }
{
    if bytes.len() < PACKET_HEADER {
        return None;
    }
    Some(Lengths {
        captured: T::read_u32(&bytes[8..]),
        original: T::read_u32(&bytes[12..]),
    })
}

/// Reads the packets after the file header, up to the source's end: first the bytes of the block, then those of the
/// source. The number of all these bytes must be below 2^64 (`counted`). `small` holds for every block. The function is
/// compiled once for each byte order, which keeps the loop short. Its proof uses the label `'packets`.
///
/// # Errors
///
/// [`Record`](ReadError::Record) if a complete packet header has a captured length above 262,144 bytes.
/// [`Memory`](ReadError::Memory) if memory is refused, and [`Read`](ReadError::Read) if the source fails.
#[inline(never)]
fn read_body<T: ByteOrder, S: Source>(
    alloc: Global,
    block: &mut Block,
    source: &mut S,
) -> Result<Trace, ReadError>
    requires countable { S.failures source.old < u64.MAX }
    requires small { length block.old ≤ 327696 }
    requires counted { length block.old + S.limit source.old ≤ u64.MAX }
    // If contracts know the bytes, the trace consists of these bytes, and an error fits them.
    ensures ok { IfOk result
        (λ t. IfSome (prepend_known block.old (S.left source.old))
        (λ bytes. IsBody T.number_of bytes t.frames t.skipped (ending_of t.cut))) }
    ensures fault { IfErr result
        (λ e. IfSome (prepend_known block.old (S.left source.old)) (λ bytes. IsBodyFault T.number_of bytes e)) }
    ensures failure { TellsFailure result (S.failures source.old) (S.failures source.new) }
    ensures end { OnOk result (IsAtEnd (S.left source.new)) }
    ensures used { Uses (S.left source.old) (S.left source.new) }
{
    let mut frames = Frames::new(alloc);
    let mut skipped = 0;
    'packets: loop {
        block.fill(source, PACKET_HEADER)?;
        let Some(lengths) = packet_lengths::<T>(block.held()) else {
            // The bytes end here, or inside a packet header.
            break;
        };
        if lengths.captured > MOST_CAPTURED {
            return Err(ReadError::Record);
        }
        let whole = PACKET_HEADER + lengths.captured as usize;
        block.fill(source, whole)?;
        if block.held().len() < whole {
            // The bytes end inside the packet.
            break;
        }
        if lengths.captured < lengths.original {
            // Each skipped packet takes at least 16 of fewer than 2^64 bytes, so `skipped` can't overflow.
            skipped += 1;
        } else {
            frames.push(&block.held()[PACKET_HEADER..whole])?;
        }
        block.skip(whole);
    }
    Ok(Trace {
        frames,
        skipped,
        cut: !block.held().is_empty(),
    })
}

/// Does what [`read_body`] does, with numbers in this byte order.
fn read_body_in<S: Source>(
    order: Endianness,
    alloc: Global,
    block: &mut Block,
    source: &mut S,
) -> Result<Trace, ReadError>
    requires countable { S.failures source.old < u64.MAX }
    requires small { length block.old ≤ 327696 }
    requires counted { length block.old + S.limit source.old ≤ u64.MAX }
    ensures ok { IfOk result
        (λ t. IfSome (prepend_known block.old (S.left source.old))
        (λ bytes. IsBody (number_order order) bytes t.frames t.skipped (ending_of t.cut))) }
    ensures fault { IfErr result
        (λ e. IfSome (prepend_known block.old (S.left source.old))
        (λ bytes. IsBodyFault (number_order order) bytes e)) }
    ensures failure { TellsFailure result (S.failures source.old) (S.failures source.new) }
    ensures end { OnOk result (IsAtEnd (S.left source.new)) }
    ensures used { Uses (S.left source.old) (S.left source.new) }
{
    match order {
        Endianness::Big => read_body::<BigEndian, S>(alloc, block, source),
        Endianness::Little => read_body::<LittleEndian, S>(alloc, block, source),
    }
}

/// Reads a whole trace through an empty block. The results are those of [`Trace::read`].
fn read_through<S: Source>(
    alloc: Global,
    block: &mut Block,
    source: &mut S,
) -> Result<Trace, ReadError>
    requires countable { S.failures source.old < u64.MAX }
    requires empty { block.old ≡ [] }
    ensures fits { IfSome (S.left source.old) (λ bytes. IsAnswer bytes result) }
    ensures failure { TellsFailure result (S.failures source.old) (S.failures source.new) }
    ensures end { OnOk result (IsAtEnd (S.left source.new)) }
    ensures used { Uses (S.left source.old) (S.left source.new) }
{
    block.fill(source, FILE_HEADER)?;
    let order = byte_order(block.held())?;
    block.skip(FILE_HEADER);
    read_body_in(order, alloc, block, source)
}

impl Trace {
    /// Reads the trace that a source has left, up to its end. The trace is a file of libpcap version 2.4 (its manual
    /// page "pcap-savefile"), big-endian or little-endian, with times in microseconds or nanoseconds, of link type
    /// Ethernet. The snapshot length, the two words before it and all times are ignored. The call allocates a block of
    /// 327,696 bytes, which it frees at the end, and the frames.
    ///
    /// # Errors
    ///
    /// The faults of the file header, [`Header`](ReadError::Header) to [`LinkType`](ReadError::LinkType), are looked
    /// for in this order, and before any packet. [`Record`](ReadError::Record) is returned if, at the beginning or
    /// after complete packets, a complete packet header has a captured length above 262,144 bytes, whatever follows.
    /// [`Memory`](ReadError::Memory) is returned if memory is refused. A failure of the device is always
    /// [`Read`](ReadError::Read). After an error, some bytes of the source may be used up, and no other byte is lost.
    pub fn read<S: Source>(alloc: Global, source: &mut S) -> Result<Trace, ReadError>
        requires { S.failures source.old < u64.MAX }

        // The result fits the bytes. `Memory` and `Read` fit any bytes; of the other results, only one fits.
        ensures fits { IfSome (S.left source.old) (λ bytes. IsAnswer bytes result) }
        ensures only { IfSome (S.left source.old) (λ bytes. IsOnlyAnswer bytes result) }

        // `Read` is returned if and only if the source failed.
        ensures failure { TellsFailure result (S.failures source.old) (S.failures source.new) }
        ensures end { OnOk result (IsAtEnd (S.left source.new)) }

        // After any result, the bytes that are left are the last of the bytes that were left before.
        ensures used { Uses (S.left source.old) (S.left source.new) }
    {
        let mut block = Block::new(alloc)?;
        read_through(alloc, &mut block, source)
    }
}
