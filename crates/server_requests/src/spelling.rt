// The numbers and bytes that words spell. Functions with an allocator fail with `Stop::Memory` if memory is refused.
// The other functions never fail with it (`no_memory`).

ghost use Rattle.std.specs.Prelude.{◌≢◌, IfErr};
ghost use Rattle.server_requests.specs.Spellings.{Gives, base64_in, bytes_spelled, number_at_most, payload_in};
ghost use Rattle.server_requests.specs.Spellings.{prefixed_bytes_in, size_in};
ghost use Rattle.server_requests.specs.declared.refusal.Stop.TheVariants.{Memory};

use crate::refusal::{Refusal, Stop};
use crate::request::Payload;
use crate::verb::Encoding;
use base64::DecodeAllocError;
use base64::engine::general_purpose::STANDARD;
use hex::FromHexError;
use std::alloc::Global;
use text::number_of;

/// The maximum SIZE of a request, in bytes (our choice).
pub(crate) const MOST_BYTES: u64 = 65_536;

/// Returns the number that a word spells. Refuses a word that isn't a number, or that spells a number above `most`.
/// `most` itself is accepted, also by `number_at_most most`.
pub(crate) fn number_at(text: &str, most: u64) -> Result<u64, Stop>
    ensures value { Gives result (number_at_most most text.now) }
    ensures no_memory { IfErr result (λ stop. stop ≢ Memory) }
{
    match number_of(text) {
        Some(number) if number <= most => Ok(number),
        _ => Err(Stop::Refused(Refusal::Value)),
    }
}

/// Returns the SIZE that a word spells, in bytes. Refuses a word that isn't a number (`Value`), or that spells a number
/// above [`MOST_BYTES`] (`Size`).
pub(crate) fn size_at(text: &str) -> Result<u64, Stop>
    ensures value { Gives result (size_in text.now) }
    ensures no_memory { IfErr result (λ stop. stop ≢ Memory) }
{
    // With `MOST_BYTES` here, the refusal of a greater number would be `Value`.
    let size = number_at(text, u64::MAX)?;
    if size > MOST_BYTES {
        return Err(Stop::Refused(Refusal::Size));
    }
    Ok(size)
}

/// Returns the bytes that pairs of hexadecimal digits spell. Refuses a text that isn't such pairs.
pub(crate) fn bytes_at(alloc: Global, text: &str) -> Result<Payload, Stop>
    ensures { Gives result (bytes_spelled text.now) }
{
    match hex::decode(alloc, text) {
        Ok(bytes) => Ok(Payload { bytes }),
        Err(FromHexError::OutOfMemory) => Err(Stop::Memory),
        Err(_) => Err(Stop::Refused(Refusal::Value)),
    }
}

/// Returns the bytes that a text in base64 encodes (RFC 4648, section 4). Refuses a text that isn't base64.
fn base64_at(alloc: Global, text: &str) -> Result<Payload, Stop>
    ensures { Gives result (base64_in text.now) }
{
    match STANDARD.decode(alloc, text.as_bytes()) {
        Ok(bytes) => Ok(Payload { bytes }),
        Err(DecodeAllocError::OutOfMemory) => Err(Stop::Memory),
        Err(_) => Err(Stop::Refused(Refusal::Value)),
    }
}

/// Returns the bytes that pairs of hexadecimal digits after `0x` spell. The word `0x` spells no bytes. Refuses a word
/// that isn't `0x` and such pairs.
fn prefixed_bytes_at(alloc: Global, text: &str) -> Result<Payload, Stop>
    ensures { Gives result (prefixed_bytes_in text.now) }
{
    match text.split_once('x') {
        Some((front, digits)) => if front == "0" {
            bytes_at(alloc, digits)
        } else {
            Err(Stop::Refused(Refusal::Value))
        },
        None => Err(Stop::Refused(Refusal::Value)),
    }
}

/// Returns the bytes that a word spells in this encoding. Refuses a word that isn't in this encoding.
pub(crate) fn payload_at(alloc: Global, encoding: Encoding, text: &str) -> Result<Payload, Stop>
    ensures { Gives result (payload_in encoding text.now) }
{
    match encoding {
        Encoding::Hexadecimal => prefixed_bytes_at(alloc, text),
        Encoding::Base64 => base64_at(alloc, text),
    }
}
