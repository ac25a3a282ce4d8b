// What words spell: numbers, addresses, frames, EtherTypes, and the frames that sockets take.

ghost use Rattle.std.specs.Prelude.{◌≡◌, IfErr, IfOk};
ghost use Rattle.std.specs.Option.{SomeIff};
ghost use Rattle.scenario.specs.Spellings.{IsAddressText, IsFrame, address_in, ether_type_in, frame_in};
ghost use Rattle.scenario.specs.Spellings.{socket_in};
ghost use Rattle.scenario.specs.Stops.{IfFault};
ghost use Rattle.scenario.specs.declared.refusal.Fault.TheVariants as faults;
ghost use Rattle.text.specs.Numbers.{number_in};

use crate::refusal::{Fault, Stop};
use hex::FromHexError;
use packet_socket::SocketKind;
use std::alloc::Global;
use text::{DECIMAL, HEXADECIMAL, number_in_radix};

/// The maximum number of hexadecimal digits of a frame (our choice).
const MOST_FRAME_DIGITS: usize = 8000;

/// The number of hexadecimal digits of a socket's EtherType (our choice).
const ETHER_TYPE_DIGITS: usize = 4;

/// Returns the number below 2^64 that a text of decimal digits spells; `None` for any other text.
pub(crate) fn number_of(text: &str) -> Option<u64>
    ensures { result ≡ number_in 10 64 text.now }
{
    number_in_radix(text, DECIMAL)
}

/// Returns the number below 2^16 that a text of decimal digits spells; `None` for any other text.
pub(crate) fn number16_of(text: &str) -> Option<u16>
    ensures { result ≡ number_in 10 16 text.now }
{
    u16::try_from(number_of(text)?).ok()
}

/// Returns the number below 2^8 that a text of decimal digits spells; `None` for any other text.
pub(crate) fn number8_of(text: &str) -> Option<u8>
    ensures { result ≡ number_in 10 8 text.now }
{
    u8::try_from(number_of(text)?).ok()
}

/// Returns the number that four hexadecimal digits spell; `None` for any other text.
fn ether_type_of(text: &str) -> Option<u16>
    ensures { result ≡ ether_type_in text.now }
{
    if text.len() != ETHER_TYPE_DIGITS {
        return None;
    }
    u16::try_from(number_in_radix(text, HEXADECIMAL)?).ok()
}

/// Returns which frames a socket takes: `all` spells [`All`](SocketKind::All), and four hexadecimal digits spell an
/// EtherType. Returns `None` for any other text.
pub(crate) fn socket_of(text: &str) -> Option<SocketKind>
    ensures { result ≡ socket_in text.now }
{
    if text == "all" {
        return Some(SocketKind::All);
    }
    ether_type_of(text).map(SocketKind::Ether)
}

/// Returns the address that six pairs of hexadecimal digits spell, joined by colons; `None` for any other text. Does
/// what [`text::address_of`] does, with a contract that computes the address from the text.
pub(crate) fn address_of(text: &str) -> Option<[u8; 6]>
    ensures { SomeIff result (IsAddressText text.now) (address_in text.now) }
{
    text::address_of(text)
}

/// Returns the bytes that a text spells, with two hexadecimal digits for each byte.
///
/// # Errors
///
/// [`Value`](Fault::Value) if a character isn't a hexadecimal digit, or if the number of digits is odd or above 8,000.
/// [`Memory`](Stop::Memory) if memory is refused.
pub(crate) fn frame_of(alloc: Global, text: &str) -> Result<Vec<u8>, Stop>
    ensures ok { IfOk result (λ frame. IsFrame text.now × (frame.items ≡ frame_in text.now)) }
    ensures err { IfErr result (λ stop. IfFault stop (λ fault. (fault ≡ faults.Value) × (¬ IsFrame text.now))) }
{
    if text.len() > MOST_FRAME_DIGITS {
        return Err(Stop::Fault(Fault::Value));
    }
    match hex::decode(alloc, text) {
        Ok(bytes) => Ok(bytes),
        Err(FromHexError::OutOfMemory) => Err(Stop::Memory),
        Err(_) => Err(Stop::Fault(Fault::Value)),
    }
}
