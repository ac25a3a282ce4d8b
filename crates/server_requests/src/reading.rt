// Reads requests from the words of a line. `Gives` states that the result is this request, or this refusal, unless
// memory was refused. A function with an allocator fails with `Stop::Memory` if memory is refused.

ghost use Rattle.std.specs.Prelude.{◌≡◌, ◌≢◌, ◌≤◌, IfErr, IsTrue, length};
ghost use Rattle.server_requests.specs.Reading as reading;
ghost use Rattle.server_requests.specs.Spellings.{Gives, number_at_most};
ghost use Rattle.server_requests.specs.Verbs.{takes_words};
ghost use Rattle.server_requests.specs.Words.{texts};
ghost use Rattle.server_requests.specs.declared.refusal.Stop.TheVariants.{Memory};
ghost use Rattle.server_requests.specs.declared.verb.Verb.TheVariants as verbs;

use crate::refusal::{Refusal, Stop};
use crate::request::{Look, Payload, Request, Setting, Wanted, Width};
use crate::spelling::{bytes_at, number_at, payload_at, size_at};
use crate::verb::{Encoding, STEP_KINDS, Verb, verb_of};
use crate::width::greatest_at_port;
use crate::words::words_in;
use registers::PortWidth;
use std::alloc::Global;
use std::str;
use text::{value_of, word_at};

/// The maximum COUNT of `interleave` and of `pace` (our choice).
const MOST_COUNT: u64 = 65_535;

/// The maximum limit of `choose` (our choice): the numbers of a schedule have at most nine digits.
const MOST_LIMIT: u64 = 1_000_000_000;

/// The maximum number of an I/O port.
const MOST_PORT: u64 = 0xFFFF;

/// The ADDR and the SIZE of a line.
#[derive(Clone, Copy)]
struct Area {
    /// ADDR, the address of the first byte.
    address: u64,
    /// SIZE, the number of bytes.
    size: u64,
}

/// Returns the ADDR and the SIZE of a line, its second and third words. The line must have these words. Refuses an
/// invalid ADDR or SIZE.
fn area_of(words: &[&str]) -> Result<Area, Stop>
    requires { 3 ≤ length words.now }
    ensures { Gives result (reading.area_in (texts words.now)) }
{
    let address = number_at(word_at(words, 1), u64::MAX)?;
    let size = size_at(word_at(words, 2))?;
    Ok(Area { address, size })
}

/// Returns the request to write bytes to an area. Refuses a payload whose number of bytes isn't the size of the area.
fn write_to(area: Area, payload: Payload) -> Result<Request, Stop>
    ensures { Gives result (reading.write_to area payload) }
{
    if payload.bytes.len() as u64 != area.size {
        return Err(Stop::Refused(Refusal::Value));
    }
    Ok(Request::Write(area.address, payload))
}

/// Returns the request of a line `write ADDR SIZE 0xHEX` or `b64write ADDR SIZE BASE64`, of four words. Refuses an
/// invalid word, or a payload that doesn't have SIZE bytes.
fn write_of(alloc: Global, encoding: Encoding, words: &[&str]) -> Result<Request, Stop>
    requires { length words.now ≡ 4 }
    ensures { Gives result (reading.write_in encoding (texts words.now)) }
{
    let area = area_of(words)?;
    let payload = payload_at(alloc, encoding, word_at(words, 3))?;
    write_to(area, payload)
}

/// Returns the request of a line `memset ADDR SIZE VALUE`, of four words. Refuses an invalid word.
fn memset_of(alloc: Global, words: &[&str]) -> Result<Request, Stop>
    requires { length words.now ≡ 4 }
    ensures { Gives result (reading.memset_in (texts words.now)) }
{
    let area = area_of(words)?;
    let value = number_at(word_at(words, 3), u64::from(u8::MAX))?;
    // VALUE is at most 255, and SIZE at most 65,536, so the casts keep them.
    let bytes = vec![in alloc; value as u8; area.size as usize]?;
    Ok(Request::Write(area.address, Payload { bytes }))
}

/// Returns the request of a line `readb ADDR`, `readw ADDR`, `readl ADDR` or `readq ADDR`, of two words. Refuses an
/// invalid ADDR.
fn read_number_of(width: Width, words: &[&str]) -> Result<Request, Stop>
    requires { length words.now ≡ 2 }
    ensures { Gives result (reading.read_number_in width (texts words.now)) }
{
    let address = number_at(word_at(words, 1), u64::MAX)?;
    Ok(Request::Read(Wanted::Number(width), address))
}

/// Returns the request of a line `writeb ADDR VALUE`, `writew ADDR VALUE`, `writel ADDR VALUE` or `writeq ADDR VALUE`,
/// of three words. Refuses an invalid ADDR, or a VALUE above the greatest number of the width.
fn write_number_of(alloc: Global, width: Width, words: &[&str]) -> Result<Request, Stop>
    requires { length words.now ≡ 3 }
    ensures { Gives result (reading.write_number_in width (texts words.now)) }
{
    let address = number_at(word_at(words, 1), u64::MAX)?;
    let value = number_at(word_at(words, 2), width.greatest())?;
    let bytes = width.bytes_spelling(alloc, value)?;
    Ok(Request::Write(address, Payload { bytes }))
}

/// Returns the `Wanted` of a request to read this number of bytes in this encoding: the number, and the form of the
/// answer.
fn wanted_bytes(encoding: Encoding, size: u64) -> Wanted
    ensures { result ≡ reading.wanted_bytes encoding size }
{
    match encoding {
        Encoding::Hexadecimal => Wanted::Bytes(size),
        Encoding::Base64 => Wanted::Base64(size),
    }
}

/// Returns the request of a line `read ADDR SIZE` or `b64read ADDR SIZE`, of three words. Refuses an invalid word.
fn read_of(encoding: Encoding, words: &[&str]) -> Result<Request, Stop>
    requires { length words.now ≡ 3 }
    ensures { Gives result (reading.read_request encoding (texts words.now)) }
{
    let area = area_of(words)?;
    Ok(Request::Read(wanted_bytes(encoding, area.size), area.address))
}

/// Returns the number of an I/O port that a word spells. Refuses a word that isn't a number, or a number above 65,535.
fn port_at(word: &str) -> Result<u16, Stop>
    ensures value { Gives result (number_at_most reading.most_port word.now) }
    ensures no_memory { IfErr result (λ stop. stop ≢ Memory) }
{
    let port = number_at(word, MOST_PORT)?;
    Ok(port as u16)
}

/// Returns the request `inb PORT`, `inw PORT` or `inl PORT`, from the word PORT. Refuses an invalid PORT.
fn read_port_of(width: PortWidth, word: &str) -> Result<Request, Stop>
    ensures { Gives result (reading.read_port_in width word.now) }
{
    let port = port_at(word)?;
    Ok(Request::Look(Look::Port(width, port)))
}

/// Returns the request of a line `outb PORT VALUE`, `outw PORT VALUE` or `outl PORT VALUE`, of three words. Refuses an
/// invalid PORT, or a VALUE above the greatest number of the width.
fn write_port_of(width: PortWidth, words: &[&str]) -> Result<Request, Stop>
    requires { length words.now ≡ 3 }
    ensures { Gives result (reading.write_port_in width (texts words.now)) }
{
    let port = port_at(word_at(words, 1))?;
    let value = number_at(word_at(words, 2), greatest_at_port(width))?;
    Ok(Request::WritePort(width, port, value as u32))
}

/// Returns the request `arrive HEX`, from the word HEX. Refuses a word that isn't pairs of hexadecimal digits.
fn arrive_of(alloc: Global, word: &str) -> Result<Request, Stop>
    ensures { Gives result (reading.arrive_in word.now) }
{
    let frame = bytes_at(alloc, word)?;
    Ok(Request::Arrive(frame))
}

/// Returns the request `offer HEX`, from the word HEX. Refuses a word that isn't pairs of hexadecimal digits.
fn offer_of(alloc: Global, word: &str) -> Result<Request, Stop>
    ensures { Gives result (reading.offer_in word.now) }
{
    let frame = bytes_at(alloc, word)?;
    Ok(Request::Offer(frame))
}

/// Returns the request `interleave COUNT`, from its second word. Refuses a COUNT that isn't a number up to
/// [`MOST_COUNT`].
fn interleave_of(word: &str) -> Result<Request, Stop>
    ensures { Gives result (reading.interleave_in word.now) }
{
    let count = number_at(word, MOST_COUNT)?;
    Ok(Request::Set(Setting::Interleave(count as u16)))
}

/// Returns true for the word `first`, and false for the word `second`. Refuses any other word.
fn is_first(word: &str, first: &str, second: &str) -> Result<bool, Stop>
    ensures value { Gives result (reading.is_first first.now second.now word.now) }
    ensures no_memory { IfErr result (λ stop. stop ≢ Memory) }
{
    if word == first {
        return Ok(true);
    }
    if word == second {
        return Ok(false);
    }
    Err(Stop::Refused(Refusal::Value))
}

/// Returns the request `log on`, `log off` or `log targets`, from its second word. Refuses any other word.
fn log_of(word: &str) -> Result<Request, Stop>
    ensures { Gives result (reading.log_in word.now) }
{
    if word == "targets" {
        return Ok(Request::Set(Setting::Log {
            on: true,
            targets: true,
        }));
    }
    let on = is_first(word, "on", "off")?;
    Ok(Request::Set(Setting::Log { on, targets: false }))
}

/// Returns the request `wire free` or `wire full`, from its second word. Refuses any other word.
fn wire_of(word: &str) -> Result<Request, Stop>
    ensures { Gives result (reading.wire_in word.now) }
{
    let free = is_first(word, "free", "full")?;
    Ok(Request::Set(Setting::Wire(free)))
}

/// Returns the request `events on` or `events off`, from its second word. Refuses any other word.
fn events_of(word: &str) -> Result<Request, Stop>
    ensures { Gives result (reading.events_in word.now) }
{
    let on = is_first(word, "on", "off")?;
    Ok(Request::Set(Setting::Events(on)))
}

/// Returns the request `pace COUNT`, from the word COUNT. Refuses a COUNT that isn't a number up to [`MOST_COUNT`].
fn pace_of(word: &str) -> Result<Request, Stop>
    ensures { Gives result (reading.pace_in word.now) }
{
    let count = number_at(word, MOST_COUNT)?;
    Ok(Request::Set(Setting::Pace(count as u16)))
}

/// Returns the request of a line `clock_step` or `clock_step NS`, with at least one word. Without NS, the clock
/// advances by 0. Refuses an NS that isn't a number of at most 64 bits.
fn clock_step_of(words: &[&str]) -> Result<Request, Stop>
    requires { 1 ≤ length words.now }
    ensures { Gives result (reading.clock_step_in (texts words.now)) }
{
    if words.len() == 1 {
        return Ok(Request::ClockStep(0));
    }
    let time = number_at(word_at(words, 1), u64::MAX)?;
    Ok(Request::ClockStep(time))
}

/// Returns the request `clock_set NS`, from the word NS. Refuses an NS that isn't a number of at most 64 bits.
fn clock_set_of(word: &str) -> Result<Request, Stop>
    ensures { Gives result (reading.clock_set_in word.now) }
{
    let time = number_at(word, u64::MAX)?;
    Ok(Request::ClockSet(time))
}

/// Returns the request `step KIND`, from the word KIND. Refuses a KIND that isn't the name of a kind of steps.
#[tactic(auto, unfolding(crate::specs::Verbs::step_kind_named))]
fn step_of(word: &str) -> Result<Request, Stop>
    ensures { Gives result (reading.step_in word.now) }
{
    match value_of(&STEP_KINDS, word) {
        Some(kind) => Ok(Request::Step(kind)),
        None => Err(Stop::Refused(Refusal::Value)),
    }
}

/// Returns the request `choose LIMIT`, from the word LIMIT. Refuses a LIMIT that isn't from 1 to [`MOST_LIMIT`].
fn choose_of(word: &str) -> Result<Request, Stop>
    ensures { Gives result (reading.choose_in word.now) }
{
    let limit = number_at(word, MOST_LIMIT)?;
    if limit == 0 {
        return Err(Stop::Refused(Refusal::Value));
    }
    Ok(Request::Choose(limit as u32))
}

/// Returns the request of a line `target ADDR SIZE`, of three words. Refuses an invalid word.
fn target_of(words: &[&str]) -> Result<Request, Stop>
    requires { length words.now ≡ 3 }
    ensures { Gives result (reading.target_request (texts words.now)) }
{
    let area = area_of(words)?;
    Ok(Request::Look(Look::Target(area.address, area.size)))
}

/// Returns the request of a line, whose first word is of this kind. The line must have a number of words that the kind
/// allows. Refuses a line with an invalid word, or with a payload that doesn't have SIZE bytes.
fn request_with(alloc: Global, verb: Verb, words: &[&str]) -> Result<Request, Stop>
    requires { IsTrue (takes_words verb (length words.now)) }
    ensures { Gives result (reading.request_with verb (texts words.now)) }
{
    match verb {
        Verb::ReadNumber(width) => read_number_of(width, words),
        Verb::WriteNumber(width) => write_number_of(alloc, width, words),
        Verb::Read(encoding) => read_of(encoding, words),
        Verb::Write(encoding) => write_of(alloc, encoding, words),
        Verb::Memset => memset_of(alloc, words),
        Verb::ReadPort(width) => read_port_of(width, word_at(words, 1)),
        Verb::WritePort(width) => write_port_of(width, words),
        Verb::Endianness => Ok(Request::Look(Look::Endianness)),
        Verb::Intercept => Ok(Request::Look(Look::Intercept)),
        Verb::ClockStep => clock_step_of(words),
        Verb::ClockSet => clock_set_of(word_at(words, 1)),
        Verb::Step => step_of(word_at(words, 1)),
        Verb::Arrive => arrive_of(alloc, word_at(words, 1)),
        Verb::Settle => Ok(Request::Settle),
        Verb::Line => Ok(Request::Look(Look::Line)),
        Verb::Digest => Ok(Request::Look(Look::Digest)),
        Verb::Interleave => interleave_of(word_at(words, 1)),
        Verb::Log => log_of(word_at(words, 1)),
        Verb::Wire => wire_of(word_at(words, 1)),
        Verb::Offer => offer_of(alloc, word_at(words, 1)),
        Verb::Events => events_of(word_at(words, 1)),
        Verb::Frames => Ok(Request::Look(Look::Frames)),
        Verb::Faults => Ok(Request::Look(Look::Faults)),
        Verb::Pace => pace_of(word_at(words, 1)),
        Verb::Enabled => Ok(Request::Look(Look::Enabled)),
        Verb::Choose => choose_of(word_at(words, 1)),
        Verb::Target => target_of(words),
        Verb::Rings => Ok(Request::Look(Look::Rings)),
        Verb::Save => Ok(Request::Save),
        Verb::Restore => Ok(Request::Restore),
    }
}

/// Returns the request of the words of a line. Refuses a line without words, with an unknown first word, or with a
/// number of words that isn't allowed. After these checks, refuses what [`request_with`] refuses.
fn request_of(alloc: Global, words: &[&str]) -> Result<Request, Stop>
    ensures { Gives result (reading.request_in (texts words.now)) }
{
    let Some(first) = words.first() else {
        return Err(Stop::Refused(Refusal::Unknown));
    };
    let Some(verb) = verb_of(first) else {
        return Err(Stop::Refused(Refusal::Unknown));
    };
    if !verb.takes_words(words.len()) {
        return Err(Stop::Refused(Refusal::Count));
    }
    request_with(alloc, verb, words)
}

/// Returns the request of a line. Refuses a line that isn't a request.
///
/// # Errors
///
/// [`Stop::Refused`] with the first reason that applies: `text`, `unknown`, `count`; then, for the words from left to
/// right, `value` or `size`; then `value` if the number of bytes in a payload isn't SIZE. [`Stop::Memory`] if memory
/// was refused.
pub fn read_line(alloc: Global, line: &[u8]) -> Result<Request, Stop>
    ensures { reading.IsRequestRead line.now result }
{
    let Ok(line) = str::from_utf8(line) else {
        return Err(Stop::Refused(Refusal::Text));
    };
    request_of(alloc, words_in(line).as_slice())
}
