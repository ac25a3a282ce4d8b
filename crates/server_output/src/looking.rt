// The lines of answers with kinds of steps and with rings.

ghost use Rattle.std.specs.Prelude.{◌≡◌, IfOk};
ghost use Rattle.server_output.specs.Order.{Says};
ghost use Rattle.server_output.specs.Texts as texts;

use crate::answer_error::AnswerError;
use crate::lines::joined;
use crate::output::say_parts;
use access_names::RingWords;
use adapter::StepKind;
use std::alloc::{AllocError, Global};
use std::io::Write;

/// The kinds of steps in an answer to `enabled`: for each kind, whether the answer contains the kind.
#[derive(Clone, Copy)]
pub struct EnabledSteps {
    /// `txtake`.
    pub tx_take: bool,
    /// `txput`.
    pub tx_put: bool,
    /// `rxdata`.
    pub rx_data: bool,
    /// `rxdone`.
    pub rx_done: bool,
    /// `eeprom`.
    pub eeprom: bool,
    /// `phy`.
    pub phy: bool,
}

/// Returns a space and the word of a kind of step, or an empty text if the kind isn't enabled.
fn enabled_word(kind: StepKind, is_enabled: bool) -> &'static [u8]
    ensures { result.now ≡ texts.enabled_word kind is_enabled }
{
    if !is_enabled {
        return b"";
    }
    match kind {
        StepKind::TxTake => b" txtake",
        StepKind::TxPut => b" txput",
        StepKind::RxData => b" rxdata",
        StepKind::RxDone => b" rxdone",
        StepKind::EepromTick => b" eeprom",
        StepKind::PhyTick => b" phy",
    }
}

/// Writes the line of an answer with the kinds of steps that are enabled, in the order of a cycle.
#[tactic(auto, unfolding(crate::specs::Texts::enabled_line))]
pub fn say_enabled<W: Write>(
    alloc: Global,
    out: &mut W,
    enabled: EnabledSteps,
) -> Result<(), AnswerError>
    ensures { Says result (W.contents out.old) (W.contents out.new) (texts.enabled_line enabled) }
{
    let take = enabled_word(StepKind::TxTake, enabled.tx_take);
    let put = enabled_word(StepKind::TxPut, enabled.tx_put);
    let data = enabled_word(StepKind::RxData, enabled.rx_data);
    let done = enabled_word(StepKind::RxDone, enabled.rx_done);
    let eeprom = enabled_word(StepKind::EepromTick, enabled.eeprom);
    let phy = enabled_word(StepKind::PhyTick, enabled.phy);
    say_parts(
        alloc,
        out,
        &[b"OK", take, put, data, done, eeprom, phy, b"\n"],
    )
}

/// Returns a space, `0x`, and a number in 16 hexadecimal digits. The digits are after the 3 bytes ` 0x`, so the
/// `unwrap` can't fail.
fn number_word(number: u64) -> [u8; 19]
    ensures { result ≡ texts.number_word number }
{
    let mut word = *b" 0x0000000000000000";
    hex::encode_to_slice(number.to_be_bytes(), &mut word[3..19]).unwrap();
    word
}

/// Returns the words of a ring, each after a space: its base, its length in bytes, its head and its tail.
fn ring_words(alloc: Global, ring: RingWords) -> Result<Vec<u8>, AllocError>
    ensures { IfOk result (λ text. text.items ≡ texts.ring_words ring) }
{
    let base = number_word(ring.base);
    let bytes = number_word(u64::from(ring.bytes));
    let head = number_word(u64::from(ring.head));
    let tail = number_word(u64::from(ring.tail));
    joined(alloc, &[&base, &bytes, &head, &tail])
}

/// Writes the line of an answer with the receive ring and the transmit ring.
pub fn say_rings<W: Write>(
    alloc: Global,
    out: &mut W,
    receive: RingWords,
    transmit: RingWords,
) -> Result<(), AnswerError>
    ensures { Says result (W.contents out.old) (W.contents out.new) (texts.rings_line receive transmit) }
{
    let receive = ring_words(alloc, receive)?;
    let transmit = ring_words(alloc, transmit)?;
    say_parts(
        alloc,
        out,
        &[b"OK", receive.as_slice(), transmit.as_slice(), b"\n"],
    )
}
