//! Reads the EEPROM word by word ("13.4.4 EEPROM Read Register").

ghost use Rattle.std.specs.Prelude.{IsOk, IsOkUnless};
ghost use Rattle.adapter.specs.Keeping.{Keeps};
ghost use Rattle.bring_up.specs.EepromReading.{ReadsImage, ReadsWord};

use crate::MOST_READS;
use crate::init_error::InitError;
use adapter::Bus;
use adapter::offsets::EERD;
use eeprom::{Image, WORDS};

/// START, bit 0 of EERD: a write of EERD with START begins a read of the EEPROM.
const START: u32 = 1 << 0;

/// DONE, bit 4 of EERD: DATA contains the word.
const DONE: u32 = 1 << 4;

/// The lowest bit of ADDR, bits 15:8 of EERD.
const ADDR_SHIFT: u32 = 8;

/// The lowest bit of DATA, bits 31:16 of EERD.
const DATA_SHIFT: u32 = 16;

/// Reads the 64 words of the EEPROM, in order. For each word, writes EERD once, and reads EERD until DONE is set, at
/// most 1,000 times. Over a lively bus that obeys the law, no timeout occurs.
///
/// # Errors
///
/// E11 [`EepromTimeout`](InitError::EepromTimeout) if 1,000 reads of EERD for one word didn't show DONE.
pub fn read_image<B: Bus>(bus: &mut B) -> Result<Image, InitError>
    ensures keeps { Keeps B.Bus bus.old bus.new }
    ensures only { IsOkUnless result InitError.EepromTimeout }
    ensures reads { B.honest bus.old → ReadsImage B.Bus result bus.old bus.new }
    ensures in_time { B.lively bus.old → B.honest bus.old → IsOk result }
{
    let mut words = [0; WORDS];
    for address in 0..WORDS {
        // An address is below 64, so it fits into 8 bits.
        words[address] = read_word(bus, address as u8)?;
    }
    Ok(Image::from_words(words))
}

/// Reads the word of the EEPROM at this address. Returns E11 if 1,000 reads of EERD didn't show DONE. Over a lively bus
/// that obeys the law, no timeout occurs. The adapter returns FFFFh for an address above 63 (our choice), which
/// [`read_image`] never reads.
fn read_word<B: Bus>(bus: &mut B, address: u8) -> Result<u16, InitError>
    ensures keeps { Keeps B.Bus bus.old bus.new }
    ensures only { IsOkUnless result InitError.EepromTimeout }
    ensures reads { B.honest bus.old → ReadsWord B.Bus address result bus.old bus.new }
    ensures in_time { B.lively bus.old → B.honest bus.old → IsOk result }
{
    bus.write(EERD, u32::from(address) << ADDR_SHIFT | START);
    for _ in 0..MOST_READS {
        let answer = bus.read(EERD);
        if answer & DONE != 0 {
            return Ok((answer >> DATA_SHIFT) as u16);
        }
    }
    Err(InitError::EepromTimeout)
}
