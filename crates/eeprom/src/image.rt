ghost use Rattle.std.specs.Prelude.{◌≡◌, ◌*◌, ◌%◌, ◌↔◌, IsTrue, length, sum, ◌≤◌};
ghost use Rattle.eeprom.specs.Image.{HasRightSum, address_bytes, image_with, word_at};

use std::marker::Model;

/// The number of words of an image.
pub const WORDS: usize = 64;

/// The index of the checksum word, 3Fh.
const CHECKSUM_WORD: usize = 63;

/// The sum that the 64 words must have, modulo 65,536.
const CHECKSUM: u16 = 0xBABA;

/// The sum of the words is taken modulo this number.
const MODULUS: u32 = 1 << 16;

/// The word that a read of an address after the last word returns.
const NO_WORD: u16 = 0xFFFF;

/// The contents of an EEPROM: 64 words of 16 bits.
///
/// Words 0 to 2 contain the Ethernet address, two bytes in each word, the earlier byte in the low half (manual:
/// "Ethernet Address (Words 00h-02h)"). In contracts, the value is the list of the words.
#[derive(Clone, Copy, Debug, PartialEq, Eq)]
pub struct Image {
    words: [u16; WORDS],
}

impl Model for Image {
    ghost use Rattle.std.specs.Prelude.{List, ℕ};

    ghost Value = { List ℕ };

    ghost view = { λ image. image.words };

    ghost inverse = { λ words. record { words = words } };
}

impl Image {
    /// Returns the image with these words.
    pub fn from_words(words: [u16; WORDS]) -> Self
        ensures words { result ≡ words }
        ensures size { length result ≡ 64 }
    {
        Image { words }
    }

    /// Returns the image with an Ethernet address in words 0 to 2, the checksum in the last word, and 0 in the other
    /// words.
    pub fn with_address(address: [u8; 6]) -> Self
        ensures words { result ≡ image_with address }
        ensures checksum { HasRightSum result }
        ensures address { address_bytes result ≡ address }
    {
        let mut words = [0; WORDS];
        words[0] = u16::from_le_bytes([address[0], address[1]]);
        words[1] = u16::from_le_bytes([address[2], address[3]]);
        words[2] = u16::from_le_bytes([address[4], address[5]]);
        words[CHECKSUM_WORD] = CHECKSUM
            .wrapping_sub(words[0])
            .wrapping_sub(words[1])
            .wrapping_sub(words[2]);
        Image::from_words(words)
    }

    /// Returns the Ethernet address in words 0 to 2.
    pub fn address(&self) -> [u8; 6]
        ensures { result ≡ address_bytes self.now }
    {
        let [b0, b1] = self.words[0].to_le_bytes();
        let [b2, b3] = self.words[1].to_le_bytes();
        let [b4, b5] = self.words[2].to_le_bytes();
        [b0, b1, b2, b3, b4, b5]
    }

    /// Returns the word at an address, or 0xFFFF if the address is above 63 (our choice). The clause `size` is true of
    /// each image, and is for the proofs of callers.
    pub fn word(&self, address: u8) -> u16
        ensures word { result ≡ word_at self.now address }
        ensures size { length self.now ≡ 64 }
    {
        self.words
            .get(usize::from(address))
            .copied()
            .unwrap_or(NO_WORD)
    }
}

/// Returns whether the 64 words add up to 0xBABA, modulo 65,536 (manual: "Checksum Word (3Fh)").
pub fn checksum_ok(image: &Image) -> bool
    ensures { IsTrue result ↔ HasRightSum image.now }
{
    sum_of(&image.words) % MODULUS == u32::from(CHECKSUM)
}

/// Returns the sum of at most 64 words, which fits into 32 bits.
fn sum_of(words: &[u16]) -> u32
    requires { length words.now ≤ WORDS }
    ensures { result ≡ sum words.now }
{
    words.iter().map(|word| u32::from(*word)).sum()
}
