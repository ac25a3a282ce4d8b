// Names of targets, without allocation.

ghost use Rattle.std.specs.Prelude.{◌≡◌, ◌+◌, ◌++◌, ◌≤◌, ◌<◌, [], None, false, length};
ghost use Rattle.std.specs.Fmt.{decimal, digit_glyph, digits};
ghost use Rattle.adapter.specs.Table.{register_at};
ghost use Rattle.access_names.specs.Names.{bracketed, byte_text, hexadecimal, name_bytes};
ghost use Rattle.access_names.specs.Names.{register_text, ring_text, target_text};

use crate::Engine;
use crate::printing::ring_word;
use crate::register_names::{index_of, name_of};
use crate::target::Target;
use adapter::Register;
use itoa::write_digits;

/// The size of the buffer for a name, in bytes. It exceeds the longest name, and the room that the functions below
/// require.
const ROOM: usize = 128;

/// The maximum number of digits in the definition of `digits`. A `u64` has at most 16 hexadecimal digits.
const MOST_DIGITS: u8 = 64;

const HEXADECIMAL: u64 = 16;

/// The name of a target. The name contains its bytes, so no memory is allocated. Text is only added in front of a name,
/// so a name is written from its end to its beginning.
#[derive(Clone, Copy)]
pub struct TargetName {
    /// The buffer of the name.
    bytes: [u8; ROOM],
    /// The index of the name's first byte, at most 128. So it is also the number of free bytes in front of the name.
    /// The name ends at the end of `bytes`.
    start: usize,
}

/// Returns the lower-case hexadecimal digit with this value, which must be below 16.
fn digit_of(value: u64) -> u8
    requires { value < 16 }
    ensures { result ≡ digit_glyph false value }
{
    if value < 10 {
        b'0' + value as u8
    } else {
        // `b'W' + 10` is `b'a'`.
        b'W' + value as u8
    }
}

impl TargetName {
    /// Returns an empty name. All 128 bytes of its buffer are free.
    fn new() -> TargetName
        ensures text { name_bytes result ≡ [] }
        ensures room { result.start ≡ 128 }
    {
        TargetName {
            bytes: [0; ROOM],
            start: ROOM,
        }
    }

    /// Returns the bytes of the name.
    pub fn as_slice(&self) -> &[u8]
        ensures { result.now ≡ name_bytes self.now }
    {
        match self.bytes.get(self.start..) {
            Some(name) => name,
            // `start` is at most `ROOM`, so there is always a slice.
            None => &[],
        }
    }

    /// Adds text in front of the name. The buffer must have room for this text.
    fn prepend(&mut self, text: &str)
        requires { (length text.now ≤ self.old.start) × (self.old.start ≤ 128) }
        ensures text { name_bytes self.new ≡ text.now ++ name_bytes self.old }
        ensures room { self.new.start + length text.now ≡ self.old.start }
    {
        let start = self.start - text.len();
        self.bytes[start..self.start].copy_from_slice(text.as_bytes());
        self.start = start;
    }

    /// Adds a number in front of the name, in decimal digits. The buffer must have room for 20 digits, the maximum of a
    /// `u64`. `room`: at most 20 bytes are used.
    fn prepend_decimal(&mut self, number: u64)
        requires { (20 ≤ self.old.start) × (self.old.start ≤ 128) }
        ensures text { name_bytes self.new ≡ decimal number ++ name_bytes self.old }
        ensures room { (self.old.start ≤ self.new.start + 20) × (self.new.start ≤ self.old.start) }
    {
        // Writes the digits right before `start`, and returns the index of the first digit.
        self.start = write_digits(number, &mut self.bytes, self.start);
    }

    /// Adds a number in front of the name, in lower-case hexadecimal digits. The buffer must have room for 64 digits,
    /// the maximum in the definition of `digits`. A `u64` uses at most 16 of them.
    fn prepend_hexadecimal(&mut self, number: u64)
        requires { (64 ≤ self.old.start) × (self.old.start ≤ 128) }
        ensures text { name_bytes self.new ≡ digits 16 false number ++ name_bytes self.old }
        ensures room { (self.old.start ≤ self.new.start + 64) × (self.new.start ≤ self.old.start) }
    {
        // `turns` only bounds the loop, as in the definition of `digits`. For a `u64`, `left` is below 16 after at most
        // 15 turns, so `turns` never ends the loop.
        let mut turns = MOST_DIGITS;
        let mut at = self.start;
        let mut left = number;
        while turns > 1 && left >= HEXADECIMAL {
            at -= 1;
            self.bytes[at] = digit_of(left % HEXADECIMAL);
            left /= HEXADECIMAL;
            turns -= 1;
        }
        // The first digit.
        self.bytes[at - 1] = digit_of(left % HEXADECIMAL);
        self.start = at - 1;
    }

    /// Adds a number in front of the name, in decimal digits and in brackets. The buffer must have room for 20 digits
    /// and the brackets. `room`: at most 22 bytes are used.
    fn prepend_index(&mut self, index: u64)
        requires { (22 ≤ self.old.start) × (self.old.start ≤ 128) }
        ensures text { name_bytes self.new ≡ bracketed (decimal index) ++ name_bytes self.old }
        ensures room { (self.old.start ≤ self.new.start + 22) × (self.new.start ≤ self.old.start) }
    {
        self.prepend("]");
        self.prepend_decimal(index);
        self.prepend("[");
    }
}

/// Returns the name of an address in memory, such as `0x10000`.
fn memory_name(address: u64) -> TargetName
    ensures { name_bytes result ≡ hexadecimal address }
{
    let mut name = TargetName::new();
    name.prepend_hexadecimal(address);
    name.prepend("0x");
    name
}

/// Returns the name of a byte of a descriptor, such as `rx[1]+8`. Byte 0 has the name of the descriptor, such as
/// `rx[1]`.
fn descriptor_name(ring: Engine, index: u64, byte: u64) -> TargetName
    ensures { name_bytes result ≡ ring_text ring ++ bracketed (decimal index) ++ byte_text byte }
{
    let mut name = TargetName::new();
    if byte != 0 {
        name.prepend_decimal(byte);
        name.prepend("+");
    }
    name.prepend_index(index);
    name.prepend(ring_word(ring));
    name
}

/// Returns the name of an offset that no register has, such as `register[0x10]`.
fn offset_name(offset: u32) -> TargetName
    ensures { name_bytes result ≡ register_text None offset }
{
    let mut name = TargetName::new();
    name.prepend("]");
    name.prepend_hexadecimal(u64::from(offset));
    name.prepend("register[0x");
    name
}

/// Returns the name of the register at this offset, with its index if it is in an array, such as `MTA[3]`. If no
/// register has this offset, returns the name of the offset.
fn register_name(offset: u32) -> TargetName
    ensures { name_bytes result ≡ register_text (register_at offset) offset }
{
    let Some(register) = Register::at(offset) else {
        return offset_name(offset);
    };
    let mut name = TargetName::new();
    if let Some(index) = index_of(register) {
        name.prepend_index(u64::from(index));
    }
    name.prepend(name_of(register));
    name
}

impl Target {
    /// Returns the name that `Display` prints. Allocates nothing.
    pub fn name(self) -> TargetName
        ensures { name_bytes result ≡ target_text self }
    {
        match self {
            Target::Register(offset) => register_name(offset),
            Target::Descriptor { ring, index, byte } => descriptor_name(ring, index, byte),
            Target::Memory(address) => memory_name(address),
        }
    }
}
