//! Calls of EERD and the EEPROM, each made twice, from equal states: only their clauses determine the outcomes.

ghost use Rattle.std.specs.Prelude.{◌≡◌};

use eeprom::{Eerd, Image};

/// Calls [`Image::address`] twice.
pub fn address_twice(one: &Image, other: &Image) -> ([u8; 6], [u8; 6])
    requires { one.now ≡ other.now }
    ensures { result.0 ≡ result.1 }
{
    (one.address(), other.address())
}

/// Calls [`eeprom::checksum_ok`] twice.
pub fn checksum_ok_twice(one: &Image, other: &Image) -> (bool, bool)
    requires { one.now ≡ other.now }
    ensures { result.0 ≡ result.1 }
{
    (eeprom::checksum_ok(one), eeprom::checksum_ok(other))
}

/// Calls [`Eerd::write`] twice.
pub fn write_twice(one: &mut Eerd, other: &mut Eerd, value: u32)
    requires { one.old ≡ other.old }
    ensures { one.new ≡ other.new }
{
    one.write(value);
    other.write(value);
}

/// Calls [`Eerd::read`] twice.
pub fn read_twice(one: &Eerd, other: &Eerd) -> (u32, u32)
    requires { one.now ≡ other.now }
    ensures { result.0 ≡ result.1 }
{
    (one.read(), other.read())
}

/// Calls [`Eerd::tick`] twice.
pub fn tick_twice(one: &mut Eerd, other: &mut Eerd, image: &Image) -> (bool, bool)
    requires { one.old ≡ other.old }
    ensures outcome { result.0 ≡ result.1 }
    ensures state { one.new ≡ other.new }
{
    (one.tick(image), other.tick(image))
}
