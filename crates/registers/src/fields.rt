// Fields of several bits.

ghost use Rattle.std.specs.Prelude.{◌≡◌, ◌<◌};
ghost use Rattle.registers.specs.Bits.{field};

/// Returns the number in two neighbouring bits. `lowest` is the place of the lower bit, and must be below 31.
pub(crate) fn two_bit_field(bits: u32, lowest: u32) -> u8
    requires { lowest < 31 }
    ensures { result ≡ field bits lowest 2 }
{
    (bits >> lowest & 0b11) as u8
}
