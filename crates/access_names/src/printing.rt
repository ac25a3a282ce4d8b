// Writes the names of targets.

ghost use Rattle.std.specs.Prelude.{◌≡◌, Some};
ghost use Rattle.std.specs.Fmt.{WritesOnOk};
ghost use Rattle.adapter.specs.Table.{register_at};
ghost use Rattle.access_names.specs.Names.{register_text, ring_text, target_text};

use crate::Engine;
use crate::register_names::{index_of, name_of};
use crate::target::Target;
use adapter::Register;
use std::fmt;

impl fmt::Display for Target {
    ghost output = { λ target. Some (target_text target) };

    fn fmt<W: fmt::Write>(&self, f: &mut fmt::Formatter<W>) -> fmt::Result {
        match *self {
            Target::Register(offset) => write_register(offset, f),
            Target::Descriptor { ring, index, byte } => {
                let ring = ring_word(ring);
                if byte == 0 {
                    write!(f, "{ring}[{index}]")
                } else {
                    write!(f, "{ring}[{index}]+{byte}")
                }
            }
            Target::Memory(address) => write!(f, "0x{address:x}"),
        }
    }
}

/// Writes the name of the register at this offset, with its index in brackets if it is in an array, such as `MTA[3]`.
/// If no register has this offset, writes `register` and the offset in brackets.
fn write_register<W: fmt::Write>(offset: u32, f: &mut fmt::Formatter<W>) -> fmt::Result
    ensures { WritesOnOk W.write_str_gives f.old result (register_text (register_at offset) offset) f.new }
{
    let Some(register) = Register::at(offset) else {
        return write!(f, "register[0x{offset:x}]");
    };
    let name = name_of(register);
    match index_of(register) {
        Some(index) => write!(f, "{name}[{index}]"),
        None => f.write_str(name),
    }
}

/// Returns the word for the ring of an engine: `rx` or `tx`.
pub(crate) fn ring_word(engine: Engine) -> &'static str
    ensures { result.now ≡ ring_text engine }
{
    match engine {
        Engine::Receive => "rx",
        Engine::Transmit => "tx",
    }
}
