//! An access of `QtestBus`, made twice. The prover knows only the clauses of a call, so these determine what is
//! compared.

ghost use Rattle.std.specs.Prelude.{◌≡◌, IfSome, None};

use adapter::Bus;
use drive::QtestBus;
use std::io::{BufRead, Write};

/// Calls [`Bus::write`] of `QtestBus` twice, of two equal buses. The contract leaves open when the other program fails.
pub fn write<R: BufRead, W: Write>(
    one: &mut QtestBus<R, W>,
    other: &mut QtestBus<R, W>,
    offset: u32,
    value: u32,
)
    requires { one.old ≡ other.old }
    ensures request { IfSome one.old.written
        (λ _. one.new.fault ≡ None → other.new.fault ≡ None → one.new.written ≡ other.new.written) }
    ensures registers { one.new.registers ≡ other.new.registers }
    ensures memory { one.new.memory ≡ other.new.memory }
{
    one.write(offset, value);
    other.write(offset, value);
}
