//! Calls of a PCI function, each made twice, from equal states: only their clauses determine the outcomes.

ghost use Rattle.std.specs.Prelude.{◌≡◌};

use registers::{PciFunction, PortWidth};

/// Calls [`PciFunction::read_port`] twice.
pub fn read_port_twice(
    one: &PciFunction,
    other: &PciFunction,
    port: u16,
    width: PortWidth,
    asserted: bool,
) -> (u32, u32)
    requires { one.now ≡ other.now }
    ensures { result.0 ≡ result.1 }
{
    (
        one.read_port(port, width, asserted),
        other.read_port(port, width, asserted),
    )
}

/// Calls [`PciFunction::write_port`] twice.
pub fn write_port_twice(
    one: &mut PciFunction,
    other: &mut PciFunction,
    port: u16,
    width: PortWidth,
    value: u32,
)
    requires { one.old ≡ other.old }
    ensures { one.new ≡ other.new }
{
    one.write_port(port, width, value);
    other.write_port(port, width, value);
}

/// Calls [`PciFunction::registers`] twice.
pub fn registers_twice(one: &PciFunction, other: &PciFunction) -> (Option<u64>, Option<u64>)
    requires { one.now ≡ other.now }
    ensures { result.0 ≡ result.1 }
{
    (one.registers(), other.registers())
}
