//! Calls of MDIC and the PHY, each made twice, from equal states: only their clauses determine the outcomes.

ghost use Rattle.std.specs.Prelude.{◌≡◌};

use mdic_phy::{Link, Mdic, Phy, Ticked};

/// Calls [`Phy::new`] twice.
pub fn new_twice(link: Link) -> (Phy, Phy)
    ensures { result.0 ≡ result.1 }
{
    (Phy::new(link), Phy::new(link))
}

/// Calls [`Phy::read`] twice.
pub fn read_twice(one: &mut Phy, other: &mut Phy, register: u8) -> (u16, u16)
    requires { one.old ≡ other.old }
    ensures answer { result.0 ≡ result.1 }
    ensures state { one.new ≡ other.new }
{
    (one.read(register), other.read(register))
}

/// Calls [`Phy::write`] twice.
pub fn write_twice(one: &mut Phy, other: &mut Phy, register: u8, value: u16)
    requires { one.old ≡ other.old }
    ensures { one.new ≡ other.new }
{
    one.write(register, value);
    other.write(register, value);
}

/// Calls [`Phy::tick`] twice.
pub fn tick_twice(one: &mut Phy, other: &mut Phy) -> (bool, bool)
    requires { one.old ≡ other.old }
    ensures outcome { result.0 ≡ result.1 }
    ensures state { one.new ≡ other.new }
{
    (one.tick(), other.tick())
}

/// Calls [`Mdic::write`] twice.
pub fn write_mdic_twice(one: &mut Mdic, other: &mut Mdic, value: u32)
    requires { one.old ≡ other.old }
    ensures { one.new ≡ other.new }
{
    one.write(value);
    other.write(value);
}

/// Calls [`Mdic::tick`] twice.
pub fn tick_mdic_twice(
    one: &mut Mdic,
    other: &mut Mdic,
    phy: &mut Phy,
    other_phy: &mut Phy,
) -> (Option<Ticked>, Option<Ticked>)
    requires mdic { one.old ≡ other.old }
    requires phy { phy.old ≡ other_phy.old }
    ensures outcome { result.0 ≡ result.1 }
    ensures mdic { one.new ≡ other.new }
    ensures phy { phy.new ≡ other_phy.new }
{
    (one.tick(phy), other.tick(other_phy))
}
