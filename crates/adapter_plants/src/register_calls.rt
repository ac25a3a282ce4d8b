//! Calls of `registers`, each made twice, from equal states: only their clauses determine the outcomes.

ghost use Rattle.std.specs.Prelude.{◌≡◌};

use registers::{Cause, Causes, Counter, Ctrl, GroupOffset, Rctl, Tctl};

/// Calls [`Ctrl::kept`], [`Rctl::kept`] and [`Tctl::kept`], each twice.
pub fn kept_twice(value: u32) -> ((Ctrl, Ctrl), (Rctl, Rctl), (Tctl, Tctl))
    ensures control { result.0.0 ≡ result.0.1 }
    ensures receive { result.1.0 ≡ result.1.1 }
    ensures transmit { result.2.0 ≡ result.2.1 }
{
    (
        (Ctrl::kept(value), Ctrl::kept(value)),
        (Rctl::kept(value), Rctl::kept(value)),
        (Tctl::kept(value), Tctl::kept(value)),
    )
}

/// Calls [`Rctl::group_offset`] twice.
pub fn group_offset_twice(rctl: Rctl) -> (GroupOffset, GroupOffset)
    ensures { result.0 ≡ result.1 }
{
    (rctl.group_offset(), rctl.group_offset())
}

/// Calls [`Counter::bump`] twice.
pub fn bump_twice(one: &mut Counter, other: &mut Counter)
    requires { one.old ≡ other.old }
    ensures { one.new ≡ other.new }
{
    one.bump();
    other.bump();
}

/// Calls [`Causes::raise`] twice.
pub fn raise_twice(one: &mut Causes, other: &mut Causes, cause: Cause)
    requires { one.old ≡ other.old }
    ensures { one.new ≡ other.new }
{
    one.raise(cause);
    other.raise(cause);
}

/// Calls [`Causes::read`] twice.
pub fn read_twice(one: &mut Causes, other: &mut Causes) -> (u32, u32)
    requires { one.old ≡ other.old }
    ensures answer { result.0 ≡ result.1 }
    ensures state { one.new ≡ other.new }
{
    (one.read(), other.read())
}

/// Calls [`Causes::clear_written`] twice.
pub fn clear_written_twice(one: &mut Causes, other: &mut Causes, value: u32)
    requires { one.old ≡ other.old }
    ensures { one.new ≡ other.new }
{
    one.clear_written(value);
    other.clear_written(value);
}

/// Calls [`Causes::set`] twice.
pub fn set_twice(one: &mut Causes, other: &mut Causes, value: u32)
    requires { one.old ≡ other.old }
    ensures { one.new ≡ other.new }
{
    one.set(value);
    other.set(value);
}

/// Calls [`Causes::mask`] twice.
pub fn mask_twice(one: &mut Causes, other: &mut Causes, value: u32)
    requires { one.old ≡ other.old }
    ensures { one.new ≡ other.new }
{
    one.mask(value);
    other.mask(value);
}

/// Calls [`Causes::unmask`] twice.
pub fn unmask_twice(one: &mut Causes, other: &mut Causes, value: u32)
    requires { one.old ≡ other.old }
    ensures { one.new ≡ other.new }
{
    one.unmask(value);
    other.unmask(value);
}

/// Calls [`Causes::line`] twice.
pub fn line_twice(one: &Causes, other: &Causes) -> (bool, bool)
    requires { one.now ≡ other.now }
    ensures { result.0 ≡ result.1 }
{
    (one.line(), other.line())
}
