//! Calls of the receive filter of `rx_engine`, each made twice, from equal states: only their clauses determine the
//! outcomes.

ghost use Rattle.std.specs.Prelude.{◌≡◌, ◌≤◌, length};

use registers::GroupOffset;
use rx_filter::Filter;

/// Calls [`Filter::passes`] twice.
pub fn passes_twice(one: &Filter, other: &Filter, frame: &[u8]) -> (bool, bool)
    requires filter { one.now ≡ other.now }
    requires frame { 16 ≤ length frame.now }
    ensures { result.0 ≡ result.1 }
{
    (one.passes(frame), other.passes(frame))
}

/// Calls [`rx_filter::hash_of`] twice.
pub fn hash_of_twice(mo: GroupOffset, address: &[u8; 6]) -> (u16, u16)
    ensures { result.0 ≡ result.1 }
{
    (
        rx_filter::hash_of(mo, address),
        rx_filter::hash_of(mo, address),
    )
}
