//! Calls of `descriptors`, each made twice, from equal states: only their clauses determine the outcomes.

ghost use Rattle.std.specs.Prelude.{◌≡◌, ◌<◌};
ghost use Rattle.descriptors.specs.Ring.{count_of};

use descriptors::{Frame, Ring, RxDesc, TxDesc};

/// Calls [`RxDesc::to_bytes`] twice.
pub fn receive_bytes_twice(one: &RxDesc, other: &RxDesc) -> ([u8; 16], [u8; 16])
    requires { one.now ≡ other.now }
    ensures { result.0 ≡ result.1 }
{
    (one.to_bytes(), other.to_bytes())
}

/// Calls [`TxDesc::to_bytes`] twice.
pub fn transmit_bytes_twice(one: &TxDesc, other: &TxDesc) -> ([u8; 16], [u8; 16])
    requires { one.now ≡ other.now }
    ensures { result.0 ≡ result.1 }
{
    (one.to_bytes(), other.to_bytes())
}

/// Calls [`RxDesc::from_bytes`] and [`TxDesc::from_bytes`], each twice.
pub fn of_bytes_twice(one: &[u8; 16], other: &[u8; 16]) -> ((RxDesc, RxDesc), (TxDesc, TxDesc))
    requires { one.now ≡ other.now }
    ensures receive { result.0.0 ≡ result.0.1 }
    ensures transmit { result.1.0 ≡ result.1.1 }
{
    (
        (RxDesc::from_bytes(one), RxDesc::from_bytes(other)),
        (TxDesc::from_bytes(one), TxDesc::from_bytes(other)),
    )
}

/// Calls [`Ring::has_valid_indices`] twice.
pub fn has_valid_indices_twice(one: &Ring, other: &Ring) -> (bool, bool)
    requires { one.now ≡ other.now }
    ensures { result.0 ≡ result.1 }
{
    (one.has_valid_indices(), other.has_valid_indices())
}

/// Calls [`Ring::next`] twice.
pub fn next_twice(one: &Ring, other: &Ring, index: u16) -> (u16, u16)
    requires ring { one.now ≡ other.now }
    requires slot { index < count_of one.now }
    ensures { result.0 ≡ result.1 }
{
    (one.next(index), other.next(index))
}

/// Calls [`Ring::distance`] twice.
pub fn distance_twice(one: &Ring, other: &Ring, from: u16, to: u16) -> (u32, u32)
    requires ring { one.now ≡ other.now }
    requires from_slot { from < count_of one.now }
    requires to_slot { to < count_of one.now }
    ensures { result.0 ≡ result.1 }
{
    (one.distance(from, to), other.distance(from, to))
}

/// Calls [`Ring::descriptor`] twice.
pub fn descriptor_twice(
    one: &Ring,
    other: &Ring,
    index: u16,
    size: u64,
) -> (Option<u64>, Option<u64>)
    requires { one.now ≡ other.now }
    ensures { result.0 ≡ result.1 }
{
    (one.descriptor(index, size), other.descriptor(index, size))
}

/// Calls [`Frame::try_from_slice`] twice.
pub fn frame_twice(one: &[u8], other: &[u8]) -> (Option<Frame>, Option<Frame>)
    requires { one.now ≡ other.now }
    ensures { result.0 ≡ result.1 }
{
    (Frame::try_from_slice(one), Frame::try_from_slice(other))
}
