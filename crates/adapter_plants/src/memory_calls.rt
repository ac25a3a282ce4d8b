//! Calls of `dma_memory`, each made twice, from equal states: only their clauses determine the outcomes.

ghost use Rattle.std.specs.Prelude.{◌≡◌, ◌<◌, ◌↔◌, IfOk, IsNone, IsOk};
ghost use Rattle.dma_memory.specs.Owners.{HaveSameNumbers, copies};

use dma_memory::{BufId, HostMemory, Layout, LayoutError, OutOfRange, Pool};

/// Calls [`HostMemory::load`] twice.
pub fn load_twice(
    one: &HostMemory,
    other: &HostMemory,
    address: u64,
    into: &mut [u8],
    other_into: &mut [u8],
) -> (Result<(), OutOfRange>, Result<(), OutOfRange>)
    requires memory { one.now ≡ other.now }
    requires bytes { into.old ≡ other_into.old }
    ensures outcome { result.0 ≡ result.1 }
    ensures bytes { into.new ≡ other_into.new }
{
    (one.load(address, into), other.load(address, other_into))
}

/// Calls [`HostMemory::store`] twice.
pub fn store_twice(
    one: &mut HostMemory,
    other: &mut HostMemory,
    address: u64,
    bytes: &[u8],
) -> (Result<(), OutOfRange>, Result<(), OutOfRange>)
    requires memory { one.old ≡ other.old }
    ensures outcome { result.0 ≡ result.1 }
    ensures memory { one.new ≡ other.new }
{
    (one.store(address, bytes), other.store(address, bytes))
}

/// Calls [`HostMemory::view`] twice.
pub fn view_twice<'a>(
    one: &'a HostMemory,
    other: &'a HostMemory,
    address: u64,
    count: usize,
) -> (Result<&'a [u8], OutOfRange>, Result<&'a [u8], OutOfRange>)
    requires memory { one.now ≡ other.now }
    ensures outcome { IsOk result.0 ↔ IsOk result.1 }
    ensures bytes { IfOk result.0 (λ bytes. IfOk result.1 (λ others. bytes.now ≡ others.now)) }
{
    (one.view(address, count), other.view(address, count))
}

/// Calls [`Layout::of`] twice.
pub fn layout_twice(
    rx: u16,
    tx: u16,
    buffers: u16,
) -> (Result<Layout, LayoutError>, Result<Layout, LayoutError>)
    ensures { result.0 ≡ result.1 }
{
    (Layout::of(rx, tx, buffers), Layout::of(rx, tx, buffers))
}

/// Calls [`Layout::transmit_buffer`] twice.
pub fn transmit_buffer_twice(one: &Layout, other: &Layout, slot: u16) -> (u64, u64)
    requires layout { one.now ≡ other.now }
    requires known { slot < one.now.tx }
    ensures { result.0 ≡ result.1 }
{
    (one.transmit_buffer(slot), other.transmit_buffer(slot))
}

/// Calls [`Layout::receive_buffer`] twice.
pub fn receive_buffer_twice(one: &Layout, other: &Layout, number: u16) -> (u64, u64)
    requires layout { one.now ≡ other.now }
    requires known { number < one.now.buffers }
    ensures { result.0 ≡ result.1 }
{
    (one.receive_buffer(number), other.receive_buffer(number))
}

/// Calls [`Layout::size`] twice.
pub fn size_twice(one: &Layout, other: &Layout) -> (u64, u64)
    requires { one.now ≡ other.now }
    ensures { result.0 ≡ result.1 }
{
    (one.size(), other.size())
}

/// Calls [`Pool::take`] twice. The contract doesn't state which number `take` returns. This number determines which
/// numbers remain in the pool.
pub fn take_twice(one: &mut Pool, other: &mut Pool) -> (Option<BufId>, Option<BufId>)
    requires { one.old ≡ other.old }
    ensures outcome { IsNone result.0 ↔ IsNone result.1 }
    ensures free { result.0 ≡ result.1 → HaveSameNumbers one.new.free other.new.free }
    ensures buffers { one.new.buffers ≡ other.new.buffers }
{
    (one.take(), other.take())
}

/// Calls [`Pool::give`] twice. The contract doesn't state the order of the numbers in the pool.
pub fn give_twice(one: &mut Pool, other: &mut Pool, buffer: BufId, other_buffer: BufId)
    requires pool { one.old ≡ other.old }
    requires buffer { buffer ≡ other_buffer }
    requires known { buffer < one.old.buffers }
    requires out { copies buffer one.old.free ≡ 0 }
    ensures free { HaveSameNumbers one.new.free other.new.free }
    ensures buffers { one.new.buffers ≡ other.new.buffers }
{
    one.give(buffer);
    other.give(other_buffer);
}
