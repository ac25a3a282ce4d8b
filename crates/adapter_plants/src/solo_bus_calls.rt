//! Calls of `SoloBus`, and its accesses as a `Bus`, each made twice, from equal states: only their clauses determine
//! the outcomes.

ghost use Rattle.std.specs.Prelude.{◌≡◌, ◌+◌, ◌≤◌, IfOk, length};
ghost use Rattle.adapter_plants.specs.OneAccess.{AreOneState};

use adapter::{Adapter, Bus, Fate, MOST_TICKS, Outcome, SoloBus, SoloTick, StepKind};
use descriptors::Frame;
use dma_memory::HostMemory;
use std::alloc::{AllocError, Global};

/// Calls [`SoloBus::new`] twice. The contract doesn't state when an allocation fails.
pub fn new_twice(
    alloc: Global,
    adapter: Adapter,
    other_adapter: Adapter,
    memory: HostMemory,
    other_memory: HostMemory,
    lively: bool,
) -> (Result<SoloBus, AllocError>, Result<SoloBus, AllocError>)
    requires adapter { adapter ≡ other_adapter }
    requires memory { memory ≡ other_memory }
    ensures { IfOk result.0 (λ bus. IfOk result.1 (λ other. bus ≡ other)) }
{
    (
        SoloBus::new(alloc, adapter, memory, lively),
        SoloBus::new(alloc, other_adapter, other_memory, lively),
    )
}

/// Calls [`SoloBus::step`] twice.
#[tactic(auto, using(crate::specs::OneAnswer::one_answer))]
pub fn step_twice(
    one: &mut SoloBus,
    other: &mut SoloBus,
    kind: StepKind,
) -> (Outcome<()>, Outcome<()>)
    requires { one.old ≡ other.old }
    ensures outcome { result.0 ≡ result.1 }
    ensures state { one.new ≡ other.new }
{
    (one.step(kind), other.step(kind))
}

/// Calls [`SoloBus::arrive`] twice.
#[tactic(auto, using(crate::specs::OneFate::one_fate))]
pub fn arrive_twice(one: &mut SoloBus, other: &mut SoloBus, frame: &[u8]) -> (Fate, Fate)
    requires { one.old ≡ other.old }
    ensures fate { result.0 ≡ result.1 }
    ensures state { one.new ≡ other.new }
{
    (one.arrive(frame), other.arrive(frame))
}

/// Calls [`SoloBus::take_put`] twice.
pub fn take_put_twice(one: &mut SoloBus, other: &mut SoloBus) -> (Option<Frame>, Option<Frame>)
    requires { one.old ≡ other.old }
    ensures frame { result.0 ≡ result.1 }
    ensures state { one.new ≡ other.new }
{
    (one.take_put(), other.take_put())
}

/// Calls [`SoloBus::play`] twice.
pub fn play_twice(one: &mut SoloBus, other: &mut SoloBus, ticks: &[SoloTick])
    requires state { one.old ≡ other.old }
    requires room { length one.old.waiting + length ticks.now ≤ MOST_TICKS }
    ensures { one.new ≡ other.new }
{
    one.play(ticks);
    other.play(ticks);
}

/// Calls [`SoloBus::finish`] twice.
pub fn finish_twice(one: &mut SoloBus, other: &mut SoloBus)
    requires { one.old ≡ other.old }
    ensures { one.new ≡ other.new }
{
    one.finish();
    other.finish();
}

/// Calls [`SoloBus::line`] twice.
pub fn line_twice(one: &SoloBus, other: &SoloBus) -> (bool, bool)
    requires { one.now ≡ other.now }
    ensures { result.0 ≡ result.1 }
{
    (one.line(), other.line())
}

/// Calls [`Bus::read`] of `SoloBus` twice.
pub fn read_twice(one: &mut SoloBus, other: &mut SoloBus, offset: u32) -> (u32, u32)
    requires { one.old ≡ other.old }
    ensures answer { result.0 ≡ result.1 }
    ensures state { AreOneState one.new other.new }
{
    (one.read(offset), other.read(offset))
}

/// Calls [`Bus::write`] of `SoloBus` twice.
pub fn write_twice(one: &mut SoloBus, other: &mut SoloBus, offset: u32, value: u32)
    requires { one.old ≡ other.old }
    ensures { AreOneState one.new other.new }
{
    one.write(offset, value);
    other.write(offset, value);
}

/// Calls [`Bus::load`] of `SoloBus` twice.
pub fn load_twice(
    one: &mut SoloBus,
    other: &mut SoloBus,
    address: u64,
    into: &mut [u8],
    other_into: &mut [u8],
)
    requires state { one.old ≡ other.old }
    requires length { length into.old ≡ length other_into.old }
    requires inside { address + length into.old ≤ length one.old.world.memory }
    ensures bytes { into.new ≡ other_into.new }
    ensures state { AreOneState one.new other.new }
{
    one.load(address, into);
    other.load(address, other_into);
}

/// Calls [`Bus::store`] of `SoloBus` twice.
pub fn store_twice(one: &mut SoloBus, other: &mut SoloBus, address: u64, bytes: &[u8])
    requires state { one.old ≡ other.old }
    requires inside { address + length bytes.now ≤ length one.old.world.memory }
    ensures { AreOneState one.new other.new }
{
    one.store(address, bytes);
    other.store(address, bytes);
}
