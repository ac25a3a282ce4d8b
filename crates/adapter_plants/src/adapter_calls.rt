//! Calls of `Adapter`, each made twice, from equal states: only their clauses determine the outcomes. Only `has_work`
//! is called once, before a step: it states whether the step's outcome is `Nothing`.

ghost use Rattle.std.specs.Prelude.{◌≡◌, ◌≢◌, ◌↔◌, IfSome, IsNone, IsTrue};
ghost use Rattle.adapter.specs.model_types.outcome.Outcome.TheVariants.{Nothing};

use adapter::{Adapter, Fate, Outcome, StepKind};
use descriptors::Frame;
use dma_memory::HostMemory;
use std::hash::Hasher;

/// Calls [`Adapter::step`] twice.
#[tactic(auto, using(crate::specs::OneAnswer::answers_are_one))]
pub fn step_twice(
    one: &mut Adapter,
    other: &mut Adapter,
    kind: StepKind,
    memory: &mut HostMemory,
    other_memory: &mut HostMemory,
    wire_free: bool,
) -> (Outcome<Frame>, Outcome<Frame>)
    requires adapter { one.old ≡ other.old }
    requires memory { memory.old ≡ other_memory.old }
    ensures outcome { result.0 ≡ result.1 }
    ensures adapter { one.new ≡ other.new }
    ensures memory { memory.new ≡ other_memory.new }
{
    (
        one.step(kind, memory, wire_free),
        other.step(kind, other_memory, wire_free),
    )
}

/// Calls [`Adapter::step_unframed`] twice.
#[tactic(auto, using(crate::specs::OneAnswer::one_answer))]
pub fn step_unframed_twice(
    one: &mut Adapter,
    other: &mut Adapter,
    kind: StepKind,
    memory: &mut HostMemory,
    other_memory: &mut HostMemory,
    wire_free: bool,
) -> (Outcome<()>, Outcome<()>)
    requires adapter { one.old ≡ other.old }
    requires memory { memory.old ≡ other_memory.old }
    ensures outcome { result.0 ≡ result.1 }
    ensures adapter { one.new ≡ other.new }
    ensures memory { memory.new ≡ other_memory.new }
{
    (
        one.step_unframed(kind, memory, wire_free),
        other.step_unframed(kind, other_memory, wire_free),
    )
}

/// Calls [`Adapter::arrive`] twice.
#[tactic(auto, using(crate::specs::OneFate::one_fate))]
pub fn arrive_twice(one: &mut Adapter, other: &mut Adapter, frame: &[u8]) -> (Fate, Fate)
    requires { one.old ≡ other.old }
    ensures fate { result.0 ≡ result.1 }
    ensures adapter { one.new ≡ other.new }
{
    (one.arrive(frame), other.arrive(frame))
}

/// Calls [`Adapter::read`] twice.
pub fn read_twice(one: &mut Adapter, other: &mut Adapter, offset: u32) -> (u32, u32)
    requires { one.old ≡ other.old }
    ensures answer { result.0 ≡ result.1 }
    ensures adapter { one.new ≡ other.new }
{
    (one.read(offset), other.read(offset))
}

/// Calls [`Adapter::value`] twice.
pub fn value_twice(one: &Adapter, other: &Adapter, offset: u32) -> (u32, u32)
    requires { one.now ≡ other.now }
    ensures { result.0 ≡ result.1 }
{
    (one.value(offset), other.value(offset))
}

/// Calls [`Adapter::write`] twice.
pub fn write_twice(one: &mut Adapter, other: &mut Adapter, offset: u32, value: u32)
    requires { one.old ≡ other.old }
    ensures { one.new ≡ other.new }
{
    one.write(offset, value);
    other.write(offset, value);
}

/// Calls [`Adapter::line`] twice.
pub fn line_twice(one: &Adapter, other: &Adapter) -> (bool, bool)
    requires { one.now ≡ other.now }
    ensures { result.0 ≡ result.1 }
{
    (one.line(), other.line())
}

/// Calls [`Adapter::to_put`] twice.
pub fn to_put_twice<'a>(
    one: &'a Adapter,
    other: &'a Adapter,
) -> (Option<&'a [u8]>, Option<&'a [u8]>)
    requires { one.now ≡ other.now }
    ensures none { IsNone result.0 ↔ IsNone result.1 }
    ensures frame { IfSome result.0 (λ frame. IfSome result.1 (λ another. frame.now ≡ another.now)) }
{
    (one.to_put(), other.to_put())
}

/// Calls [`Adapter::has_work`], and then [`Adapter::step`]: the result of the first call is true if and only if the
/// outcome isn't `Nothing`.
pub fn has_work(
    adapter: &mut Adapter,
    kind: StepKind,
    memory: &mut HostMemory,
    wire_free: bool,
) -> (bool, Outcome<Frame>)
    ensures { IsTrue result.0 ↔ (result.1 ≢ Nothing) }
{
    (
        adapter.has_work(kind),
        adapter.step(kind, memory, wire_free),
    )
}

/// Calls [`Adapter::feed`] twice.
pub fn feed_twice<H: Hasher>(one: &Adapter, other: &Adapter, hasher: &mut H, another: &mut H)
    requires adapter { one.now ≡ other.now }
    requires hasher { hasher.old ≡ another.old }
    ensures { hasher.new ≡ another.new }
{
    one.feed(hasher);
    other.feed(another);
}
