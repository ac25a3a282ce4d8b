//! The calls of `PlayedAdapter`, each made twice. The prover knows only the clauses of a call, so these determine what
//! is compared. If a call has an observer, both observers are told the same list.

ghost use Rattle.std.specs.Prelude.{◌≡◌, List};
ghost use Rattle.played_adapter.specs.Told.{Told};

use adapter::{Fate, Outcome, StepKind};
use played_adapter::{Observer, PlayedAdapter};
use step_schedules::{Agenda, Before};

/// Calls [`PlayedAdapter::step`] twice, of two equal adapters.
pub fn step<O: Observer>(
    one: &mut PlayedAdapter,
    other: &mut PlayedAdapter,
    kind: StepKind,
    observer: &mut O,
    another: &mut O,
) -> (Outcome<()>, Outcome<()>)
    requires { one.old ≡ other.old }
    ensures outcome { result.0 ≡ result.1 }
    ensures state { one.new ≡ other.new }
    ensures told { (told : List Told) × O.heard observer.old observer.new told × O.heard another.old another.new told }
{
    (one.step(kind, observer), other.step(kind, another))
}

/// Calls [`PlayedAdapter::arrive`] twice, of two equal adapters.
pub fn arrive<O: Observer>(
    one: &mut PlayedAdapter,
    other: &mut PlayedAdapter,
    frame: &[u8],
    observer: &mut O,
    another: &mut O,
) -> (Fate, Fate)
    requires { one.old ≡ other.old }
    ensures fate { result.0 ≡ result.1 }
    ensures state { one.new ≡ other.new }
    ensures told { (told : List Told) × O.heard observer.old observer.new told × O.heard another.old another.new told }
{
    (one.arrive(frame, observer), other.arrive(frame, another))
}

/// Calls [`PlayedAdapter::deliver_all`] twice, of two equal adapters.
pub fn deliver_all<O: Observer>(
    one: &mut PlayedAdapter,
    other: &mut PlayedAdapter,
    observer: &mut O,
    another: &mut O,
)
    requires { one.old ≡ other.old }
    ensures state { one.new ≡ other.new }
    ensures told { (told : List Told) × O.heard observer.old observer.new told × O.heard another.old another.new told }
{
    one.deliver_all(observer);
    other.deliver_all(another);
}

/// Calls [`PlayedAdapter::meet_request`] twice, of two equal adapters, with equal agendas.
pub fn meet_request<O: Observer>(
    one: &mut PlayedAdapter,
    other: &mut PlayedAdapter,
    agenda: &mut Agenda,
    same_agenda: &mut Agenda,
    name: &[u8],
    observer: &mut O,
    another: &mut O,
)
    requires player { one.old ≡ other.old }
    requires agenda { agenda.old ≡ same_agenda.old }
    ensures state { one.new ≡ other.new }
    ensures agenda { agenda.new ≡ same_agenda.new }
    ensures told { (told : List Told) × O.heard observer.old observer.new told × O.heard another.old another.new told }
{
    one.meet_request(agenda, Before::Request, name, observer);
    other.meet_request(same_agenda, Before::Request, name, another);
}

/// Calls [`PlayedAdapter::read`] twice, of two equal adapters.
pub fn read<O: Observer>(
    one: &mut PlayedAdapter,
    other: &mut PlayedAdapter,
    offset: u32,
    observer: &mut O,
    another: &mut O,
) -> (u32, u32)
    requires { one.old ≡ other.old }
    ensures answer { result.0 ≡ result.1 }
    ensures state { one.new ≡ other.new }
    ensures told { (told : List Told) × O.heard observer.old observer.new told × O.heard another.old another.new told }
{
    (one.read(offset, observer), other.read(offset, another))
}

/// Calls [`PlayedAdapter::write`] twice, of two equal adapters.
pub fn write<O: Observer>(
    one: &mut PlayedAdapter,
    other: &mut PlayedAdapter,
    offset: u32,
    value: u32,
    observer: &mut O,
    another: &mut O,
)
    requires { one.old ≡ other.old }
    ensures state { one.new ≡ other.new }
    ensures told { (told : List Told) × O.heard observer.old observer.new told × O.heard another.old another.new told }
{
    one.write(offset, value, observer);
    other.write(offset, value, another);
}

/// Calls [`PlayedAdapter::load`] twice, of two equal adapters, with buffers of equal bytes.
pub fn load<O: Observer>(
    one: &mut PlayedAdapter,
    other: &mut PlayedAdapter,
    address: u64,
    into: &mut [u8],
    other_into: &mut [u8],
    observer: &mut O,
    another: &mut O,
) -> (bool, bool)
    requires state { one.old ≡ other.old }
    requires bytes { into.old ≡ other_into.old }
    ensures answer { result.0 ≡ result.1 }
    ensures bytes { into.new ≡ other_into.new }
    ensures state { one.new ≡ other.new }
    ensures told { (told : List Told) × O.heard observer.old observer.new told × O.heard another.old another.new told }
{
    (
        one.load(address, into, observer),
        other.load(address, other_into, another),
    )
}

/// Calls [`PlayedAdapter::store`] twice, of two equal adapters.
pub fn store<O: Observer>(
    one: &mut PlayedAdapter,
    other: &mut PlayedAdapter,
    address: u64,
    bytes: &[u8],
    observer: &mut O,
    another: &mut O,
) -> (bool, bool)
    requires { one.old ≡ other.old }
    ensures answer { result.0 ≡ result.1 }
    ensures state { one.new ≡ other.new }
    ensures told { (told : List Told) × O.heard observer.old observer.new told × O.heard another.old another.new told }
{
    (
        one.store(address, bytes, observer),
        other.store(address, bytes, another),
    )
}

/// Calls [`PlayedAdapter::take_put`] twice, of two equal adapters, with buffers of equal bytes.
pub fn take_put(
    one: &mut PlayedAdapter,
    other: &mut PlayedAdapter,
    into: &mut [u8],
    other_into: &mut [u8],
) -> (usize, usize)
    requires state { one.old ≡ other.old }
    requires bytes { into.old ≡ other_into.old }
    ensures length { result.0 ≡ result.1 }
    ensures state { one.new ≡ other.new }
    ensures bytes { into.new ≡ other_into.new }
{
    (one.take_put(into), other.take_put(other_into))
}
