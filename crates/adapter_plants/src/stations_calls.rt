//! Calls of `Stations` and `LentBus`, each made twice, from equal states: only their clauses determine the outcomes.
//! Also a twin of a read over a `LentBus`.

ghost use Rattle.std.specs.Prelude.{◌≡◌, ◌<◌, ◌∷◌, [], List};
ghost use Rattle.adapter.specs.Outcomes.{FrameOutcome};
ghost use Rattle.adapter.specs.Registers.{answer_at};
ghost use Rattle.adapter.specs.World.{world_after_read};
ghost use Rattle.adapter.specs.Keeping.{Keeps, view_of};
ghost use Rattle.adapter.specs.Law.{Acts};
ghost use Rattle.adapter.specs.bus_types.event.Access.TheVariants.{Reads};
ghost use Rattle.stations.specs.ToldTicks.{TickTold, tick_told};

use adapter::Bus;
use stations::{LentBus, Observer, Stations, Tick};

/// Calls [`Stations::play`] twice: both observers are told the same outcome.
pub fn play_twice<O: Observer>(
    one: &mut Stations,
    other: &mut Stations,
    tick: Tick,
    accesses: u64,
    observer: &mut O,
    another: &mut O,
)
    requires stations { one.old ≡ other.old }
    requires room { 0 < O.room_left observer.old }
    requires other_room { 0 < O.room_left another.old }
    ensures stations { one.new ≡ other.new }
    ensures told { (outcome : FrameOutcome) × O.heard observer.old observer.new (tick_told tick accesses outcome ∷ [])
        × O.heard another.old another.new (tick_told tick accesses outcome ∷ []) }
{
    one.play(tick, accesses, observer);
    other.play(tick, accesses, another);
}

/// Calls [`LentBus::finish`] twice: both observers are told the same outcomes.
pub fn finish_twice<'a, 't, O: Observer>(
    one: &mut LentBus<'a, 't, O>,
    other: &mut LentBus<'a, 't, O>,
)
    requires stations { one.old.stations.now ≡ other.old.stations.now }
    requires ticks { one.old.ticks.now ≡ other.old.ticks.now }
    requires accesses { one.old.accesses ≡ other.old.accesses }
    requires host { one.old.host ≡ other.old.host }
    ensures stations { one.new.stations.now ≡ other.new.stations.now }
    ensures ticks { one.new.ticks.now ≡ other.new.ticks.now }
    ensures accesses { one.new.accesses ≡ other.new.accesses }
    ensures host { one.new.host ≡ other.new.host }
    ensures told { (told : List TickTold) × O.heard one.old.observer.now one.new.observer.now told
        × O.heard other.old.observer.now other.new.observer.now told }
{
    one.finish();
    other.finish();
}

/// A twin of [`Bus::read`] of `LentBus`, with the same contract. The edits in `must-fail` change its body.
pub fn read<'a, 't, O: Observer>(bus: &mut LentBus<'a, 't, O>, offset: u32) -> u32
    ensures keeps { Keeps ⟦<LentBus<'a, 't, O> as Bus>⟧ bus.old bus.new }
    ensures acts { ⟦<LentBus<'a, 't, O> as Bus>⟧.honest bus.old
        → Acts (view_of ⟦<LentBus<'a, 't, O> as Bus>⟧) bus.old bus.new (Reads offset result)
        (λ before after. (result ≡ answer_at offset before.adapter) × (after ≡ world_after_read offset before)) }
{
    bus.read(offset)
}
