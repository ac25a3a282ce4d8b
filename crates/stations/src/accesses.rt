// The lent bus as a bus: its accesses, and the bus law, which it obeys.

ghost use Rattle.std.specs.Prelude.{min};

use crate::lent_bus::LentBus;
use crate::observer::Observer;
use adapter::{Bus, HonestBus};

impl<'a, 't, O: Observer> Bus for LentBus<'a, 't, O> {
    ghost use Rattle.std.specs.Prelude.{⊤};
    ghost use Rattle.std.proofs.Common.{refl};
    ghost use Rattle.stations.specs.LentBuses.{HappenedLent, SameLent, bytes_here, world_here};
    ghost use Rattle.stations.specs.LentBusLaws.{lent_happened_join, lent_happened_none, same_lent_here, same_lent_on};

    ghost extent = { bytes_here };

    ghost honest = { λ bus. ⊤ };

    // The bus plays only the ticks that it contains, so it isn't lively.
    ghost lively = { λ bus. ⊥ };

    ghost world = { world_here };

    ghost happened = { HappenedLent };

    ghost lent_stays = { SameLent };

    ghost composes = { record {
      stays = lent_happened_none O.composes;
      joins = lent_happened_join O.composes;
      lent_stays_here = same_lent_here;
      lent_stays_on = same_lent_on;
    } };

    ghost sized = { λ bus honest. refl };

    // `size` isn't an access. Each other call is one access: `prepare` plays the ticks that come before this access,
    // and counts the access.
    fn size(&self) -> u64 {
        self.stations.machine(self.host).size()
    }

    fn read(&mut self, offset: u32) -> u32 {
        self.prepare();
        self.stations.read(self.host, offset)
    }

    fn write(&mut self, offset: u32, value: u32) {
        self.prepare();
        self.stations.write(self.host, offset, value);
    }

    fn load(&mut self, address: u64, into: &mut [u8]) {
        self.prepare();
        self.stations.machine(self.host).load(address, into);
    }

    fn store(&mut self, address: u64, bytes: &[u8]) {
        self.prepare();
        self.stations.store(self.host, address, bytes);
    }
}

impl<'a, 't, O: Observer> HonestBus for LentBus<'a, 't, O> {
    ghost use Rattle.std.specs.Prelude.{min};
    ghost use Rattle.adapter.specs.LivelyBuses.{most_accesses};
    ghost use Rattle.stations.specs.LentBusLaws.{lent_happened_count};

    // `min`: in contracts, the field may be any natural number, also one that is too large for a `u64`.
    ghost counted = { λ bus. min bus.accesses most_accesses };

    ghost always = { λ bus. tt };

    ghost counts = { lent_happened_count };

    fn accesses(&self) -> u64 {
        self.accesses
    }
}
