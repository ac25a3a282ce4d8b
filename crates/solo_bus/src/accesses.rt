// The solo bus as a `Bus`, which obeys the bus law, and as an `HonestBus`, which counts its accesses. The contracts
// of the functions are in these traits. Before an access, `prepare` plays the ticks that precede it, and counts it.

ghost use Rattle.std.specs.Prelude.{◌≡◌, length, min};

use crate::solo_bus::SoloBus;
use bus::{Bus, HonestBus};

impl Bus for SoloBus {
    ghost use Rattle.std.specs.Prelude.{◌≡◌, length, true, ⊤};
    ghost use Rattle.std.proofs.Common.{refl, ◌∙◌};
    ghost use Rattle.solo_bus.specs.SoloBuses.{Recounts};
    ghost use Rattle.solo_bus.specs.SoloLaws.{recounts_join, recounts_none};

    ghost extent = { λ bus. length bus.world.memory };

    ghost honest = { λ bus. ⊤ };

    ghost lively = { λ bus. bus.lively ≡ true };

    ghost world = { λ bus. bus.world };

    ghost happened = { λ a b past. Recounts a b past };

    // Nothing is lent to a solo bus. This member states that the bus's setting `lively` doesn't change.
    ghost lent_stays = { λ a b. b.lively ≡ a.lively };

    ghost composes = { record {
      stays = recounts_none;
      joins = recounts_join;
      lent_stays_here = λ bus. refl;
      lent_stays_on = λ a b c one two. two ∙ one;
    } };

    ghost sized = { λ bus honest. refl };

    fn size(&self) -> u64 {
        self.memory_size()
    }

    fn read(&mut self, offset: u32) -> u32 {
        self.prepare();
        self.read_now(offset)
    }

    fn write(&mut self, offset: u32, value: u32) {
        self.prepare();
        self.write_now(offset, value);
    }

    fn load(&mut self, address: u64, into: &mut [u8]) {
        self.prepare();
        self.load_now(address, into);
    }

    fn store(&mut self, address: u64, bytes: &[u8]) {
        self.prepare();
        self.store_now(address, bytes);
    }
}

impl HonestBus for SoloBus {
    ghost use Rattle.std.specs.Prelude.{min};
    ghost use Rattle.bus.specs.LivelyBuses.{most_accesses};
    ghost use Rattle.solo_bus.specs.SoloLaws.{recounts_count};

    // `min`: in contracts, the field may be any natural number, also one that is too large for a `u64`.
    ghost counted = { λ bus. min bus.accesses most_accesses };

    ghost always = { λ bus. tt };

    ghost counts = { λ a b past recounts. recounts_count a b past recounts };

    fn accesses(&self) -> u64 {
        self.access_count()
    }
}
