// A bus over a machine: before each access, a tick of the EEPROM and a tick of the PHY are played.

ghost use Rattle.std.specs.Prelude.{min};

use crate::bus::{Bus, HonestBus};
use crate::machine::Machine;
use adapter_model::StepKind;

/// A machine, lent to its driver. Before each access, a tick of the EEPROM and a tick of the PHY are played. No other
/// step is played, and no frame arrives.
#[derive(Drop)]
pub struct LivelyBus<'a> {
    /// The machine.
    pub machine: &'a mut Machine,
    /// The number of accesses so far, up to the greatest `u64`.
    pub accesses: u64,
}

impl<'a> LivelyBus<'a> {
    ghost use Rattle.bus.specs.LivelyBuses.{IsPrepared};

    /// Plays a tick of the EEPROM and a tick of the PHY, and counts the access that follows. The count saturates at the
    /// greatest `u64`.
    fn prepare(&mut self)
        ensures { IsPrepared self.old self.new }
    {
        // `true`: the wire has room. These steps put no frame onto the wire, and their outcomes aren't needed.
        self.machine.step(StepKind::EepromTick, true);
        self.machine.step(StepKind::PhyTick, true);
        self.accesses = self.accesses.saturating_add(1);
    }
}

impl<'a> Bus for LivelyBus<'a> {
    ghost use Rattle.std.specs.Prelude.{⊤};
    ghost use Rattle.std.proofs.Common.{refl};
    ghost use Rattle.bus.specs.LivelyBuses.{IsSameMachine, Lives, machine_bytes, machine_world};
    ghost use Rattle.bus.specs.LivelyBusLaws.{lives_join, lives_none, same_here, same_on};

    ghost extent = { machine_bytes };

    ghost honest = { λ bus. ⊤ };

    ghost lively = { λ bus. ⊤ };

    ghost world = { machine_world };

    ghost happened = { Lives };

    ghost lent_stays = { IsSameMachine };

    ghost composes = { record {
      stays = lives_none;
      joins = lives_join;
      lent_stays_here = same_here;
      lent_stays_on = same_on;
    } };

    ghost sized = { λ bus honest. refl };

    fn size(&self) -> u64 {
        self.machine.size()
    }

    fn read(&mut self, offset: u32) -> u32 {
        self.prepare();
        self.machine.read(offset)
    }

    fn write(&mut self, offset: u32, value: u32) {
        self.prepare();
        self.machine.write(offset, value);
    }

    fn load(&mut self, address: u64, into: &mut [u8]) {
        self.prepare();
        self.machine.load(address, into);
    }

    fn store(&mut self, address: u64, bytes: &[u8]) {
        self.prepare();
        self.machine.store(address, bytes);
    }
}

impl<'a> HonestBus for LivelyBus<'a> {
    ghost use Rattle.bus.specs.LivelyBuses.{most_accesses};
    ghost use Rattle.bus.specs.LivelyBusLaws.{lives_count};

    // `min`: in contracts, the field may be any natural number, also one that is too large for a `u64`.
    ghost counted = { λ bus. min bus.accesses most_accesses };

    ghost always = { λ bus. tt };

    ghost counts = { lives_count };

    fn accesses(&self) -> u64 {
        self.accesses
    }
}
