//! A driver over a bus that isn't honest.

use crate::fixtures::config;
use adapter::Bus;
use adapter::offsets::{EERD, ICR, MDIC};
use driver::{Driver, Handled, InitError, Parts, Received, Receiver};
use std::alloc::Global;
use std::process::Abort;
use std::test::Fail;

/// A bus without an adapter. Its registers read as `always`, or as those of an adapter with a valid EEPROM, a link that
/// is up, and RXT0 in ICR. Loads return the 16 bytes of the next slot of a list.
#[derive(Drop)]
struct Liar {
    always: Option<u32>,
    eerd: u32,
    mdic: u32,
    eerd_reads: u64,
    slots: Vec<[u8; 16]>,
    next: usize,
}

impl Bus for Liar {
    ghost use Rattle.std.specs.Prelude.{[], ⊤};
    ghost use Rattle.adapter.specs.Registers.{new_adapter};
    ghost use Rattle.mdic_phy.specs.declared.phy.Link.TheVariants.{Never};

    ghost extent = { λ bus. 22528 };

    ghost honest = { λ bus. ⊥ };

    ghost lively = { λ bus. ⊥ };

    ghost world = { λ bus. record { memory = []; adapter = new_adapter [] Never } };

    ghost happened = { λ a b past. ⊤ };

    ghost lent_stays = { λ a b. ⊤ };

    ghost composes = { record {
      stays = λ bus. tt;
      joins = λ a b c first later one two. tt;
      lent_stays_here = λ bus. tt;
      lent_stays_on = λ a b c one two. tt;
    } };

    ghost sized = { λ bus honest. absurd honest };

    fn size(&self) -> u64 {
        22_528
    }

    fn read(&mut self, offset: u32) -> u32 {
        if offset == EERD {
            self.eerd_reads = self.eerd_reads.saturating_add(1);
        }
        if let Some(value) = self.always {
            return value;
        }
        match offset {
            // DONE, and the word: those of host a's address, and word 63.
            EERD => {
                let word = match self.eerd >> 8 {
                    0 => 0x0002,
                    2 => 0x0100,
                    63 => 0xB9B8,
                    _ => 0,
                };
                word << 16 | 0x10
            }
            // R, and the link's bits if the command is a read.
            MDIC => if self.mdic >> 26 == 1 {
                0x1420_1200
            } else {
                0x1821_0024
            },
            ICR => 0x80,
            _ => 0,
        }
    }

    fn write(&mut self, offset: u32, value: u32) {
        match offset {
            EERD => self.eerd = value,
            MDIC => self.mdic = value,
            _ => {}
        }
    }

    fn load(&mut self, _address: u64, into: &mut [u8]) {
        into.fill(0);
        if into.len() == 16 {
            if let Some(slot) = self.slots.get(self.next) {
                into.copy_from_slice(slot);
                self.next = self.next.saturating_add(1);
            }
        }
    }

    fn store(&mut self, _address: u64, _bytes: &[u8]) {}
}

/// A receiver that adds the lengths of frames, and keeps no buffer.
#[derive(Drop)]
struct Lengths {
    sum: u64,
}

impl Receiver for Lengths {
    ghost use Rattle.std.specs.Prelude.{⊤};

    ghost took = { λ a b shown kept. ⊤ };

    ghost stays = { λ receiver. tt };

    ghost joins = { λ a b c shown kept later more one two. tt };

    fn take(&mut self, received: Received) -> Parts {
        self.sum = self.sum.saturating_add(u64::from(received.len));
        received.parts
    }
}

/// Returns a bus whose descriptors are these: their lengths and status bytes. The last one is repeated.
fn lying(
    alloc: Global,
    always: Option<u32>,
    descriptors: &[(u16, u8)],
    repeats: usize,
) -> Result<Liar, Fail> {
    let mut slots = Vec::new(alloc);
    for (length, status) in descriptors {
        let [low, high] = length.to_le_bytes();
        let errors = if *status == 0xFF { 0xFF } else { 0 };
        for _ in 0..repeats {
            slots.push([
                0, 0, 0, 0, 0, 0, 0, 0, low, high, 0, 0, *status, errors, 0, 0,
            ])?;
        }
    }
    Ok(Liar {
        always,
        eerd: 0,
        mdic: 0,
        eerd_reads: 0,
        slots,
        next: 0,
    })
}

/// Returns the number of frames taken by an interrupt, the number of bad runs, and the sum of the frames' lengths.
fn interrupted<B: Bus>(alloc: Global, bus: &mut B) -> Result<(u64, u64, u64), InitError> {
    let mut driver = Driver::init(alloc, bus, &config(8, 8, 16))?;
    let mut lengths = Lengths { sum: 0 };
    let handled = driver.interrupt(bus, &mut lengths);
    let taken = if let Handled::Handled { taken } = handled {
        taken
    } else {
        u64::MAX
    };
    Ok((taken, driver.bad(), lengths.sum))
}

/// Descriptors by length and status, the number of times that each is read, and what an interrupt answers.
const RUNS: [(&[(u16, u8)], usize, (u64, u64, u64)); 8] = [
    (&[(0xFFFF, 0xFF)], 100, (0, 7, 0)),
    (&[(60, 3)], 100, (7, 0, 420)),
    (&[(59, 3)], 1, (0, 1, 0)),
    (&[(60, 3)], 1, (1, 0, 60)),
    (&[(257, 3)], 1, (0, 1, 0)),
    (&[(255, 1), (60, 3)], 1, (0, 1, 0)),
    (&[(256, 1)], 6, (0, 1, 0)),
    (&[(256, 1), (238, 3)], 1, (1, 0, 494)),
];

#[test]
fn a_driver_counts_bad_runs_of_descriptors(rt: HostRuntime) -> Result<(), Fail> {
    for (descriptors, repeats, wanted) in RUNS {
        let mut bus = lying(rt.alloc(), None, descriptors, repeats)?;
        let answer = interrupted(rt.alloc(), &mut bus);
        assert!(rt; answer == Ok(wanted), "{descriptors:?}");
    }
    for (always, error, reads) in [
        (0xFFFF_FFFF, InitError::Checksum, 64),
        (0, InitError::EepromTimeout, 1000),
    ] {
        let mut bus = lying(rt.alloc(), Some(always), &[], 1)?;
        assert!(rt; interrupted(rt.alloc(), &mut bus) == Err(error) && bus.eerd_reads == reads);
    }
    Ok(())
}
