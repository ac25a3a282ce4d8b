//! The code of the README of `solo_bus`, word for word.

use adapter::offsets::EERD;
use adapter::{Adapter, Bus, SoloBus, SoloTick, StepKind};
use dma_memory::HostMemory;
use eeprom::Image;
use mdic_phy::Link;
use std::test::Fail;

#[test]
fn the_code_of_the_readme_of_solo_bus(rt: HostRuntime) -> Result<(), Fail> {
    let memory = HostMemory::new(rt.alloc(), 4096)?;
    let image = Image::with_address([0x02, 0, 0, 0, 0, 0x01]);
    let adapter = Adapter::new(rt.alloc(), &image, Link::Never)?;
    let mut bus = SoloBus::new(rt.alloc(), adapter, memory, false)?; // it plays nothing by itself
    bus.play(&[SoloTick::Go, SoloTick::Step(StepKind::EepromTick)]); // before the second access from here
    bus.write(EERD, 1); // begins a read of word 0
    assert!(rt; bus.read(EERD) == 0x0002_0010); // the word, and DONE
    Ok(())
}
