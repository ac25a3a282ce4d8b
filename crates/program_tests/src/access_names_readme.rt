//! The code of the README of `access_names`, word for word.

use access_names::{Engine, EngineFault, Reason, Target, fault_of, memory_target};
use adapter::offsets::{ICR, RDBAL, RDLEN, TCTL, TDLEN, TDT};
use adapter::{Adapter, Machine, Outcome, StepKind};
use bitflags::Flags;
use dma_memory::HostMemory;
use eeprom::Image;
use mdic_phy::Link;
use registers::Tctl;
use std::test::Fail;

#[test]
fn the_code_of_the_readme_of_access_names(rt: HostRuntime) -> Result<(), Fail> {
    let status = Target::Descriptor {
        ring: Engine::Receive,
        index: 1,
        byte: 8,
    };
    let name = status.to_string(rt.alloc())?;
    assert!(rt; name.as_str() == "rx[1]+8");
    assert!(rt; Target::Register(ICR).name().as_slice() == b"ICR".as_slice());
    // A receive ring of eight descriptors at address 0x100.
    let memory = HostMemory::new(rt.alloc(), 4_096)?;
    let image = Image::with_address([0x02, 0, 0, 0, 0, 0x01]);
    let adapter = Adapter::new(rt.alloc(), &image, Link::Never)?;
    let mut machine = Machine::new(adapter, memory);
    machine.write(RDBAL, 0x100);
    machine.write(RDLEN, 128);
    assert!(rt; memory_target(&machine, 0x118) == status);
    Ok(())
}

#[test]
fn the_code_of_the_readme_of_access_names_where_a_step_is_a_fault(
    rt: HostRuntime,
) -> Result<(), Fail> {
    let memory = HostMemory::new(rt.alloc(), 4_096)?;
    let image = Image::with_address([0x02, 0, 0, 0, 0, 0x01]);
    let adapter = Adapter::new(rt.alloc(), &image, Link::Never)?;
    let mut machine = Machine::new(adapter, memory);
    // A ring of eight descriptors at address 0. The first one is the adapter's, and contains zeros.
    machine.write(TDLEN, 128);
    machine.write(TDT, 1);
    machine.write(TCTL, Tctl::EN.bits());
    let outcome = machine.step(StepKind::TxTake, true);
    let fault = EngineFault {
        engine: Engine::Transmit,
        index: 0,
        reason: Reason::Eop,
    };
    assert!(rt; outcome == Outcome::Fault && fault_of(&machine, StepKind::TxTake) == Some(fault));
    Ok(())
}
