//! Initialization of an adapter: its registers afterwards, and why it is refused.

use crate::fixtures::{A, NEEDED, bus_of, config, lively_bus};
use adapter::offsets::{
    CTRL, ICR, IMS, PBA, RAL, RCTL, RDBAL, RDH, RDLEN, RDT, STATUS, TCTL, TDBAL, TDH, TDLEN, TDT,
};
use adapter::{Adapter, Bus, HonestBus};
use arrayvec::ArrayVec;
use driver::{Config, Driver, InitError};
use eeprom::{Image, checksum_ok};
use mdic_phy::Link;
use scenario::Scenario;
use std::alloc::Global;
use std::process::Abort;
use std::test::Fail;
use wire::{HostPlan, Lan, PlanError, bring_up_host};

/// Two hosts on one wire. Host 1 has a socket for all frames.
const TWO: &[u8] = b"host a 02:00:00:00:00:01 w\nhost b 02:00:00:00:00:02 w\nsocket b all\n";

/// Registers after an initialization with rings of 8 descriptors. RAH(0) depends on the address.
const REGISTERS: [(u32, u32); 14] = [
    (RDLEN, 128),
    (TDLEN, 128),
    (RDBAL, 0),
    (TDBAL, 0x80),
    (RDH, 0),
    (RDT, 7),
    (RCTL, 0x0403_8002),
    (TCTL, 0x0004_00FA),
    (IMS, 0xD1),
    (CTRL, 0x60),
    (STATUS, 0x83),
    (PBA, 0x0010_0030),
    (RAL, 0x0000_0002),
    (ICR, 0x0000_0004),
];

/// Registers after an initialization with rings of 4,096 descriptors.
const LARGE: [(u32, u32); 4] = [
    (RDLEN, 0x1_0000),
    (TDLEN, 0x1_0000),
    (RDT, 0x0FFF),
    (TDBAL, 0x1_0000),
];

/// Checks the registers of an adapter that was just initialized.
fn check_registers(rt: &impl Abort, adapter: &Adapter, rah: u32) {
    for (offset, wanted) in REGISTERS {
        assert!(rt; adapter.value(offset) == wanted, "{offset:x}");
    }
    assert!(rt; adapter.value(RAL + 4) == rah && !adapter.line());
}

/// Returns the number of receive descriptors offered, or why the initialization failed. The function is generic, so
/// that the proof uses only the contract of a bus.
fn initialize<B: Bus>(alloc: Global, bus: &mut B, config: &Config) -> Result<usize, InitError> {
    Ok(Driver::init(alloc, bus, config)?.receiving())
}

/// Initializes an adapter of host `a` on a bus with this memory.
fn adapter_on_bus(alloc: Global, size: u64, config: &Config) -> Result<Adapter, Fail> {
    let mut bus = lively_bus(alloc, size)?;
    initialize(alloc, &mut bus, config)?;
    Ok(bus.into_parts().0)
}

/// Initializes the adapter of a host of a network.
fn adapter_of_host(rt: &impl Abort, alloc: Global, host: &HostPlan) -> Result<Adapter, Fail> {
    assert!(rt; host.config.layout(u64::MAX).is_ok() && host.link == Link::After(1));
    let (_, machine) = bring_up_host(alloc, host)?;
    Ok(machine.into_parts().0)
}

#[test]
fn registers_after_an_initialization(rt: HostRuntime) -> Result<(), Fail> {
    let alloc = rt.alloc();
    check_registers(
        &rt,
        &adapter_on_bus(alloc, NEEDED, &config(8, 8, 16))?,
        0x8000_0100,
    );
    let plan = Scenario::read(alloc, TWO)?.plan;
    for (host, rah) in plan.hosts.iter().zip([0x8000_0100, 0x8000_0200]) {
        check_registers(&rt, &adapter_of_host(&rt, alloc, host)?, rah);
    }
    let adapter = adapter_on_bus(alloc, 10_616_832, &config(4096, 4096, 8192))?;
    for (offset, wanted) in LARGE {
        assert!(rt; adapter.value(offset) == wanted, "{offset:x}");
    }
    Ok(())
}

/// Returns a configuration with a wrong RXA, group or VLAN.
fn with(rxa: u8, group: Option<[u8; 6]>, vlan: Option<u16>) -> Config {
    let mut config = config(8, 8, 16);
    config.rxa = rxa;
    if let Some(group) = group {
        let _ = config.groups.try_push(group);
    }
    if let Some(vlan) = vlan {
        let mut list = ArrayVec::new();
        let _ = list.try_push(vlan);
        config.vlans = Some(list);
    }
    config
}

/// Returns the words of an image: those of the address, and word 63.
fn words(third: u16, last: u16) -> [u16; 64] {
    let mut words = [0; 64];
    words[0] = 0x0002;
    words[2] = third;
    words[63] = last;
    words
}

#[test]
fn configurations_and_devices_that_are_refused(rt: HostRuntime) -> Result<(), Fail> {
    let alloc = rt.alloc();
    for size in [NEEDED - 1, 10_616_831] {
        let large = if size < NEEDED {
            config(8, 8, 16)
        } else {
            config(4096, 4096, 8192)
        };
        let mut bus = lively_bus(alloc, size)?;
        let refused = initialize(alloc, &mut bus, &large);
        assert!(rt;
            refused == Err(InitError::Config) && bus.accesses() == 0,
            "{size}"
        );
    }
    let mut bus = lively_bus(alloc, NEEDED)?;
    for wrong in [
        config(12, 8, 16),
        config(8, 8, 7),
        config(4104, 8, 8192),
        with(3, None, None),
        with(48, Some(A), None),
        with(48, None, Some(4096)),
    ] {
        let refused = initialize(alloc, &mut bus, &wrong);
        assert!(rt; refused == Err(InitError::Config) && bus.accesses() == 0);
    }
    for (words, link, wanted) in [
        (words(0x0100, 0xB9B8), Link::After(1), Ok(7)),
        (
            words(0x0100, 0xB9B9),
            Link::After(1),
            Err(InitError::Checksum),
        ),
        (words(0x0100, 0xB9B8), Link::Never, Err(InitError::NoLink)),
    ] {
        let mut bus = bus_of(alloc, &Image::from_words(words), link, NEEDED)?;
        assert!(rt; initialize(alloc, &mut bus, &config(8, 8, 16)) == wanted);
    }
    Ok(())
}

/// The words of images with addresses of hosts, and whether their sum is 0xBABA.
#[test]
fn images_of_addresses(rt: HostRuntime) {
    for (last, third, sum) in [(1, 0x0100, 0xB9B8), (2, 0x0200, 0xB8B8)] {
        let image = Image::with_address([0x02, 0, 0, 0, 0, last]);
        let wanted = words(third, sum);
        for (n, word) in wanted.iter().enumerate() {
            assert!(rt; image.word((n & 63) as u8) == *word);
        }
        assert!(rt; image.word(64) == 0xFFFF && checksum_ok(&image));
        assert!(rt; !checksum_ok(&Image::from_words(words(third, sum.wrapping_add(1)))));
    }
}

/// Returns why no network is made if host 1 has this link.
fn refusal(alloc: Global, link: Link) -> Result<Option<PlanError>, Fail> {
    let mut plan = Scenario::read(alloc, TWO)?.plan;
    if let Some(host) = plan.hosts.get_mut(1) {
        host.link = link;
    }
    Ok(Lan::new(alloc, &plan).err())
}

#[test]
fn links_that_come_up_late_or_never(rt: HostRuntime) -> Result<(), Fail> {
    let no_link = Some(PlanError::Init(1, InitError::NoLink));
    for (link, wanted) in [
        (Link::Never, no_link),
        (Link::After(2001), no_link),
        (Link::After(2000), None),
        (Link::After(0), Some(PlanError::Config)),
    ] {
        assert!(rt; refusal(rt.alloc(), link)? == wanted, "{wanted:?}");
    }
    Ok(())
}
