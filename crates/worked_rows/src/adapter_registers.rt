//! Registers, EEPROM, PHY and engines of an adapter without a driver.

use crate::adapter_player::Device;
use crate::fixtures::A;
use crate::said::check_rows;
use adapter::Adapter;
use adapter::offsets::{
    CTRL, MTA, RAH_LAST, RAL, RCTL, RDBAL, RDH, RDLEN, RDT, TCTL, TDBAL, TDH, TDLEN, TDT, VET, VFTA,
};
use eeprom::Image;
use mdic_phy::Link;
use registers::Counter;
use std::process::Abort;
use std::test::Fail;

/// Rows of adapters.
const ROWS: &str = "\
# CTRL.RST reads 0. RCTL and PBA keep the bits of their tables.
new | | CTRL:FBFFFFFF CTRL RCTL:FFFFFFFF RCTL | 40000061 607b33a
new | | PBA:6 PBA PBA:7 PBA PBA:32 PBA | 3a0006 3a0006 3a0006
# A reset leaves PBA.
new | PBA:6 VET:1 IMS:80 CTRL:FFFFFFFF | CTRL PBA VET IMS | 0 3a0006 8100 0
# Causes and the mask.
new | | IMS:FFFFFFFF IMS IMC:40 IMS | 2d7 297
new | | ICS:84 ICR:04 ICR ICR | 80 0
new | | ICS:84 line IMS:80 line ICR ICR line | off on 84 0 off
# Offsets without a register.
new | | at00C2:FFFFFFFF at00C2 at3FFC:FFFFFFFF at3FFC ICR | 0 0 0
# Reads of the EEPROM. A word above 63 reads as ones. A new command takes the place of an old one.
new | | EERD:201 EERD eeprom EERD | 200 ticked 1000210
new | | EERD:4001 eeprom EERD | ticked ffff4010
new | | EERD:1 EERD:201 eeprom EERD eeprom | ticked 1000210 nothing
# The PHY: the link comes up after one tick, and the latch tells once that it was down.
new | MDIC:04201200 phy phy MDIC:08210000 phy | MDIC | 18210020
new | MDIC:04201200 phy phy MDIC:08210000 phy MDIC:08210000 phy | MDIC | 18210024
new | | MDIC:08410000 phy MDIC MDIC:08220000 phy MDIC | ticked 58410000 ticked 18220141
new | | MDIC:08230000 phy MDIC MDIC:28210000 phy MDIC ICR | ticked 18230c20 ticked 38210000 200
# The receive packet buffer of 2 KB has room for one frame of 1,518 bytes.
new | | PBA:2 RCTL:8002 3*arrive:1518 MPC MPC RNBC ICR | stored missed missed 2 0 3 40
# RXDMT0 is recorded with the third of three frames in a ring of 8.
new | buffers RDLEN:80 RDT:7 RCTL:8002 3*arrive:60 | data done ICR data done ICR data done ICR | moved done 80 moved done 80 moved done 90
# DD is written back, and TXDW recorded, for a frame with RS.
new | frames TDBAL:80 TDLEN:80 TDT:2 TCTL:0A | take ICR take ICR take blocked | took 0 took 2 nothing full
new | frames TDBAL:80 TDLEN:80 TDT:2 TCTL:0A take take ICR | put byte:8c ICR put byte:9c ICR GPTC | put 60 1 1 put 60 0 0 2
# A length below 128 is kept as 0, so the ring has no descriptor.
new | RDLEN:64 RDT:1 RCTL:8002 | RDLEN arrive:60 data written data | 0 stored fault no nothing";

/// The registers that keep bits of a write: the first offset, the number of registers, the bytes from one to the next,
/// the bits kept, and the value after a reset.
const KEPT: [(u32, u32, u32, u32, u32); 19] = [
    (CTRL, 1, 4, 0x4000_0061, 0),
    (VET, 1, 4, 0xFFFF, 0x8100),
    (RCTL, 1, 4, 0x0607_B33A, 0),
    (TCTL, 1, 4, 0x003F_FFFA, 0),
    (RDBAL, 1, 4, 0xFFFF_FFF0, 0),
    (TDBAL, 1, 4, 0xFFFF_FFF0, 0),
    (RDBAL + 4, 1, 4, 0xFFFF_FFFF, 0),
    (TDBAL + 4, 1, 4, 0xFFFF_FFFF, 0),
    (RDLEN, 1, 4, 0x000F_FF80, 0),
    (TDLEN, 1, 4, 0x000F_FF80, 0),
    (RDH, 1, 4, 0xFFFF, 0),
    (TDH, 1, 4, 0xFFFF, 0),
    (RDT, 1, 4, 0xFFFF, 0),
    (TDT, 1, 4, 0xFFFF, 0),
    (MTA, 128, 4, 0xFFFF_FFFF, 0),
    (VFTA, 128, 4, 0xFFFF_FFFF, 0),
    (RAL, 1, 8, 0xFFFF_FFFF, 0x0000_0002),
    (RAL + 4, 1, 8, 0x8000_FFFF, 0x8000_0100),
    (RAH_LAST, 1, 8, 0x8000_FFFF, 0),
];

fn keeps(rt: &impl Abort, adapter: &mut Adapter, offset: u32, kept: u32, reset: u32) {
    assert!(rt; adapter.read(offset) == reset, "{offset:x}");
    // A write of 1 to CTRL.RST resets.
    adapter.write(
        offset,
        if offset == CTRL {
            0xFBFF_FFFF
        } else {
            0xFFFF_FFFF
        },
    );
    assert!(rt; adapter.read(offset) == kept, "{offset:x}");
    adapter.write(CTRL, 0x0400_0000);
    assert!(rt; adapter.read(offset) == reset, "{offset:x}");
}

#[test]
fn registers_and_engines(rt: HostRuntime) -> Result<(), Fail> {
    check_rows::<Device>(&rt, rt.alloc(), ROWS, 19)?;
    let mut adapter = Adapter::new(rt.alloc(), &Image::with_address(A), Link::Never)?;
    for (first, count, step, kept, reset) in KEPT {
        for index in 0..count {
            keeps(
                &rt,
                &mut adapter,
                first.wrapping_add(index.wrapping_mul(step)),
                kept,
                reset,
            );
        }
    }
    let mut counter = Counter::at(0xFFFF_FFFF);
    counter.bump();
    assert!(rt; counter.read() == 0xFFFF_FFFF && counter.read() == 0);
    Ok(())
}
