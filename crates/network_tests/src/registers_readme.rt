//! The code of the README of `registers`, word for word.

use bitflags::Flags;
use registers::{Cause, Causes, PciFunction, PortWidth};

#[test]
fn the_code_of_the_readme_of_registers(rt: HostRuntime) {
    let mut causes = Causes::new();
    causes.mask(Cause::RXT0.bits()); // a write of IMS
    causes.raise(Cause::RXO); // a frame was missed: recorded, and not in the mask
    assert!(rt; !causes.line());
    causes.raise(Cause::RXT0); // a receive descriptor was written back
    assert!(rt; causes.line() && causes.read() == 0xC0); // a read of ICR, which clears bits 6 and 7
}

#[test]
fn the_code_of_the_readme_of_registers_where_ports_are_accessed(rt: HostRuntime) {
    let mut function = PciFunction::new(0xFEB0_0000);
    function.write_port(0xCF8, PortWidth::Long, 0x8000_2010); // base address register 0
    function.write_port(0xCFE, PortWidth::Word, 0xE000); // the high half
    assert_eq!(rt; function.registers(), Some(0xE000_0000));
}
