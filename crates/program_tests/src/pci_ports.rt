//! Accesses of the ports of a PCI function.

use registers::{PciFunction, PortWidth};

#[test]
fn ports_access_the_configuration_space(rt: HostRuntime) {
    let mut function = PciFunction::new(0xFEB0_0000);
    function.write_port(0xCF8, PortWidth::Long, 0x8000_2000); // bus 0, device 4, function 0, dword 0
    let identity = function.read_port(0xCFC, PortWidth::Long, false);
    let byte = function.read_port(0xCFD, PortWidth::Byte, false);
    assert!(rt; identity == 0x100E_8086 && byte == 0x80);
    function.write_port(0xCF8, PortWidth::Long, 0x8000_2010); // base address register 0
    function.write_port(0xCFC, PortWidth::Long, 0xFFFF_FFFF);
    let size_mask = function.read_port(0xCFC, PortWidth::Long, false);
    assert!(rt; size_mask == 0xFFFE_0000); // 128 KB
    function.write_port(0xCFE, PortWidth::Word, 0xE000); // the high half
    assert!(rt; function.registers() == Some(0xE000_0000));
    function.write_port(0xCF8, PortWidth::Long, 0x8000_2004); // status and command
    function.write_port(0xCFC, PortWidth::Word, 0);
    assert!(rt; function.registers().is_none()); // memory space is disabled
    let status = function.read_port(0xCFE, PortWidth::Word, true);
    assert!(rt; status == 0x0228); // Interrupt Status is set
    function.write_port(0xCF8, PortWidth::Long, 0x8000_1800); // device 3
    assert!(rt; function.read_port(0xCFC, PortWidth::Word, false) == 0xFFFF);
}
