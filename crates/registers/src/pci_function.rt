// The configuration space, and the ports CONFIG_ADDRESS and CONFIG_DATA.

ghost use Rattle.std.specs.Prelude.{◌≡◌};
ghost use Rattle.registers.specs.ConfigSpace.{interrupt_status};
ghost use Rattle.registers.specs.Ports.{port_answer, first_byte, is_address_port};

use crate::config_address::ConfigAddress;
use crate::config_offsets::*;
use crate::port_width::PortWidth;
use std::marker::Model;

/// The port CONFIG_ADDRESS (PCI 2.2, 3.2.2.3.2).
const ADDRESS_PORT: u16 = 0xCF8;

/// The first of the four ports of CONFIG_DATA (PCI 2.2, 3.2.2.3.2).
const DATA_PORT: u16 = 0xCFC;

/// Device ID 100Eh and vendor ID 8086h.
const IDENTITY: u32 = 0x100E_8086;

/// The status register, in the high half of a dword, while the interrupt line is deasserted: DEVSEL timing medium,
/// capable of 66 MHz.
const STATUS: u32 = 0x0220_0000;

/// Interrupt Status, as a bit of the dword at 04h: it is set while the interrupt line is asserted.
const INTERRUPT_STATUS: u32 = 1 << 19;

/// The bits of the command register that a write stores (PCI 2.2, 6.2.2 "Device Control"): I/O Space 0, Memory Space 1,
/// Bus Master 2, Memory Write and Invalidate 4, Parity Error Response 6, and SERR# Enable 8.
const COMMAND_BITS: u32 = 0x157;

/// Memory Space, a bit of the command register: the device answers in memory space.
const MEMORY_SPACE: u32 = 1 << 1;

/// Bus Master, a bit of the command register: the device may access memory. The bit has no effect.
const BUS_MASTER: u32 = 1 << 2;

/// Class 0200h, an Ethernet controller, and revision 2.
const CLASS: u32 = 0x0200_0002;

/// Subsystem ID 001Eh and subsystem vendor ID 8086h.
const SUBSYSTEM_IDENTITY: u32 = 0x001E_8086;

/// Max_Lat 0, Min_Gnt 255, and interrupt pin 1, INTA#.
const INTERRUPT_PIN: u32 = 0x00FF_0100;

/// The bits of base address register 0 that can be written: bits 31:17, because the registers occupy 128 KB.
const BASE_BITS: u64 = 0xFFFE_0000;

/// Function 0 of device 4 of bus 0: the adapter as a PCI device.
///
/// In contracts, the value is a `PciState` (`specs/ConfigSpace.antt`).
#[derive(Clone, Copy, Debug, PartialEq, Eq)]
pub struct PciFunction {
    /// The contents of CONFIG_ADDRESS.
    address: ConfigAddress,
    /// The command register.
    command: u32,
    /// The address of the adapter's first register.
    registers: u64,
    /// The interrupt line register, which has no effect.
    interrupt_line: u8,
}

impl Model for PciFunction {
    ghost use Rattle.registers.specs.ConfigSpace.{PciState};

    ghost Value = { PciState };

    ghost view = { λ function. record {
      address = function.address.0;
      command = function.command;
      registers = function.registers;
      interrupt_line = function.interrupt_line;
    } };

    ghost inverse = { λ state. record {
      address = record { 0 = state.address };
      command = state.command;
      registers = state.registers;
      interrupt_line = state.interrupt_line;
    } };
}

impl PciFunction {
    ghost use Rattle.registers.specs.ConfigSpace.{after_write_of, config_word, new_function, registers_of};
    ghost use Rattle.registers.specs.Ports.{after_port_write};

    /// Returns a PCI function whose registers begin at this address. Memory space and bus mastering are enabled, as if
    /// firmware had enabled them. CONFIG_ADDRESS and the interrupt line register are 0.
    pub fn new(registers: u64) -> PciFunction
        ensures { result ≡ new_function registers }
    {
        PciFunction {
            address: ConfigAddress(0),
            command: MEMORY_SPACE | BUS_MASTER,
            registers,
            interrupt_line: 0,
        }
    }

    /// Reads an I/O port, and returns the value. `asserted` is whether the interrupt line is asserted. If the access
    /// reaches neither CONFIG_ADDRESS nor the adapter's configuration space, all bits of this width are 1.
    pub fn read_port(&self, port: u16, width: PortWidth, asserted: bool) -> u32
        ensures { result ≡ port_answer port width asserted self.now }
    {
        if is_address_port(port, width) {
            return self.address.0;
        }
        match self.first_byte(port, width) {
            Some(first) => width.bytes_of(self.word(self.address.offset(), asserted), first),
            None => width.ones(),
        }
    }

    /// Writes the low bytes of the value to an I/O port: one, two or four bytes, by the width. If the access reaches
    /// neither CONFIG_ADDRESS nor the adapter's configuration space, nothing changes.
    pub fn write_port(&mut self, port: u16, width: PortWidth, value: u32)
        ensures { self.new ≡ after_port_write port width value self.old }
    {
        if is_address_port(port, width) {
            self.address = ConfigAddress::kept(value);
        } else if let Some(first) = self.first_byte(port, width) {
            let offset = self.address.offset();
            // Interrupt Status can't be written, so the state of the interrupt line doesn't matter.
            let word = self.word(offset, false);
            self.set_word(offset, width.replaced_in(word, first, value));
        }
    }

    /// Returns the address of the adapter's first register. Returns `None` while memory space is disabled: the
    /// registers have no address.
    pub fn registers(&self) -> Option<u64>
        ensures { result ≡ registers_of self.now }
    {
        if self.command & MEMORY_SPACE == MEMORY_SPACE {
            Some(self.registers)
        } else {
            None
        }
    }

    /// Returns the number of the first byte that an access of CONFIG_DATA reads or writes in the selected dword.
    /// Returns `None` if a byte of the access isn't at one of the four ports of CONFIG_DATA, or CONFIG_ADDRESS doesn't
    /// select this function.
    fn first_byte(&self, port: u16, width: PortWidth) -> Option<usize>
        ensures { result ≡ first_byte port width self.now.address }
    {
        if port < DATA_PORT || !self.address.selects_function() {
            return None;
        }
        let first = usize::from(port - DATA_PORT);
        // CONFIG_DATA has four ports.
        if first + width.size() > 4 {
            return None;
        }
        Some(first)
    }

    /// Returns the dword at an offset in configuration space, or 0 if the adapter has no register there. `asserted` is
    /// whether the interrupt line is asserted.
    fn word(&self, offset: u8, asserted: bool) -> u32
        ensures { result ≡ config_word self.now asserted offset }
    {
        match offset {
            DEVICE_AND_VENDOR => IDENTITY,
            STATUS_AND_COMMAND => STATUS | interrupt_status(asserted) | self.command,
            CLASS_AND_REVISION => CLASS,
            // `BASE_BITS` has 32 bits, so the cast drops nothing.
            BASE_ADDRESS => (self.registers & BASE_BITS) as u32,
            SUBSYSTEM => SUBSYSTEM_IDENTITY,
            INTERRUPT => INTERRUPT_PIN | u32::from(self.interrupt_line),
            _ => 0,
        }
    }

    /// Writes the dword at an offset in configuration space. Bits that can't be written don't change. A write of base
    /// address register 0 moves the adapter's registers.
    fn set_word(&mut self, offset: u8, word: u32)
        ensures { self.new ≡ after_write_of offset word self.old }
    {
        match offset {
            STATUS_AND_COMMAND => self.command = word & COMMAND_BITS,
            BASE_ADDRESS => self.registers = u64::from(word) & BASE_BITS,
            INTERRUPT => self.interrupt_line = (word & 0xFF) as u8,
            _ => {}
        }
    }
}

/// Returns Interrupt Status, bit 3 of the status register, as a bit of the dword at 04h. The bit is set if and only if
/// the interrupt line is asserted.
fn interrupt_status(asserted: bool) -> u32
    ensures { result ≡ interrupt_status asserted }
{
    if asserted { INTERRUPT_STATUS } else { 0 }
}

/// Returns whether an access reaches CONFIG_ADDRESS: whether it is an access of four bytes at CF8h.
fn is_address_port(port: u16, width: PortWidth) -> bool
    ensures { result ≡ is_address_port port width }
{
    port == ADDRESS_PORT && width == PortWidth::Long
}
