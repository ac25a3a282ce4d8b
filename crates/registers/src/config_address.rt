// The port CONFIG_ADDRESS.

ghost use Rattle.std.specs.Prelude.{◌≡◌};
ghost use Rattle.registers.specs.Ports.{kept_address, offset_in, selects_function};

/// The bits of CONFIG_ADDRESS that a write stores: all except bits 30:24, which are reserved, and bits 1:0.
const KEPT: u32 = 0x80FF_FFFC;

/// The device number of the adapter.
const DEVICE: u32 = 4;

/// The contents of CONFIG_ADDRESS (PCI 2.2, 3.2.2.3.2 "Software Generation of Configuration Transactions"): an enable
/// bit (31), and the numbers of a bus (23:16), a device (15:11), a function (10:8) and a dword (7:2).
#[derive(Clone, Copy, PartialEq, Eq, Debug)]
pub(crate) struct ConfigAddress(pub u32);

impl ConfigAddress {
    /// Returns the contents of CONFIG_ADDRESS after a write of this value.
    pub(crate) fn kept(value: u32) -> ConfigAddress
        ensures { result.0 ≡ kept_address value }
    {
        ConfigAddress(value & KEPT)
    }

    /// Returns whether accesses of CONFIG_DATA reach the adapter's configuration space: bit 31 enables these accesses,
    /// and the numbers are bus 0, device 4 and function 0.
    pub(crate) fn selects_function(self) -> bool
        ensures { result ≡ selects_function self.0 }
    {
        let is_enabled = self.0 >> 31 == 1;
        let bus = self.0 >> 16 & 0xFF;
        let device = self.0 >> 11 & 0x1F;
        let function = self.0 >> 8 & 0x7;
        is_enabled && bus == 0 && device == DEVICE && function == 0
    }

    /// Returns the offset of the selected dword in configuration space, in bytes.
    pub(crate) fn offset(self) -> u8
        ensures { result ≡ offset_in self.0 }
    {
        // Bits 7:2 are the dword's number. With bits 1:0 clear, they are four times this number.
        (self.0 & 0xFC) as u8
    }
}
