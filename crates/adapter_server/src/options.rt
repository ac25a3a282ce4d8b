// The options of a server.

ghost use Rattle.std.specs.Prelude.{◌≡◌};
ghost use Rattle.adapter_server.specs.Defaults.{default_options};

use eeprom::Image;
use mdic_phy::Link;

/// The options of a served adapter.
#[derive(Clone, Copy)]
pub struct ServeOptions {
    /// The size of memory in bytes. Memory begins at address 0.
    pub memory: u64,
    /// The initial address of the registers, which occupy 131,072 bytes.
    pub registers: u64,
    /// The contents of the EEPROM. A wrong checksum isn't corrected.
    pub image: Image,
    /// The setting of the link: the number of ticks of the PHY until the link is up, or never.
    pub link: Link,
    /// The value written once to PBA. Its field RXA is the receive part of the packet buffer in kilobytes: an even
    /// number from 2 to 48. With any other value, PBA is as after power-on.
    pub receive_kilobytes: u8,
    /// The seed of the generator that draws random steps and numbers.
    pub seed: u64,
    /// MPC, the count of missed packets, at the start.
    pub missed: u32,
}

impl ServeOptions {
    /// Returns the defaults: 1 MiB of memory, registers from 0xFEB00000 on, an EEPROM with the address
    /// 02:00:00:00:00:01, a link that is up after one tick of the PHY, 48 kilobytes of receive packet buffer, seed 0,
    /// and no missed packet.
    pub fn new() -> ServeOptions
        ensures { result ≡ default_options }
    {
        ServeOptions {
            memory: 1 << 20,
            registers: 0xFEB0_0000,
            image: Image::with_address([0x02, 0, 0, 0, 0, 0x01]),
            link: Link::After(1),
            receive_kilobytes: 48,
            seed: 0,
            missed: 0,
        }
    }
}
