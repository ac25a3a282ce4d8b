//! Twins of calls of `bring_up`. The prover knows only the clauses of a call, so these must imply the clauses of its
//! twin. The edits in `must-fail/` are wrong bodies of twins.

ghost use Rattle.std.specs.Prelude.{◌≡◌, ◌≤◌, ◌<◌, ◌+◌, ◌*◌, ◌↔◌, ℕ, Bool, IsOk, length};
ghost use Rattle.dma_memory.specs.Layout.{descriptor_bytes};
ghost use Rattle.rx_filter.specs.NumberTables.{HasNumbers, numbers_of_groups};
ghost use Rattle.bring_up.specs.ClearedDescriptors.{clears_from};
ghost use Rattle.bring_up.specs.Configuration.{IsValidIn};
ghost use Rattle.bring_up.specs.Device.{FindsDevice};
ghost use Rattle.bring_up.specs.EepromReading.{ReadsImage};
ghost use Rattle.bring_up.specs.Link.{AwaitsLink};
ghost use Rattle.bring_up.specs.RingRegisters.{receive_writes};
ghost use Rattle.bring_up.specs.SettingSteps.{SetsOnly};
ghost use Rattle.adapter.specs.Calls.{IsReadyOver, Ran, at, only};
ghost use Rattle.adapter.specs.DriverState.{DriverState, address_limit, receive_slot};

use adapter::Bus;
use bring_up::FilterModes;
use dma_memory::Layout;
use driver::{Config, InitError};
use eeprom::Image;
use rx_filter::TABLE_WORDS;

/// A twin of [`bring_up::find_device`].
pub fn find_device<B: Bus>(bus: &mut B, kilobytes: u8) -> Result<Image, InitError>
    ensures finds { B.honest bus.old → FindsDevice B.Bus kilobytes result bus.old bus.new }
{
    match bring_up::find_device(bus, kilobytes) {
        Err(InitError::Checksum) => Err(InitError::Checksum),
        answer => answer,
    }
}

/// A twin of [`bring_up::read_image`].
pub fn read_image<B: Bus>(bus: &mut B) -> Result<Image, InitError>
    ensures reads { B.honest bus.old → ReadsImage B.Bus result bus.old bus.new }
{
    match bring_up::read_image(bus) {
        Ok(image) => Ok(image),
        Err(error) => Err(error),
    }
}

/// A twin of [`bring_up::await_link`].
pub fn await_link<B: Bus>(bus: &mut B) -> Result<(), InitError>
    ensures awaits { B.honest bus.old → AwaitsLink B.Bus result bus.old bus.new }
{
    match bring_up::await_link(bus) {
        Ok(()) => Ok(()),
        Err(failure) => Err(failure),
    }
}

/// A twin of [`bring_up::enable_receiver`].
pub fn enable_receiver<B: Bus>(bus: &mut B, modes: FilterModes)
    ensures sets { B.honest bus.old → SetsOnly B.Bus (receive_writes modes.promiscuous modes.by_vlan) bus.old bus.new }
{
    bring_up::enable_receiver(bus, modes);
}

/// A twin of [`bring_up::clear_descriptors`].
pub fn clear_descriptors<B: Bus>(bus: &mut B, first: u64, count: u16)
    requires memory { first + descriptor_bytes * count ≤ B.extent bus.old }
    requires addresses { first + descriptor_bytes * count < address_limit }
    ensures spare { (up : Bool) (d : DriverState) (slot : ℕ) → IsReadyOver B.Bus up (at bus.old d)
        → d.oldest_receive ≡ 0 → length d.buffers + length d.staged ≤ slot → slot + count ≤ d.layout.rx
        → first ≡ receive_slot slot
        → Ran B.Bus up (only (clears_from first count)) (at bus.old d) (at bus.new d) }
{
    bring_up::clear_descriptors(bus, first, count);
}

/// A twin of [`bring_up::group_table`].
pub fn group_table(groups: &[[u8; 6]]) -> [u32; TABLE_WORDS]
    ensures { HasNumbers result (numbers_of_groups groups.now) }
{
    bring_up::group_table(groups)
}

/// A twin of [`Config::layout`].
pub fn layout(config: &Config, size: u64) -> Result<Layout, InitError>
    ensures ok { IsOk result ↔ IsValidIn config.now size }
{
    config.layout(size)
}
