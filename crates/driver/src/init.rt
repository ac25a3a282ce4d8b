// Initialization of a driver and its adapter.

ghost use Rattle.std.specs.Prelude.{◌≡◌, ◌≢◌, ◌↔◌, ◌*◌, ◌≤◌, Err, Ok, IfErr, IfOk, false, true};
ghost use Rattle.dma_memory.specs.Layout.{IsAllowed, descriptor_bytes, size_of};
ghost use Rattle.dma_memory.specs.Owners.{HasOneOwner};
ghost use Rattle.adapter.specs.Rings.{new_ring};
ghost use Rattle.bring_up.specs.Configuration.{IsValidIn, configured_counts};
ghost use Rattle.bring_up.specs.ConfiguredAdapters.{setup_of};
ghost use Rattle.bring_up.specs.Device.{IsBeforeAccess};
ghost use Rattle.bring_up.specs.Groups.{AreNamedOnce};
ghost use Rattle.bring_up.specs.declared.init_error.InitError.TheVariants as InitError;
ghost use Rattle.adapter.specs.Keeping.{Keeps};
ghost use Rattle.adapter.specs.Beginnings.{new_driver};
ghost use Rattle.adapter.specs.Calls.{IsReadyOver, Ran, at, only};
ghost use Rattle.adapter.specs.DriverState.{DriverState};
ghost use Rattle.driver.specs.Initialisation.{FindsRing, Initialises, IsFresh, RefusesInit};
ghost use Rattle.driver.specs.Initialisation.{transmit_accesses};

use crate::Driver;
use crate::setup::Setup;
use adapter::Bus;
use bring_up::{
    Config, FilterModes, Groups, InitError, RingPlace, clear_descriptors, enable_interrupts,
    enable_receiver, enable_transmitter, find_device, named_vlans, set_filter, set_receive_ring,
    set_transmit_ring,
};
use circular_buffer::HeapCircularBuffer;
use dma_memory::{DESCRIPTOR_BYTES, Layout, Pool};
use std::alloc::Global;

/// Finds the device with [`find_device`], and then sets up its receive filter and its receive ring, with no slot
/// offered. Returns the Ethernet address in the device's EEPROM. `config` must be valid in the memory of the bus
/// (`IsValidIn`), and `layout` must be the layout of `config`.
///
/// # Errors
///
/// E11 to E14, as [`find_device`] returns them. E10 and E15 are never returned (`errors`).
fn find_ring<B: Bus>(bus: &mut B, config: &Config, layout: Layout) -> Result<[u8; 6], InitError>
    requires counts { layout ≡ configured_counts config.now }
    requires had { IsValidIn config.now (B.extent bus.old) }
    ensures keeps { Keeps B.Bus bus.old bus.new }
    ensures errors { IfErr result (λ error. ¬ (IsBeforeAccess error)) }
    ensures finds { B.honest bus.old → FindsRing B.Bus config.now result bus.old bus.new }
{
    let image = find_device(bus, config.rxa)?;
    let address = image.address();
    set_filter(
        bus,
        config.groups.as_slice(),
        named_vlans(&config.vlans),
        &address,
    );
    set_receive_ring(bus, place_of(layout.receive_ring(), layout.rx()));
    Ok(address)
}

/// Returns the place of a ring of `slots` slots that begins at `base`.
pub(crate) fn place_of(base: u64, slots: u16) -> RingPlace
    ensures { result ≡ record { base = base; bytes = descriptor_bytes * slots } }
{
    RingPlace {
        base,
        bytes: DESCRIPTOR_BYTES as u32 * u32::from(slots),
    }
}

/// Clears the descriptors of the transmit ring, sets up this ring with no slot offered, and enables the transmitter.
/// `layout` must be valid, and `bus` must have at least `layout.size()` bytes.
///
/// `ran`: let a driver be ready with its transmit side off, with no outstanding transmit slot, and with slot 0 as its
/// oldest transmit slot. Let the registers of the transmit ring be 0, as after a reset. Then the driver is ready after
/// the call, with its transmit side set up, and there is no other access.
pub(crate) fn set_up_transmitter<B: Bus>(bus: &mut B, layout: Layout)
    requires allowed { IsAllowed layout }
    requires memory { size_of layout ≤ B.extent bus.old }
    ensures keeps { Keeps B.Bus bus.old bus.new }
    ensures ran { (d : DriverState) → IsReadyOver B.Bus false (at bus.old d) → d.layout ≡ layout
        → d.oldest_transmit ≡ 0 → d.sending ≡ 0 → (B.world bus.old).adapter.transmit_ring ≡ new_ring
        → Ran B.Bus true (only (transmit_accesses layout)) (at bus.old d) (at bus.new d) }
{
    let ring = layout.transmit_ring();
    let slots = layout.tx();
    clear_descriptors(bus, ring, slots);
    set_transmit_ring(bus, place_of(ring, slots));
    enable_transmitter(bus);
}

impl Driver {
    /// Allocates the memory of a driver, and then finds the device with [`find_ring`]. Returns a driver with the
    /// address in the device's EEPROM. The driver has offered no slot, has joined the groups of `config`, each once,
    /// and has each buffer of the layout once in its pool. `config` must be valid in the memory of the bus
    /// (`IsValidIn`), and `layout` must be the layout of `config`.
    ///
    /// # Errors
    ///
    /// E10 [`Memory`](InitError::Memory), without an access, if an allocation fails, else those of [`find_ring`]. E15
    /// is never returned (`errors`).
    fn find<B: Bus>(
        alloc: Global,
        bus: &mut B,
        config: &Config,
        layout: Layout,
    ) -> Result<Driver, InitError>
        requires counts { layout ≡ configured_counts config.now }
        requires had { IsValidIn config.now (B.extent bus.old) }
        ensures keeps { Keeps B.Bus bus.old bus.new }
        ensures errors { IfErr result (λ error. error ≢ InitError.Config) }
        ensures unasked { IfErr result (λ error. IsBeforeAccess error → bus.new ≡ bus.old) }
        ensures new { IfOk result (λ driver.
            driver ≡ new_driver layout (setup_of config.now driver.setup.address) driver.groups driver.pool) }
        ensures joined { IfOk result (λ driver. AreNamedOnce config.now.groups.items driver.groups) }
        ensures one_owner { IfOk result (λ driver. HasOneOwner layout.buffers driver.pool) }
        ensures finds { B.honest bus.old
            → IfOk result (λ driver. FindsRing B.Bus config.now (Ok driver.setup.address) bus.old bus.new) }
        ensures refuses { B.honest bus.old → IfErr result (RefusesInit B.Bus bus.old bus.new) }
    {
        let buffers = HeapCircularBuffer::with_capacity(alloc, usize::from(layout.rx()))?;
        let pool = Pool::new(alloc, layout.buffers())?;
        let address = find_ring(bus, config, layout)?;
        Ok(Driver {
            layout,
            oldest_receive: 0,
            next_receive: 0,
            buffers,
            staged: 0,
            pool,
            oldest_transmit: 0,
            next_transmit: 0,
            sending: 0,
            missed: 0,
            exact: true,
            bad: 0,
            groups: Groups::of(config.groups.as_slice()),
            setup: Setup::of(config, address),
        })
    }

    /// Resets the adapter and initializes it by `config`: reads its EEPROM, awaits its link, and sets up its filter,
    /// both rings and its interrupts. The adapter can receive frames from the write of RCTL on. The driver has joined
    /// the groups of the configuration, each once.
    ///
    /// This call allocates all memory that the driver needs. If an allocation fails, or the configuration isn't valid
    /// in the memory of the bus, there is no access. After an error, the call may be made again.
    ///
    /// # Errors
    ///
    /// E15 [`Config`](InitError::Config) if the configuration isn't valid in the memory of the bus, else E10
    /// [`Memory`](InitError::Memory) if an allocation fails, else those of [`find_device`].
    pub fn init<B: Bus>(alloc: Global, bus: &mut B, config: &Config) -> Result<Driver, InitError>
        ensures keeps { Keeps B.Bus bus.old bus.new }

        // Over any bus.
        ensures config { (result ≡ Err InitError.Config) ↔ ¬ IsValidIn config.now (B.extent bus.old) }
        ensures unasked { IfErr result (λ error. IsBeforeAccess error → bus.new ≡ bus.old) }
        ensures fresh { IfOk result (IsFresh config.now) }

        // Over a bus that obeys the law.
        ensures initialises { B.honest bus.old
            → IfOk result (Initialises B.Bus config.now bus.old bus.new) }
        ensures refuses { B.honest bus.old → IfErr result (RefusesInit B.Bus bus.old bus.new) }
    {
        let layout = config.layout(bus.size())?;
        let modes = FilterModes {
            promiscuous: config.promiscuous,
            by_vlan: config.vlans.is_some(),
        };
        let mut driver = Driver::find(alloc, bus, config, layout)?;
        // The pool has at least one buffer for each receive slot, so all slots except the last are offered.
        driver.offer_free(bus);
        enable_receiver(bus, modes);
        set_up_transmitter(bus, layout);
        enable_interrupts(bus);
        Ok(driver)
    }
}
