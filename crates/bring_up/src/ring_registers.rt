//! The registers of both rings, and RCTL and TCTL, which enable receiver and transmitter ("14.4 Receive
//! Initialization", "14.5 Transmit Initialization").

ghost use Rattle.std.specs.Prelude.{◌≡◌, ◌%◌, ◌/◌, ◌*◌, ◌≤◌, ℕ, Bool, true, false};
ghost use Rattle.dma_memory.specs.Layout.{IsRingSize, descriptor_bytes};
ghost use Rattle.adapter.specs.Keeping.{Keeps};
ghost use Rattle.adapter.specs.Calls.{IsReadyOver, at};
ghost use Rattle.adapter.specs.DriverState.{DriverState};
ghost use Rattle.bring_up.specs.DriverSteps.{CanSetTransmitRing, HasTransmitRing, LeavesDriver, LetsFramesIn};
ghost use Rattle.bring_up.specs.DriverSteps.{ReceiverIsOff, SetsTransmitRing};
ghost use Rattle.bring_up.specs.RestingRings.{HasNewRings, HasReceiveRing, SetsAtRest};
ghost use Rattle.bring_up.specs.RingRegisters.{WritesRing, disable_writes, receive_control, receive_writes};
ghost use Rattle.bring_up.specs.RingRegisters.{ring_setup_writes, transmit_control, transmit_writes};
ghost use Rattle.bring_up.specs.SettingSteps.{SetsOnly};
ghost use Rattle.bring_up.specs.WrittenRegisters.{register_limit};

use adapter::Bus;
use adapter::offsets::{RCTL, RDBAH, RDBAL, RDH, RDLEN, RDT, TCTL, TDBAL};
use bitflags::Flags;
use registers::{Rctl, Tctl};

/// The collision threshold, 15 retransmissions (13.4.33), in TCTL.CT. The threshold matters only in half duplex, and
/// has no effect in the adapter's model.
const COLLISION_THRESHOLD: u32 = 0x0F << 4;

/// The collision distance of full duplex, 0x40, in TCTL.COLD. The distance has no effect in the adapter's model.
const COLLISION_DISTANCE: u32 = 0x40 << 12;

/// The distance of RDBAH from RDBAL, and of TDBAH from TDBAL, in bytes.
const BASE_HIGH: u32 = RDBAH - RDBAL;

/// The distance of RDLEN from RDBAL, and of TDLEN from TDBAL, in bytes.
const LENGTH: u32 = RDLEN - RDBAL;

/// The distance of RDH from RDBAL, and of TDH from TDBAL, in bytes.
const HEAD: u32 = RDH - RDBAL;

/// The distance of RDT from RDBAL, and of TDT from TDBAL, in bytes.
const TAIL: u32 = RDT - RDBAL;

/// The number of values of a 32-bit register.
const WORD: u64 = 1 << 32;

/// The place of a ring in memory.
#[derive(Clone, Copy, Debug, PartialEq, Eq)]
pub struct RingPlace {
    /// The address of the ring's first descriptor, a multiple of 16.
    pub base: u64,
    /// The size in bytes of all descriptors of the ring, a multiple of 128.
    pub bytes: u32,
}

/// Sets up the receive ring, with no slot offered. Let the ring begin at address 0 and have from 8 to 4,096 slots, a
/// multiple of 8, and let memory have room for it. Then an adapter at rest whose rings have their reset values remains
/// at rest. After the writes, its receive ring has this base and size (`HasReceiveRing`).
pub fn set_receive_ring<B: Bus>(bus: &mut B, ring: RingPlace)
    ensures keeps { Keeps B.Bus bus.old bus.new }
    ensures sets { B.honest bus.old → SetsOnly B.Bus (ring_setup_writes RDBAL ring.base ring.bytes) bus.old bus.new }
    ensures rests { (rx : ℕ) → B.honest bus.old → IsRingSize rx → ring.base ≡ 0
        → ring.bytes ≡ descriptor_bytes * rx
        → SetsAtRest B.Bus (ring_setup_writes RDBAL ring.base ring.bytes) (HasNewRings rx) (HasReceiveRing rx)
        bus.old bus.new }
{
    write_ring(bus, RDBAL, ring);
}

/// Sets up the transmit ring, with no slot offered. Before the call, let a driver be ready with its transmit side off,
/// and the registers of the transmit ring have their reset values. Let slot 0 be the driver's oldest transmit slot, and
/// `ring` be at its place in the layout, whose ring sizes are valid (`CanSetTransmitRing`). Then the driver remains
/// ready. After the writes, the transmit ring agrees with this driver.
pub fn set_transmit_ring<B: Bus>(bus: &mut B, ring: RingPlace)
    ensures keeps { Keeps B.Bus bus.old bus.new }
    ensures sets { B.honest bus.old → SetsOnly B.Bus (ring_setup_writes TDBAL ring.base ring.bytes) bus.old bus.new }
    ensures ran { (d : DriverState) → IsReadyOver B.Bus false (at bus.old d)
        → CanSetTransmitRing ring.base ring.bytes d (B.world bus.old)
        → SetsTransmitRing B.Bus (ring_setup_writes TDBAL ring.base ring.bytes) d bus.old bus.new }
{
    write_ring(bus, TDBAL, ring);
}

/// Writes the registers of a ring, with 0 as head and tail. `first` is the offset of RDBAL or TDBAL. It must be at most
/// TDBAL, so that no offset overflows.
fn write_ring<B: Bus>(bus: &mut B, first: u32, ring: RingPlace)
    requires { first ≤ TDBAL }
    ensures keeps { Keeps B.Bus bus.old bus.new }
    ensures writes { B.honest bus.old → WritesRing B.Bus first ring.base ring.bytes bus.old bus.new }
{
    bus.write(first, low_word(ring.base));
    bus.write(first + BASE_HIGH, high_word(ring.base));
    bus.write(first + LENGTH, ring.bytes);
    bus.write(first + HEAD, 0);
    bus.write(first + TAIL, 0);
}

/// Disables the receiver by writing 0 to RCTL. A driver that is ready remains ready, even if frames end in its slots.
pub fn disable_receiver<B: Bus>(bus: &mut B)
    ensures keeps { Keeps B.Bus bus.old bus.new }
    ensures sets { B.honest bus.old → SetsOnly B.Bus disable_writes bus.old bus.new }
    ensures off { B.honest bus.old → (B.world bus.new).adapter.filter.rctl ≡ 0 }
    ensures ran { (up : Bool) (d : DriverState) → IsReadyOver B.Bus up (at bus.old d)
        → LeavesDriver B.Bus disable_writes up d bus.old bus.new }
{
    bus.write(RCTL, 0);
}

/// Which frames pass the receive filter, apart from the addresses and groups in its tables.
#[derive(Clone, Copy)]
pub struct FilterModes {
    /// Frames to every destination pass.
    pub promiscuous: bool,
    /// A tagged frame passes only if its VLAN is in the VLAN table.
    pub by_vlan: bool,
}

/// Enables the receiver in these modes, with broadcast frames and buffers of 256 bytes. Let a driver be ready with its
/// transmit side off, RCTL.EN be 0, and no frame be held. Then the driver remains ready. During the call no frame is
/// stored or missed, and after the call no frame is held and no receive slot is finished.
pub fn enable_receiver<B: Bus>(bus: &mut B, modes: FilterModes)
    ensures keeps { Keeps B.Bus bus.old bus.new }
    ensures sets { B.honest bus.old → SetsOnly B.Bus (receive_writes modes.promiscuous modes.by_vlan) bus.old bus.new }
    ensures ran { (d : DriverState) → IsReadyOver B.Bus false (at bus.old d) → ReceiverIsOff d (B.world bus.old)
        → LetsFramesIn B.Bus (receive_writes modes.promiscuous modes.by_vlan) d bus.old bus.new }
{
    bus.write(RCTL, receive_control(modes));
}

/// Returns the value of RCTL that enables the receiver in these modes.
fn receive_control(modes: FilterModes) -> u32
    ensures { result ≡ receive_control modes.promiscuous modes.by_vlan }
{
    // BSIZE 11b selects buffers of 256 bytes. SECRC removes the frame check sequence.
    let mut control = Rctl::EN
        .union(Rctl::BAM)
        .union(Rctl::BSIZE)
        .union(Rctl::SECRC);
    if modes.promiscuous {
        control = control.union(Rctl::UPE).union(Rctl::MPE);
    }
    if modes.by_vlan {
        control = control.union(Rctl::VFE);
    }
    control.bits()
}

/// Enables the transmitter, with padding of short frames. Before the call, let a driver be ready with its transmit side
/// off, and let the transmit ring agree with the driver (`HasTransmitRing`). After the call, the driver is ready with
/// its transmit side set up.
pub fn enable_transmitter<B: Bus>(bus: &mut B)
    ensures keeps { Keeps B.Bus bus.old bus.new }
    ensures sets { B.honest bus.old → SetsOnly B.Bus transmit_writes bus.old bus.new }
    ensures ran { (d : DriverState) → IsReadyOver B.Bus false (at bus.old d) → HasTransmitRing d (B.world bus.old)
        → LeavesDriver B.Bus transmit_writes true d bus.old bus.new }
{
    bus.write(TCTL, transmit_control());
}

/// Returns the value of TCTL that enables the transmitter.
fn transmit_control() -> u32
    ensures { result ≡ transmit_control }
{
    Tctl::EN.union(Tctl::PSP).bits() | COLLISION_THRESHOLD | COLLISION_DISTANCE
}

/// Returns the low 32 bits of an address.
fn low_word(address: u64) -> u32
    ensures { result ≡ address % register_limit }
{
    (address % WORD) as u32
}

/// Returns the high 32 bits of an address.
fn high_word(address: u64) -> u32
    ensures { result ≡ address / register_limit }
{
    (address / WORD) as u32
}
