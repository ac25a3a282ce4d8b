//! The registers of the whole device: reset, interrupts, packet buffer, link.

ghost use Rattle.std.specs.Prelude.{◌≡◌, ◌++◌, ℕ, Bool, List, true};
ghost use Rattle.dma_memory.specs.Owners.{HaveSameNumbers};
ghost use Rattle.adapter.specs.AdaptersAtRest.{IsAtRest};
ghost use Rattle.adapter.specs.Keeping.{Keeps};
ghost use Rattle.adapter.specs.Link.{HasLink};
ghost use Rattle.bring_up.specs.DriverSteps.{EnablesCauses, ResetsDriver};
ghost use Rattle.bring_up.specs.SettingSteps.{Sets, SetsOnly};
ghost use Rattle.bring_up.specs.WrittenRegisters.{allocation_writes, handled_causes, enable_link_writes};
ghost use Rattle.bring_up.specs.WrittenRegisters.{mask_writes, reset_writes};
ghost use Rattle.adapter.specs.Calls.{IsReadyOver, at};
ghost use Rattle.adapter.specs.DriverState.{DriverState};

use adapter::Bus;
use adapter::offsets::{CTRL, ICR, IMC, IMS, PBA};
use bitflags::Flags;
use registers::{Cause, Ctrl};

/// Resets the device, disables all interrupt causes and clears the recorded causes ("14.3 General Initialization").
/// After the call, the adapter is at rest (`IsAtRest`): no slot is offered, no frame is in the adapter, and RCTL and
/// MPC are 0.
///
/// `resets`: if a driver was ready before, the buffers of its slots are free after the call. `pool` then contains all
/// free buffers, in any order. Pieces of frames that others hold are still in their buffers.
pub fn reset_device<B: Bus>(bus: &mut B)
    ensures keeps { Keeps B.Bus bus.old bus.new }
    ensures sets { B.honest bus.old → Sets B.Bus reset_writes bus.old bus.new }
    ensures rests { B.honest bus.old → IsAtRest (B.world bus.new) }
    ensures forgets { B.honest bus.old → (B.world bus.new).adapter.causes.recorded ≡ 0 }
    ensures resets { (up : Bool) (d : DriverState) (pool : List ℕ) → IsReadyOver B.Bus up (at bus.old d)
        → HaveSameNumbers (d.pool ++ (d.buffers ++ d.staged)) pool → ResetsDriver B.Bus up pool d bus.old bus.new }
{
    bus.write(CTRL, Ctrl::RST.bits());
    bus.write(IMC, u32::MAX);
    // This read clears all recorded causes.
    bus.read(ICR);
}

/// Assigns `kilobytes` of the packet buffer to received frames (PBA.RXA). The adapter accepts an even number from 2 to
/// 48, and ignores any other.
pub fn allocate_packet_buffer<B: Bus>(bus: &mut B, kilobytes: u8)
    ensures keeps { Keeps B.Bus bus.old bus.new }
    ensures sets { B.honest bus.old → SetsOnly B.Bus (allocation_writes kilobytes) bus.old bus.new }
{
    bus.write(PBA, u32::from(kilobytes));
}

/// Enables the link, at the speed that the PHY detects, by a write of CTRL with SLU and ASDE. All other bits are
/// written as 0, so no speed or duplex mode is forced. If the link is up and no MDIC command is pending, both remain
/// true.
pub fn set_link_up<B: Bus>(bus: &mut B)
    ensures keeps { Keeps B.Bus bus.old bus.new }
    ensures sets { B.honest bus.old → SetsOnly B.Bus enable_link_writes bus.old bus.new }
    ensures link { B.honest bus.old → HasLink (B.world bus.old) → HasLink (B.world bus.new) }
{
    bus.write(CTRL, Ctrl::SLU.union(Ctrl::ASDE).bits());
}

/// Returns the causes that a driver enables:
/// - TXDW: a frame whose descriptor asks for a report is on the wire.
/// - RXT0: the adapter is done with the last descriptor of a frame.
/// - RXDMT0: half of the receive descriptors are still offered.
/// - RXO: a frame was missed.
pub fn interrupt_causes() -> Cause
    ensures { result.0 ≡ handled_causes }
{
    Cause::TXDW
        .union(Cause::RXDMT0)
        .union(Cause::RXO)
        .union(Cause::RXT0)
}

/// Enables the causes that a driver handles. A driver that is ready with its transmit side set up remains ready. No
/// work is forgotten after the call if, before the call, no frame ended in finished slots, or RXT0 was recorded.
pub fn enable_interrupts<B: Bus>(bus: &mut B)
    ensures keeps { Keeps B.Bus bus.old bus.new }
    ensures sets { B.honest bus.old → SetsOnly B.Bus mask_writes bus.old bus.new }
    ensures enables { (d : DriverState) → IsReadyOver B.Bus true (at bus.old d)
        → EnablesCauses B.Bus handled_causes d bus.old bus.new }
{
    bus.write(IMS, interrupt_causes().bits());
}
