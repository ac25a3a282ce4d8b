// Initialization of a host by its plan.

ghost use Rattle.std.specs.Prelude.{◌≡◌, ◌≤◌, [], ℕ, IfErr, IfOk, length};
ghost use Rattle.adapter.specs.Registers.{new_adapter};
ghost use Rattle.bring_up.specs.Configuration.{configured_counts};
ghost use Rattle.dma_memory.specs.Layout.{size_of};
ghost use Rattle.network_plan.specs.Plans.{HasConfig};
ghost use Rattle.wire.specs.HostsUp.{ComesUp, IsReason};

use adapter::{Adapter, LivelyBus, Machine};
use arrayvec::ArrayVec;
use dma_memory::HostMemory;
use driver::InitError;
use network_plan::{HostPlan, MOST_SOCKETS};
use packet_socket::{Host, SocketKind};
use std::alloc::Global;

/// Makes a host's adapter, and its memory with the layout's size, and initializes the adapter. Before each access of
/// the initialization, the EEPROM and the PHY take a step, and no frame arrives. The host isn't connected to a wire
/// yet, so `comes_up` holds for each number of a wire. The plan's configuration must be valid. Its link must need at
/// least one PHY tick, or never be up (`HasConfig`).
///
/// # Errors
///
/// - [`Memory`](InitError::Memory) if memory can't be allocated.
/// - [`Checksum`](InitError::Checksum) if the EEPROM's checksum is wrong.
/// - [`NoLink`](InitError::NoLink) if the checksum is right, and the link needs more than 2,000 PHY ticks or is never
///   up.
pub fn bring_up_host(alloc: Global, plan: &HostPlan) -> Result<(Host, Machine), InitError>
    requires { HasConfig plan.now }
    ensures comes_up { IfOk result (λ made. (wire : ℕ)
        → ComesUp plan.now made.0 (record { world = made.1.world; wire = wire; backlog = [] })) }
    ensures why { IfErr result (IsReason plan.now) }
{
    let mut machine = machine_of(alloc, plan)?;
    let table = sockets_of(plan.sockets.as_slice());
    let mut bus = LivelyBus {
        machine: &mut machine,
        accesses: 0,
    };
    let host = Host::new(alloc, &mut bus, &plan.config, table)?;
    Ok((host, machine))
}

/// Returns a machine: a new adapter with the plan's EEPROM and link, and a memory with the size of the plan's layout.
/// `HasConfig` must hold for the plan.
///
/// # Errors
///
/// Only [`Memory`](InitError::Memory), because a plan with `HasConfig` has a layout.
fn machine_of(alloc: Global, plan: &HostPlan) -> Result<Machine, InitError>
    requires { HasConfig plan.now }
    ensures adapter { IfOk result (λ machine. machine.world.adapter ≡ new_adapter plan.now.image plan.now.link) }
    ensures memory { IfOk result
        (λ machine. length machine.world.memory ≡ size_of (configured_counts plan.now.config)) }
    ensures error { IfErr result (λ error. error ≡ InitError.Memory) }
{
    // `u64::MAX`: no memory limits the layout, because the memory is made with the layout's size. `HasConfig` states
    // that the configuration has a layout.
    let layout = plan.config.layout(u64::MAX).unwrap();
    let memory = HostMemory::new(alloc, layout.size())?;
    let adapter = Adapter::new(alloc, &plan.image, plan.link)?;
    Ok(Machine::new(adapter, memory))
}

/// Returns the table of sockets for a host: a copy of `sockets`, in the same order. There must be at most
/// [`MOST_SOCKETS`] (8) sockets.
fn sockets_of(sockets: &[SocketKind]) -> ArrayVec<SocketKind, MOST_SOCKETS>
    requires { length sockets.now ≤ MOST_SOCKETS }
    ensures { result.items ≡ sockets.now }
{
    let mut table = ArrayVec::new();
    for socket in sockets {
        table.push(*socket);
    }
    table
}
