// The state before the first request.

ghost use Rattle.std.specs.Prelude.{◌≡◌, IfOk};
ghost use Rattle.adapter_server.specs.NewSessions.{new_device};
ghost use Rattle.adapter_server.specs.Serving.{server_with};

use crate::options::ServeOptions;
use crate::session::Session;
use crate::snapshot::Server;
use adapter::Adapter;
use adapter::offsets::PBA;
use dma_memory::HostMemory;
use played_adapter::{Frames, PlayedAdapter};
use registers::PciFunction;
use server_output::{Faults, Kept};
use std::alloc::{AllocError, Global};
use step_schedules::Player;

/// Returns a new adapter with the EEPROM and the link of the options, and memory of zeros. PBA was written once, with
/// the kilobytes of the options, and MPC has the count of the options. No frame is offered, and no step is played
/// before or after an access. Frames that the adapter puts don't wait on a wire: only the observer gets them.
pub(crate) fn new_device(alloc: Global, options: &ServeOptions) -> Result<PlayedAdapter, AllocError>
    // Contracts don't define the address of the memory, so the clause uses the result's address.
    ensures { IfOk result (λ device. device ≡ new_device options.now device.address) }
{
    let memory = HostMemory::new(alloc, options.memory)?;
    let mut adapter = Adapter::new(alloc, &options.image, options.link)?;
    adapter.write(PBA, u32::from(options.receive_kilobytes));
    adapter.set_missed(options.missed);
    PlayedAdapter::without_wire(alloc, adapter, memory, options.seed)
}

/// Returns a server before the first request, with this adapter, and this player, if there is one. Log and events are
/// off, the clock is at 0, and there is no saved copy.
pub(crate) fn new_server(
    alloc: Global,
    options: &ServeOptions,
    device: PlayedAdapter,
    player: Option<Player>,
) -> Server
    ensures { result ≡ server_with device options.now player }
{
    let (agenda, recorder) = match player {
        Some(player) => (Some(player.agenda), Some(player.recorder)),
        None => (None, None),
    };
    let session = Session {
        device,
        function: PciFunction::new(options.registers),
        clock: 0,
        kept: Kept {
            log: false,
            events: false,
            put: Frames::new(alloc),
            faults: Faults::new(alloc),
            recorder,
        },
        agenda,
        number: None,
        targets: false,
    };
    Server {
        session,
        saved: None,
    }
}
