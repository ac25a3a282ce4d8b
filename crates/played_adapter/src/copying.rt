// A copy of an adapter.

ghost use Rattle.std.specs.Prelude.{◌≡◌, IfOk};
ghost use Rattle.played_adapter.specs.Playing.{IsCopy};

use crate::player::{PlayedAdapter, Queues, address_of};
use adapter::Machine;
use descriptors::copy_of;
use std::alloc::AllocError;

/// Returns a copy of the adapter and its memory. Fails only if memory was refused. This is `clone`, with a clause that
/// states what a copy is.
fn copy_of_machine(machine: &Machine) -> Result<Machine, AllocError>
    ensures { IfOk result (λ copy. copy ≡ machine.now) }
{
    machine.clone()
}

impl PlayedAdapter {
    /// Returns copies of the frames on the wire, the offered frames and the scheduled steps. Fails only if memory was
    /// refused.
    fn copy_queues(&self) -> Result<Queues, AllocError>
        ensures wire { IfOk result (λ queues. queues.wire ≡ self.now.wire) }
        ensures offered { IfOk result (λ queues. queues.offered ≡ self.now.offered) }
        ensures scheduled { IfOk result (λ queues. queues.scheduled ≡ self.now.scheduled) }
    {
        let wire = self.wire.clone()?;
        let offered = self.offered.clone()?;
        let scheduled = copy_of(&self.scheduled)?;
        Ok(Queues {
            wire,
            offered,
            scheduled,
        })
    }

    /// Returns a copy of the adapter with everything that its calls depend on.
    ///
    /// The copy has memory of its own, and the level of its interrupt line counts as reported.
    ///
    /// # Errors
    ///
    /// If memory is refused.
    pub fn copy(&self) -> Result<PlayedAdapter, AllocError>
        ensures { IfOk result (λ copy. IsCopy self.now copy) }
    {
        let generator = self.generator.clone()?;
        let queues = self.copy_queues()?;
        let machine = copy_of_machine(&self.machine)?;
        // The parts make a new machine, because the level of a new machine's line counts as reported.
        let (adapter, memory) = machine.into_parts();
        let address = address_of(&memory);
        Ok(PlayedAdapter {
            machine: Machine::new(adapter, memory),
            address,
            wire: queues.wire,
            keeps_put: self.keeps_put,
            wire_free: self.wire_free,
            offered: queues.offered,
            generator,
            most_steps: self.most_steps,
            pace: self.pace,
            scheduled: queues.scheduled,
            accesses: self.accesses,
            ticks: self.ticks,
        })
    }
}
