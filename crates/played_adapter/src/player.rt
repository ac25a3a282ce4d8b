// The adapter that is played.

ghost use Rattle.std.specs.Prelude.{◌≡◌, IfOk, nat_lt};
ghost use Rattle.rand_core.specs.Pcg32Seed.{pcg32_seed};
ghost use Rattle.rand_pcg.specs.Pcg.{pcg32_of_seed};
ghost use Rattle.played_adapter.specs.Playing.{empty_queues, new_player, new_with_room, new_without_wire};

use crate::frames::Frames;
use crate::scheduling::{MOST_SCHEDULED, ScheduledStep};
use crate::wire::WIRE_FRAMES;
use adapter::{Adapter, Machine};
use circular_buffer::HeapCircularBuffer;
use descriptors::FrameQueue;
use dma_memory::HostMemory;
use rand_core::SeedableRng;
use rand_pcg::Lcg64Xsh32;
use std::alloc::{AllocError, Global};
use std::ptr::from_ref;

/// An adapter, its host's memory and its wire, and the steps before its accesses.
#[derive(Drop)]
pub struct PlayedAdapter {
    /// The adapter and its host's memory.
    pub machine: Machine,
    /// The address of the first byte of memory, or `None` if memory is empty. Contracts don't define its value.
    pub address: Option<*const u8>,
    /// The frames that the adapter put on the wire and that nobody has taken, the oldest first.
    pub wire: FrameQueue,
    /// Whether frames that are put wait on the wire. If not, only the observer gets them.
    pub keeps_put: bool,
    /// Whether the wire is free. If not, the wire has no room for a frame.
    pub wire_free: bool,
    /// The offered frames, which wait for their arrival.
    pub offered: Frames,
    /// The generator that draws steps and arrivals before accesses, and numbers.
    pub generator: Lcg64Xsh32,
    /// The maximum number of steps and arrivals that are drawn before an access.
    pub most_steps: u16,
    /// The maximum number of cycles that the calls `serve_..` and the C library play after an access or an arrival.
    pub pace: u16,
    /// The scheduled steps, which wait for their accesses, in the order in which they were added.
    pub scheduled: HeapCircularBuffer<ScheduledStep>,
    /// The number of accesses so far, up to the greatest `u64`. The accesses of calls `serve_..` aren't counted.
    pub accesses: u64,
    /// Whether a step of the EEPROM and one of the PHY are played before each access that is counted.
    pub ticks: bool,
}

/// The frames and steps that wait, in the fields of [`PlayedAdapter`] with these names.
#[derive(Drop)]
pub(crate) struct Queues {
    pub(crate) wire: FrameQueue,
    pub(crate) offered: Frames,
    pub(crate) scheduled: HeapCircularBuffer<ScheduledStep>,
}

impl Queues {
    /// Returns empty queues, with room for `frames` frames on the wire, and for `steps` scheduled steps. Fails only if
    /// memory was refused.
    fn new(alloc: Global, frames: u8, steps: usize) -> Result<Queues, AllocError>
        ensures { IfOk result (λ queues. queues ≡ empty_queues frames steps) }
    {
        let wire = FrameQueue::new(alloc, frames)?;
        let scheduled = HeapCircularBuffer::with_capacity(alloc, steps)?;
        Ok(Queues {
            wire,
            offered: Frames::new(alloc),
            scheduled,
        })
    }
}

/// Returns the address of the first byte of memory, or `None` if memory is empty.
pub(crate) fn address_of(memory: &HostMemory) -> Option<*const u8> {
    match memory.view(0, 1) {
        Ok([first, ..]) => Some(from_ref(first)),
        _ => None,
    }
}

impl PlayedAdapter {
    /// Returns this adapter with this memory. Its wire is empty, and has room for `frames` frames. If `frames` is 0,
    /// frames that are put don't wait on the wire. No step is scheduled, and there is room for `steps` steps. No frame
    /// is offered, and no step is played before or after an access. The generator has this seed. Fails only if memory
    /// was refused. The clause states nothing about the address.
    #[tactic(auto, unfolding(crate::specs::Playing::new_with_queues))]
    fn with_room(
        alloc: Global,
        adapter: Adapter,
        memory: HostMemory,
        frames: u8,
        steps: usize,
        seed: u64,
    ) -> Result<PlayedAdapter, AllocError>
        ensures { IfOk result (λ player. player ≡ record (new_with_room frames steps memory adapter player.address) {
          keeps_put = nat_lt 0 frames;
          generator = pcg32_of_seed (pcg32_seed 16 seed);
        }) }
    {
        let address = address_of(&memory);
        let machine = Machine::new(adapter, memory);
        let queues = Queues::new(alloc, frames, steps)?;
        Ok(PlayedAdapter {
            machine,
            address,
            wire: queues.wire,
            keeps_put: frames > 0,
            wire_free: true,
            offered: queues.offered,
            generator: Lcg64Xsh32::seed_from_u64(seed),
            most_steps: 0,
            pace: 0,
            scheduled: queues.scheduled,
            accesses: 0,
            ticks: false,
        })
    }

    /// Returns this adapter with this memory and an empty wire, on which frames that are put wait.
    ///
    /// No frame is offered, and no step is played before or after an access.
    ///
    /// # Errors
    ///
    /// If memory is refused.
    #[tactic(auto, unfolding(crate::specs::Playing::new_with_queues))]
    pub fn new(
        alloc: Global,
        adapter: Adapter,
        memory: HostMemory,
    ) -> Result<PlayedAdapter, AllocError>
        ensures { IfOk result (λ player. player ≡ new_player memory adapter player.address) }
    {
        PlayedAdapter::with_room(alloc, adapter, memory, WIRE_FRAMES, MOST_SCHEDULED, 0)
    }

    /// Returns an adapter as [`new`](PlayedAdapter::new) does, for a caller whose observer takes the frames that are
    /// put. So these frames don't wait on the wire. No step can be scheduled. The generator has this seed.
    ///
    /// # Errors
    ///
    /// If memory is refused.
    pub fn without_wire(
        alloc: Global,
        adapter: Adapter,
        memory: HostMemory,
        seed: u64,
    ) -> Result<PlayedAdapter, AllocError>
        ensures { IfOk result (λ player. player ≡ new_without_wire memory adapter seed player.address) }
    {
        // No room for frames on the wire, or for scheduled steps.
        PlayedAdapter::with_room(alloc, adapter, memory, 0, 0, seed)
    }
}
