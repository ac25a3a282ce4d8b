// How a driver takes received frames off its ring, and shows them to a receiver.

ghost use Rattle.std.specs.Prelude.{◌≡◌, ◌+◌, ◌<◌, ◌≤◌, ◌++◌, drop, length, take, All};
ghost use Rattle.circular_buffer.specs.Buffer.{buffer};
ghost use Rattle.dma_memory.specs.Layout.{size_of};
ghost use Rattle.dma_memory.specs.Owners.{HasNoSecondOwner};
ghost use Rattle.adapter.specs.Keeping.{Keeps};
ghost use Rattle.adapter.specs.Calls.{Runs, at, ether_type_load, only};
ghost use Rattle.adapter.specs.DriverState.{owners};
ghost use Rattle.driver.specs.HandlerSteps.{PassesOn, HandsOver, HasParts, LeavesRing, ReadsEtherType, Shows, TakesAll};
ghost use Rattle.driver.specs.HandlerSteps.{TakesSlots, WhereReadyIn, WhereTaken, run_with, scene};
ghost use Rattle.driver.specs.Parts.{buffers_in, lengths_in};

use crate::look::Run;
use crate::{Driver, MOST_PARTS, Part, Parts, Received, Receiver};
use adapter::Bus;
use circular_buffer::HeapCircularBuffer;
use dma_memory::BufId;

/// The offset of the EtherType in a frame, in bytes.
const ETHER_TYPE: u64 = 12;

/// Removes the oldest buffers from a queue, one for each length, and returns them with these lengths. There must be at
/// most six lengths, and the queue must contain a buffer for each length.
fn take_parts(queue: &mut HeapCircularBuffer<BufId>, lengths: &[u16]) -> Parts
    requires few { length lengths.now ≤ MOST_PARTS }
    requires enough { length lengths.now ≤ length queue.old.items }
    ensures left { queue.new ≡ buffer (drop (length lengths.now) queue.old.items) queue.old.capacity }
    ensures buffers { buffers_in result ≡ take (length lengths.now) queue.old.items }
    ensures lengths { lengths_in result ≡ lengths.now }
{
    let mut parts = Parts::new();
    for length in lengths {
        // The queue contains a buffer for each length, so `pop_front` never returns `None` here.
        if let Some(buffer) = queue.pop_front() {
            parts.push(Part {
                buffer,
                length: *length,
            });
        }
    }
    parts
}

impl Driver {
    /// Takes the slots of a run off the ring, and returns their buffers, each with the length of its data. The run must
    /// have at most six slots, and all these slots must be outstanding. `size` is true of each run, because its lengths
    /// are an array of six items. No buffer is both returned and still owned by the driver (`one_owner`).
    fn take_run(&mut self, run: &Run) -> Parts
        requires size { length run.now.lengths ≡ MOST_PARTS }
        requires few { run.now.count ≤ MOST_PARTS }
        requires enough { run.now.count ≤ length self.old.buffers }
        ensures leaves { LeavesRing run.now result self.old self.new }
        ensures one_owner { HasNoSecondOwner self.new.layout.buffers (buffers_in result ++ owners self.new) }
    {
        let parts = take_parts(&mut self.buffers, &run.lengths[..run.count]);
        self.oldest_receive = (self.oldest_receive + run.count as u16) % self.layout.rx();
        parts
    }

    /// Returns bytes 12 and 13 of the frame in these buffers, by one load from the first buffer. Returns 0 if there is
    /// no buffer. The numbers of these buffers must be below the number of the driver's buffers.
    fn ether_type<B: Bus>(&self, bus: &mut B, parts: &Parts) -> u16
        requires memory { size_of self.now.layout ≤ B.extent bus.old }
        requires known { All (λ number. number < self.now.layout.buffers) (buffers_in parts.now) }
        ensures keeps { Keeps B.Bus bus.old bus.new }
        ensures ran { Runs B.Bus (only (ether_type_load self.now.layout (buffers_in parts.now)))
            (at bus.old self.now) (at bus.new self.now) }
        ensures shows { ReadsEtherType B.Bus parts.now (at bus.old self.now) result }
    {
        let Some(first) = parts.get(0) else {
            return 0;
        };
        let mut bytes = [0; 2];
        bus.load(
            self.layout.receive_buffer(first.buffer.number()) + ETHER_TYPE,
            &mut bytes,
        );
        u16::from_be_bytes(bytes)
    }

    /// Shows a frame to the receiver. If the receiver returns the frame's buffers, they are put into the pool. Before
    /// the call, these buffers must have no other owner.
    fn show<R: Receiver>(&mut self, received: Received, receiver: &mut R)
        requires one_owner { HasNoSecondOwner self.old.layout.buffers (buffers_in received.parts ++ owners self.old) }
        ensures others { self.new ≡ record self.old { pool = self.new.pool } }
        ensures shows { Shows R.took receiver.old receiver.new received self.old.pool self.new.pool }
    {
        let back = receiver.take(received);
        self.put_back(back);
    }

    /// Passes on a run that was taken, and returns whether the run contains a whole frame. A whole frame is shown to
    /// the receiver. The buffers of any other run return to the pool, and the run is counted as bad.
    ///
    /// `parts` must be the buffers of the run with their lengths, and these buffers must have no other owner. If the
    /// run is whole, its length must be legal, and each part must fit into a buffer.
    fn pass_on<B: Bus, R: Receiver>(
        &mut self,
        bus: &mut B,
        parts: Parts,
        run: &Run,
        receiver: &mut R,
    ) -> bool
        requires memory { size_of self.old.layout ≤ B.extent bus.old }
        requires one_owner { HasNoSecondOwner self.old.layout.buffers (buffers_in parts ++ owners self.old) }
        requires parts { HasParts run.now parts }
        ensures keeps { Keeps B.Bus bus.old bus.new }
        ensures whole { result ≡ run.now.whole }
        ensures others { self.new ≡ record self.old { pool = self.new.pool; bad = self.new.bad } }
        // The frame shown and the owners of the buffers, over any bus.
        ensures hands { PassesOn R.took receiver.old receiver.new (run_with parts result) self.old self.new }
        // The access of a whole frame, over a bus that obeys the law.
        ensures over { WhereTaken B.Bus parts result
            (scene bus.old self.old receiver.old) (scene bus.new self.new receiver.new)
            (HandsOver B.Bus R.Receiver) }
    {
        if !run.whole {
            self.put_back(parts);
            self.bad = self.bad.saturating_add(1);
            return false;
        }
        let ether_type = self.ether_type(bus, &parts);
        // A whole frame has at most 1,518 bytes, so its length fits into `u16`.
        let received = Received {
            parts,
            len: run.length as u16,
            ether_type,
        };
        self.show(received, receiver);
        true
    }

    /// Takes runs of finished receive slots, the oldest first, until [`look`](Driver::look) finds no run. Shows the
    /// frame of each whole run to the receiver, and returns the number of these frames. Counts other runs as bad.
    /// Finished slots after the last run remain in the ring.
    ///
    /// Over a bus that obeys the law, a driver that is ready loads each descriptor of a frame's slots once. Then it
    /// loads bytes 12 and 13 of the frame. After the last frame, the driver loads the descriptors of the remaining
    /// finished slots, and that of the next outstanding slot if there is one. `bus` must have at least
    /// `layout().size()` bytes.
    pub fn take_finished<B: Bus, R: Receiver>(&mut self, bus: &mut B, receiver: &mut R) -> usize
        requires memory { size_of self.old.layout ≤ B.extent bus.old }
        ensures keeps { Keeps B.Bus bus.old bus.new }
        ensures slots { TakesSlots R.Receiver result receiver.old receiver.new self.old self.new }
        ensures one_owner { HasNoSecondOwner self.new.layout.buffers (owners self.new) }
        ensures takes { WhereReadyIn B.Bus (scene bus.old self.old receiver.old) (scene bus.new self.new receiver.new)
            (TakesAll B.Bus R.Receiver result) }
    {
        let mut taken = 0;
        while let Some(run) = self.look(bus) {
            let parts = self.take_run(&run);
            taken += usize::from(self.pass_on(bus, parts, &run, receiver));
        }
        taken
    }
}
