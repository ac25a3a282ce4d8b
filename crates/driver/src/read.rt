// Reading a frame that was delivered.

ghost use Rattle.std.specs.Prelude.{◌≡◌, ◌≤◌, ◌<◌, All, take, drop};
ghost use Rattle.dma_memory.specs.Layout.{size_of};
ghost use Rattle.adapter.specs.Keeping.{Keeps};
ghost use Rattle.adapter.specs.Calls.{Runs, at, only};
ghost use Rattle.driver.specs.HandlerSteps.{ReadsHeld};
ghost use Rattle.driver.specs.Parts.{IsWholeFrame, buffers_in, part_loads};

use crate::{Driver, Received};
use adapter::Bus;

impl Driver {
    /// Copies a received frame to the front of `into`, by one load from each of its buffers, and returns its size in
    /// bytes. The bytes of `into` after this size don't change.
    ///
    /// The frame's length must be 60 to 1,518 bytes and the sum of the sizes of its pieces. Each piece must have at
    /// most 256 bytes. The numbers of the frame's buffers must be below the number of the driver's buffers. `bus` must
    /// have at least `layout().size()` bytes.
    pub fn read<B: Bus>(&self, bus: &mut B, received: &Received, into: &mut [u8; 1518]) -> usize
        requires memory { size_of self.now.layout ≤ B.extent bus.old }
        requires known { All (λ number. number < self.now.layout.buffers) (buffers_in received.now.parts) }
        requires whole { IsWholeFrame received.now }
        ensures keeps { Keeps B.Bus bus.old bus.new }
        ensures length { result ≡ received.now.len }
        ensures rest { drop result into.new ≡ drop result into.old }

        // Over a bus that obeys the law, with a ready driver. `frame`: if others hold this frame, its bytes are copied.
        ensures ran { Runs B.Bus (only (part_loads self.now.layout received.now.parts))
            (at bus.old self.now) (at bus.new self.now) }
        ensures frame { ReadsHeld B.Bus received.now (at bus.old self.now) (take result into.new) }
    {
        let mut read = 0;
        let mut index = 0;
        while let Some(part) = received.parts.get(index) {
            let end = read + usize::from(part.length);
            let buffer = self.layout.receive_buffer(part.buffer.number());
            bus.load(buffer, &mut into[read..end]);
            read = end;
            index += 1;
        }
        read
    }
}
