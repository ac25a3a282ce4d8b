// Resetting the adapter of a host.

ghost use Rattle.std.specs.Prelude.{◌≡◌, ◌≤◌, Bool};
ghost use Rattle.dma_memory.specs.Layout.{size_of};
ghost use Rattle.adapter.specs.Keeping.{Keeps};
ghost use Rattle.packet_socket.specs.HostCalls.{IsReadyHost, host_at};
ghost use Rattle.packet_socket.specs.HostResets.{HostResets};

use crate::Host;
use adapter::Bus;

impl Host {
    /// Returns the place of the oldest outstanding slot of the receive ring, or of the next receive slot to be offered
    /// if no slot is outstanding. A reset drops the received frames in the slots from this place on.
    pub fn oldest(&self) -> u16
        ensures { result ≡ self.now.driver.oldest_receive }
    {
        self.driver.oldest()
    }

    /// Resets the adapter by [`Driver::reset`](driver::Driver::reset). The frames that are queued for sockets remain
    /// queued. `bus` must have at least `layout().size()` bytes.
    pub fn reset<B: Bus>(&mut self, bus: &mut B)
        requires memory { size_of self.old.driver.layout ≤ B.extent bus.old }
        ensures keeps { Keeps B.Bus bus.old bus.new }
        ensures others { self.new ≡ record self.old { driver = self.new.driver } }
        ensures layout { self.new.driver.layout ≡ self.old.driver.layout }
        ensures setup { self.new.driver.setup ≡ self.old.driver.setup }
        ensures groups { self.new.driver.groups ≡ self.old.driver.groups }
        ensures resets { (up : Bool) → IsReadyHost B.Bus up (host_at bus.old self.old)
            → HostResets B.Bus up (host_at bus.old self.old) (host_at bus.new self.new) }
    {
        self.driver.reset(bus);
    }
}
