// The interrupt handler of a host.

ghost use Rattle.std.specs.Prelude.{◌≡◌, ◌≤◌, []};
ghost use Rattle.dma_memory.specs.Layout.{size_of};
ghost use Rattle.adapter.specs.Keeping.{Keeps};
ghost use Rattle.driver.specs.HandlerSteps.{IfHandled, IfNotMine, OnlyReceives};
ghost use Rattle.packet_socket.specs.HostActs.{CallsOver};
ghost use Rattle.packet_socket.specs.HostCalls.{HostServes, host_at};
ghost use Rattle.packet_socket.specs.HostEffects.{InterruptEffect};

use crate::Host;
use adapter::Bus;
use driver::Handled;

impl Host {
    /// Handles an interrupt by [`Driver::interrupt`](driver::Driver::interrupt), and returns its result. Each frame
    /// that the driver takes goes to the end of the queue of the frame's socket. A frame without a socket is counted
    /// ([`unclaimed`](Host::unclaimed)). If the result is `NotMine`, the host is unchanged. If the bus obeys the law
    /// and the host is ready, the call clears no cause that is recorded after its read of ICR. `bus` must have at least
    /// `layout().size()` bytes.
    pub fn interrupt<B: Bus>(&mut self, bus: &mut B) -> Handled
        requires memory { size_of self.old.driver.layout ≤ B.extent bus.old }
        ensures keeps { Keeps B.Bus bus.old bus.new }

        // Over any bus.
        ensures stays { IfNotMine result (self.new ≡ self.old) }
        ensures only_receives { OnlyReceives self.old.driver self.new.driver }
        ensures serves { IfHandled result (HostServes self.old self.new) }

        // Over a bus that obeys the law. The call returns no frames and accepts none (the two empty lists).
        ensures handles { CallsOver B.Bus [] [] (host_at bus.old self.old) (host_at bus.new self.new)
            (InterruptEffect result) }
    {
        self.driver.interrupt(bus, &mut self.sockets)
    }
}
