//! Each function makes a call, and states a consequence of the call's contract. A body for which a consequence is false
//! can't meet the contract.

ghost use Rattle.std.specs.Prelude.{◌≡◌, ◌≢◌, ◌*◌, ◌+◌, ◌≤◌, ◌++◌, ◌∷◌, [], All, IsOk, List, length};
ghost use Rattle.dma_memory.specs.Layout.{size_of};
ghost use Rattle.eeprom.specs.Image.{HasRightSum};
ghost use Rattle.bring_up.specs.EepromReading.{most_reads};
ghost use Rattle.bring_up.specs.Link.{NeedsMoreThan};
ghost use Rattle.driver.specs.HandlerSteps.{IfHandled};
ghost use Rattle.driver.specs.declared.receiver.Received.{Received};
ghost use Rattle.packet_socket.specs.HostState.{queue_at};
ghost use Rattle.packet_socket.specs.declared.socket_kind.SocketKind.TheVariants as kinds;
ghost use Rattle.driver.specs.Growth.{GrowsBy};

use adapter::Bus;
use driver::{Driver, Handled, InitError, Receiver};
use eeprom::Image;
use packet_socket::Host;

/// Over a lively bus that obeys the law, a device with a right checksum is found if its link needs at most 2,000 ticks.
pub fn sound_devices_are_found<B: Bus>(bus: &mut B, kilobytes: u8) -> Result<Image, InitError>
    ensures found { B.lively bus.old → B.honest bus.old → HasRightSum (B.world bus.old).adapter.image
        → ¬ (NeedsMoreThan (2 * most_reads) (B.world bus.old).adapter.phy.link) → IsOk result }
{
    bring_up::find_device(bus, kilobytes)
}

/// Over any bus, the number of frames taken plus bad runs counted is at most the number of receive slots that were
/// outstanding.
pub fn runs_have_slots<B: Bus, R: Receiver>(
    driver: &mut Driver,
    bus: &mut B,
    receiver: &mut R,
) -> Handled
    requires memory { size_of driver.old.layout ≤ B.extent bus.old }
    ensures counted { IfHandled result (λ taken. taken + driver.new.bad ≤ driver.old.bad + length driver.old.buffers) }
{
    driver.interrupt(bus, receiver)
}

/// Over any bus, a host without sockets counts each frame that it takes as unclaimed, until the count is the greatest
/// `u64`.
pub fn frames_without_sockets_are_counted<B: Bus>(host: &mut Host, bus: &mut B) -> Handled
    requires memory { size_of host.old.driver.layout ≤ B.extent bus.old }
    ensures counted { IfHandled result (λ taken. host.old.kinds ≡ []
        → GrowsBy host.old.unclaimed host.new.unclaimed taken) }
{
    host.interrupt(bus)
}

/// Over any bus, let socket 0 be for all frames, and socket 1, the only other socket, for EtherType 0x0806 (ARP). Then
/// no frame of EtherType 0x0806 is added to the queue of socket 0.
pub fn ether_sockets_come_first<B: Bus>(host: &mut Host, bus: &mut B) -> Handled
    requires memory { size_of host.old.driver.layout ≤ B.extent bus.old }
    ensures sorted { IfHandled result (λ taken. host.old.kinds ≡ kinds.All ∷ kinds.Ether 0x0806 ∷ []
        → (more : List Received) × ((queue_at host.new.queues 0 ≡ queue_at host.old.queues 0 ++ more)
        × All (λ received. received.ether_type ≢ 0x0806) more)) }
{
    host.interrupt(bus)
}
