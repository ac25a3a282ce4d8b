// The interrupt handler.

ghost use Rattle.std.specs.Prelude.{◌≡◌, ◌↔◌, ◌<◌, ◌≤◌, ◌∷◌, [], IsTrue};
ghost use Rattle.registers.specs.Bits.{Meet};
ghost use Rattle.dma_memory.specs.Layout.{size_of};
ghost use Rattle.adapter.specs.bus_types.event.Access.TheVariants.{Reads};
ghost use Rattle.adapter.specs.Keeping.{Keeps};
ghost use Rattle.adapter.specs.Calls.{Runs, at, only, missed_added};
ghost use Rattle.adapter.specs.Calls as calls;
ghost use Rattle.driver.specs.HandlerSteps.{Handles, IfHandled, IfNotMine, OnlyReceives};
ghost use Rattle.driver.specs.HandlerSteps.{ServesReceiver, WhereReadyIn, scene};
ghost use Rattle.bring_up.specs.WrittenRegisters.{handled_causes};

use crate::{Driver, Receiver};
use adapter::Bus;
use adapter::offsets::{ICR, MPC};
use bitflags::Flags;
use bring_up::interrupt_causes;
use registers::Cause;

/// The result of handling an interrupt.
#[derive(Clone, Copy, Debug, PartialEq, Eq)]
pub enum Handled {
    /// The value of ICR had none of TXDW, RXDMT0, RXO and RXT0.
    NotMine,
    /// The value of ICR had at least one of TXDW, RXDMT0, RXO and RXT0.
    Handled {
        /// The number of frames that the receiver was shown. Runs of slots that don't contain a whole frame aren't
        /// counted here.
        taken: u64,
    },
}

/// Returns whether `causes` has at least one of TXDW, RXDMT0, RXO and RXT0.
fn is_mine(causes: u32) -> bool
    ensures { IsTrue result ↔ Meet causes handled_causes }
{
    Cause(causes).intersects(interrupt_causes())
}

/// Returns whether adding `value`, read from MPC, keeps the sum `missed` exact: `value` is below MPC's greatest value,
/// and the sum doesn't saturate.
fn adds_exactly(missed: u64, value: u32) -> bool
    ensures { result ≡ calls.adds_exactly missed value }
{
    value < u32::MAX && u64::from(value) <= u64::MAX - missed
}

impl Driver {
    /// Reads MPC, adds its value to the sum of missed frames, up to the greatest `u64`, and returns this value, which
    /// only contracts use. The sum remains exact only if the value is added exactly (`adds_exactly`). If the bus obeys
    /// the law, MPC is 0 after the call (`cleared`), and RCTL doesn't change (`settings`). So a receiver that a reset
    /// has disabled remains disabled.
    pub(crate) fn count_missed<B: Bus>(&mut self, bus: &mut B) -> u32
        ensures keeps { Keeps B.Bus bus.old bus.new }
        ensures others { self.new ≡ missed_added result self.old }
        ensures cleared { B.honest bus.old → (B.world bus.new).adapter.missed_packets ≡ 0 }
        ensures settings { B.honest bus.old
            → (B.world bus.new).adapter.filter.rctl ≡ (B.world bus.old).adapter.filter.rctl }
        ensures ran { Runs B.Bus (only (Reads MPC result ∷ [])) (at bus.old self.old) (at bus.new self.new) }
    {
        let value = bus.read(MPC);
        self.exact = self.exact && adds_exactly(self.missed, value);
        self.missed = self.missed.saturating_add(u64::from(value));
        value
    }

    /// Handles an interrupt. Returns the number of frames that the receiver was shown, or `NotMine` if the value of ICR
    /// has none of the four causes below. The handler frees no transmit slots.
    ///
    /// If the bus obeys the law and the driver is ready, the call makes these accesses, in order:
    ///
    /// - It reads ICR. If the value has none of TXDW, RXDMT0, RXO and RXT0, the result is `NotMine`, and there is no
    ///   other access.
    /// - It reads MPC.
    /// - It looks at slots, takes frames, and loads bytes 12 and 13 of each frame, until no frame ends in finished
    ///   slots. These frames include all frames that ended in finished slots at the beginning.
    /// - It refills the ring.
    ///
    /// ICR is read before the slots are looked at, so a frame that ends later records RXT0 again. If RXT0 is in IMS at
    /// the beginning and the result is `Handled`, no work is forgotten at the end. If the result is `NotMine` and no
    /// work was forgotten at the beginning, no work is forgotten at the end.
    ///
    /// If the bus doesn't obey the law or the driver isn't ready, the contract states no accesses. The contract then
    /// states how the driver, its buffers and the receiver change. The bus keeps its size and the values lent to it. A
    /// bus that obeys the law still obeys it after the call, and a lively bus is still lively. `bus` must have at least
    /// `layout().size()` bytes.
    pub fn interrupt<B: Bus, R: Receiver>(&mut self, bus: &mut B, receiver: &mut R) -> Handled
        requires memory { size_of self.old.layout ≤ B.extent bus.old }
        ensures keeps { Keeps B.Bus bus.old bus.new }

        // Over any bus.
        ensures not_mine { IfNotMine result ((self.new ≡ self.old) × (receiver.new ≡ receiver.old)) }
        ensures only_receives { OnlyReceives self.old self.new }
        ensures serves { IfHandled result (ServesReceiver R.Receiver receiver.old receiver.new self.old self.new) }

        // Over a bus that obeys the law.
        ensures handles { WhereReadyIn B.Bus (scene bus.old self.old receiver.old) (scene bus.new self.new receiver.new)
            (Handles B.Bus R.Receiver result) }
    {
        if !is_mine(bus.read(ICR)) {
            return Handled::NotMine;
        }
        self.count_missed(bus);
        let taken = self.take_finished(bus, receiver);
        self.refill(bus);
        Handled::Handled {
            taken: taken as u64,
        }
    }
}
