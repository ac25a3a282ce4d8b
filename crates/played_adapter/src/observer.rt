// Observers of what happens to an adapter.

ghost use Rattle.std.specs.Prelude.{◌≤◌, ◌∷◌, [], List, length};
ghost use Rattle.adapter.specs.Outcomes.{with_frame};
ghost use Rattle.adapter.specs.bus_types.event.Access.TheVariants.{Loads, Reads, Stores, Writes};
ghost use Rattle.descriptors.specs.Frames.{longest_frame};
ghost use Rattle.played_adapter.specs.Order.{ComposesHeard};
ghost use Rattle.played_adapter.specs.Told as told;
ghost use Rattle.played_adapter.specs.Told.{Told};

use access_names::EngineFault;
use adapter::{Fate, Outcome, StepKind};
use step_schedules::Action;

/// An observer is told what happens to an adapter, in order. It borrows bytes, and must copy the bytes that it needs
/// later.
pub trait Observer {
    /// Holds between two states of the observer if the observer was told this list, in order, between them.
    ghost heard: { Self → Self → List Told → Type 0 };

    /// A step had this outcome. If the step put a frame, `frame` is this frame; otherwise `frame` has no meaning.
    /// `frame` has at most 1,518 bytes. If the outcome is a fault, `fault` contains its engine, index and reason.
    fn stepped(
        &mut self,
        kind: StepKind,
        outcome: Outcome<()>,
        frame: &[u8],
        fault: Option<EngineFault>,
    )
        requires fits { length frame.now ≤ longest_frame }
        ensures { heard self.old self.new (told.Stepped kind (with_frame frame.now outcome) fault ∷ []) };

    /// A frame that didn't wait in the queue `offered` arrived, and had this fate.
    fn arrived(&mut self, frame: &[u8], fate: Fate)
        ensures { heard self.old self.new (told.Arrived frame.now fate ∷ []) };

    /// A frame that waited in the queue `offered` of the [`PlayedAdapter`](crate::PlayedAdapter) arrived, and had this
    /// fate.
    fn offered_arrived(&mut self, frame: &[u8], fate: Fate)
        ensures { heard self.old self.new (told.OfferedArrived frame.now fate ∷ []) };

    /// The register at an offset was read as this value.
    fn read(&mut self, offset: u32, value: u32)
        ensures { heard self.old self.new (told.Accessed (Reads offset value) ∷ []) };

    /// The register at an offset was written with this value.
    fn written(&mut self, offset: u32, value: u32)
        ensures { heard self.old self.new (told.Accessed (Writes offset value) ∷ []) };

    /// These bytes were loaded from memory, from an address on. `heard` lists only the address and their number.
    fn loaded(&mut self, address: u64, bytes: &[u8])
        ensures { heard self.old self.new (told.Accessed (Loads address (length bytes.now)) ∷ []) };

    /// These bytes were stored in memory, from an address on.
    fn stored(&mut self, address: u64, bytes: &[u8])
        ensures { heard self.old self.new (told.Accessed (Stores address bytes.now) ∷ []) };

    /// A choice did something, a default step was left out, or a number above 0 was chosen.
    fn noted(&mut self, action: Action)
        ensures { heard self.old self.new (told.Noted action ∷ []) };

    /// The level of the interrupt line changed to `level`: true if the line is asserted.
    fn line(&mut self, level: bool)
        ensures { heard self.old self.new (told.Line level ∷ []) };

    /// From a state to itself, the observer was told nothing. What it was told in two consecutive intervals is, joined,
    /// what it was told in the whole interval.
    ghost composes: { ComposesHeard heard };
}
