// The recorded interrupt causes and their mask: ICR, ICS, IMS and IMC.

ghost use Rattle.std.specs.Prelude.{◌≡◌, ◌↔◌, IsTrue};
ghost use Rattle.registers.specs.Bits.{union, difference, Meet, IsSubset};
ghost use Rattle.registers.specs.Kept.{all_causes, causes_of};

use crate::Cause;
use bitflags::Flags;
use std::marker::Model;

/// The recorded interrupt causes and the mask (13.4.17 to 13.4.21). Both are sets of causes.
#[derive(Clone, Copy, PartialEq, Eq, Debug)]
pub struct Causes {
    recorded: Cause,
    mask: Cause,
}

impl Model for Causes {
    ghost use Rattle.registers.specs.Bits.{IsSubset};
    ghost use Rattle.registers.specs.Kept.{all_causes};
    ghost use Rattle.registers.specs.Interrupts.{Interrupts};

    ghost Value = { Interrupts };

    ghost view = { λ c. record { recorded = c.recorded.0; mask = c.mask.0 } };

    ghost invariant = { λ c. IsSubset c.recorded.0 all_causes × IsSubset c.mask.0 all_causes };

    ghost inverse = { λ v. record { recorded = record { 0 = v.recorded }; mask = record { 0 = v.mask } } };
}

#[tactic(auto, using(crate::specs::Laws::subsets))]
impl Causes {
    /// Returns the state after a reset: no cause is recorded, and the mask is empty.
    pub fn new() -> Causes
        ensures { result ≡ record { recorded = 0; mask = 0 } }
    {
        Causes {
            recorded: Cause::empty(),
            mask: Cause::empty(),
        }
    }

    /// Records these causes, whether they are in the mask or not. Bits of `cause` that aren't causes are ignored.
    pub fn raise(&mut self, cause: Cause)
        ensures { self.new ≡ record self.old { recorded = union self.old.recorded (causes_of cause.0) } }
    {
        self.set(cause.bits());
    }

    /// Reads ICR: returns all recorded causes, in the mask or not, and clears them. Bits that aren't causes read 0.
    pub fn read(&mut self) -> u32
        ensures answer { result ≡ self.old.recorded }
        ensures cleared { self.new ≡ record self.old { recorded = 0 } }
        ensures causes_alone { IsSubset result all_causes }
    {
        let recorded = self.recorded;
        self.recorded = Cause::empty();
        recorded.bits()
    }

    /// Writes ICR: clears each cause whose bit is 1 in the word, in the mask or not. The other causes don't change.
    pub fn clear_written(&mut self, value: u32)
        ensures { self.new ≡ record self.old { recorded = difference self.old.recorded (causes_of value) } }
    {
        self.recorded = self.recorded.difference(Cause::kept(value));
    }

    /// Writes ICS: records the causes whose bits are 1 in the word, in the mask or not.
    pub fn set(&mut self, value: u32)
        ensures { self.new ≡ record self.old { recorded = union self.old.recorded (causes_of value) } }
    {
        self.recorded = self.recorded.union(Cause::kept(value));
    }

    /// Writes IMS: adds to the mask the causes whose bits are 1 in the word. Causes in the mask are enabled: they can
    /// assert the interrupt line.
    pub fn mask(&mut self, value: u32)
        ensures { self.new ≡ record self.old { mask = union self.old.mask (causes_of value) } }
    {
        self.mask = self.mask.union(Cause::kept(value));
    }

    /// Writes IMC: removes from the mask the causes whose bits are 1 in the word, and so disables them.
    pub fn unmask(&mut self, value: u32)
        ensures { self.new ≡ record self.old { mask = difference self.old.mask (causes_of value) } }
    {
        self.mask = self.mask.difference(Cause::kept(value));
    }

    /// Returns the recorded causes, without clearing them. Bits that aren't causes are 0.
    pub fn recorded(&self) -> u32
        ensures answer { result ≡ self.now.recorded }
        ensures causes_alone { IsSubset result all_causes }
    {
        self.recorded.bits()
    }

    /// Reads IMS: returns the mask. Bits that aren't causes read 0.
    pub fn masked(&self) -> u32
        ensures answer { result ≡ self.now.mask }
        ensures causes_alone { IsSubset result all_causes }
    {
        self.mask.bits()
    }

    /// Returns whether the interrupt line is asserted: some recorded cause is in the mask.
    pub fn line(&self) -> bool
        ensures { IsTrue result ↔ Meet self.now.recorded self.now.mask }
    {
        self.recorded.intersects(self.mask)
    }
}
