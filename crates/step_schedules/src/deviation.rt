// Deviations from what an adapter does by default.

ghost use Rattle.std.specs.Prelude.{◌≡◌};
ghost use Rattle.step_schedules.specs.Deviations.{deviation_value, is_before};

use std::alloc::AllocError;

/// A place of a run: an access of a round, or the request that begins a round. A request `choose` counts as an access.
#[derive(Clone, Copy, PartialEq)]
pub struct Place {
    /// The number of the round. Round 0 is before the first request that begins a round.
    pub round: u32,
    /// The number of the access in the round, from 1; or 0 for the request that begins the round.
    pub access: u32,
}

impl Place {
    /// Returns whether this place is before another place: in an earlier round, or at an earlier access of the same
    /// round.
    pub(crate) fn is_before(self, other: Place) -> bool
        ensures { result ≡ is_before self other }
    {
        self.round < other.round || self.round == other.round && self.access < other.access
    }
}

/// The access or request before which a deviation happens.
#[derive(Clone, Copy)]
pub enum Site {
    /// The access or the request at this place.
    Place(Place),
    /// The access or the request with this number, from 1, among the run's accesses and requests of the deviation's
    /// kind and name.
    Number(u32),
}

/// The action of a deviation.
#[derive(Clone, Copy)]
pub enum Action {
    /// The transmit engine takes a frame.
    TxTake,
    /// The transmit engine puts a frame onto the wire.
    TxPut,
    /// The receive engine moves a piece of a frame to memory.
    RxData,
    /// The receive engine writes back a descriptor.
    RxDone,
    /// `TxTake` and then `TxPut`.
    Tx,
    /// `RxData` and then `RxDone`.
    Rx,
    /// The oldest offered frame arrives.
    Arrive,
    /// The default step of the EEPROM is left out.
    HoldEeprom,
    /// The default step of the PHY is left out.
    HoldPhy,
    /// The EEPROM takes one more step.
    EepromTick,
    /// The PHY takes one more step.
    PhyTick,
    /// A request `choose` is answered with this number if the number is below the request's limit, else with 0.
    Choose(u32),
}

/// The kind of access or request before which a deviation happens.
#[derive(Clone, Copy, PartialEq)]
pub enum Before {
    /// A read of a register or of memory.
    Read,
    /// A write of a register or of memory.
    Write,
    /// A request that begins a round. The name is the request's first word: `arrive`, `offer`, `step` or `settle`.
    Request,
    /// A request `choose`, which begins no round. The name is `choose`.
    Choice,
}

/// An action, and the access or request before which the action happens. The action `Choose` answers this request.
#[derive(Drop)]
pub struct Deviation {
    /// The access or request of the run before which the action happens, by its place or its number.
    pub site: Site,
    /// The action.
    pub action: Action,
    /// The kind of the access or request.
    pub before: Before,
    /// The name of what the access reads or writes, such as `ICR` or `rx[1]+8`; or the word of the request.
    pub name: String,
}

impl Clone for Deviation {
    ghost is_clone = { λ deviation copy. deviation_value copy ≡ deviation_value deviation };

    /// Returns the same deviation. Fails only if memory was refused.
    fn clone(&self) -> Result<Deviation, AllocError> {
        Ok(Deviation {
            site: self.site,
            action: self.action,
            before: self.before,
            name: self.name.clone()?,
        })
    }
}
