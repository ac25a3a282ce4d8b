// Joining and leaving multicast groups.

ghost use Rattle.std.specs.Prelude.{◌≡◌, ◌≢◌, ◌<◌, ◌↔◌, ◌++◌, ◌∷◌, [], Err, length};
ghost use Rattle.std.specs.Result.{OnErr, OnOk};
ghost use Rattle.std.specs.List.{Contains};
ghost use Rattle.rx_filter.specs.Addresses.{IsGroup};
ghost use Rattle.rx_filter.specs.GroupLists.{Removes};
ghost use Rattle.bring_up.specs.declared.config.TheConstants.{MOST_GROUPS};
ghost use Rattle.adapter.specs.Keeping.{Keeps};
ghost use Rattle.adapter.specs.Calls.{WhereReady, at};
ghost use Rattle.bring_up.specs.Groups.{ChangesJoined, HasNumber, with_groups};
ghost use Rattle.bring_up.specs.declared.groups.GroupError.TheVariants.{GroupsFull, Joined, NotGroup, NotJoined};

use crate::Driver;
use adapter::Bus;
use bring_up::GroupError;

impl Driver {
    /// Joins a group, so that frames to the group pass the receive filter. If no joined group has the same group
    /// number, the call writes one word of the group table; otherwise it makes no access.
    ///
    /// # Errors
    ///
    /// E23 [`NotGroup`](GroupError::NotGroup) if the low bit of the address's first byte is clear, else E26
    /// [`Joined`](GroupError::Joined) if the group is joined already, else E24 [`GroupsFull`](GroupError::GroupsFull)
    /// if 32 groups are joined. After an error, the driver is unchanged, and there was no access.
    /// There is no other error (`else_ok`).
    pub fn join<B: Bus>(&mut self, bus: &mut B, group: [u8; 6]) -> Result<(), GroupError>
        ensures keeps { Keeps B.Bus bus.old bus.new }

        // Over any bus.
        ensures not_group { (result ≡ Err NotGroup) ↔ (¬ (IsGroup group)) }
        ensures joined { (result ≡ Err Joined) ↔ (IsGroup group × Contains self.old.groups group) }
        ensures full { (result ≡ Err GroupsFull)
            ↔ (IsGroup group × (¬ (Contains self.old.groups group)) × (length self.old.groups ≡ MOST_GROUPS)) }
        ensures else_ok { result ≢ Err NotJoined }
        ensures refused { OnErr result ((self.new ≡ self.old) × (bus.new ≡ bus.old)) }
        ensures others { OnOk result (self.new ≡ with_groups (self.old.groups ++ group ∷ []) self.old) }
        ensures room { OnOk result (length self.old.groups < MOST_GROUPS) }
        ensures quiet { HasNumber self.old.groups group → bus.new ≡ bus.old }

        // Over a bus that obeys the law. The groups of `self.old` were joined both before and after the call.
        ensures joins { WhereReady B.Bus (at bus.old self.old) (at bus.new self.new)
            (λ transmit_up old new. OnOk result (ChangesJoined B.Bus transmit_up self.old.groups group old new)) }
    {
        self.groups.join(bus, group)
    }

    /// Leaves a group. If no other joined group has the same group number, the call writes one word of the group
    /// table; otherwise it makes no access.
    ///
    /// # Errors
    ///
    /// E23 [`NotGroup`](GroupError::NotGroup) if the low bit of the address's first byte is clear, else E25
    /// [`NotJoined`](GroupError::NotJoined) if the group isn't joined. After an error, the driver is unchanged, and
    /// there was no access. There is no other error (`else_ok`).
    pub fn leave<B: Bus>(&mut self, bus: &mut B, group: [u8; 6]) -> Result<(), GroupError>
        ensures keeps { Keeps B.Bus bus.old bus.new }

        // Over any bus.
        ensures not_group { (result ≡ Err NotGroup) ↔ (¬ (IsGroup group)) }
        ensures not_joined { (result ≡ Err NotJoined) ↔ (IsGroup group × (¬ (Contains self.old.groups group))) }
        ensures else_ok { (result ≢ Err Joined) × (result ≢ Err GroupsFull) }
        ensures refused { OnErr result ((self.new ≡ self.old) × (bus.new ≡ bus.old)) }
        ensures others { self.new ≡ with_groups self.new.groups self.old }
        ensures left { OnOk result (Removes group self.old.groups self.new.groups) }
        ensures quiet { HasNumber self.new.groups group → bus.new ≡ bus.old }

        // Over a bus that obeys the law. The groups of `self.new` were joined both before and after the call.
        ensures leaves { WhereReady B.Bus (at bus.old self.old) (at bus.new self.new)
            (λ transmit_up old new. OnOk result (ChangesJoined B.Bus transmit_up self.new.groups group old new)) }
    {
        self.groups.leave(bus, group)
    }
}
