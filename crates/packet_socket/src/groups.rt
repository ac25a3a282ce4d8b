// Joining and leaving multicast groups.

ghost use Rattle.std.specs.Prelude.{◌≡◌, ◌≢◌, ◌<◌, ◌↔◌, ◌++◌, ◌∷◌, [], Err, length};
ghost use Rattle.std.specs.Result.{OnErr, OnOk};
ghost use Rattle.std.specs.List.{Contains};
ghost use Rattle.rx_filter.specs.Addresses.{IsGroup};
ghost use Rattle.rx_filter.specs.GroupLists.{Removes};
ghost use Rattle.bring_up.specs.declared.config.TheConstants.{MOST_GROUPS};
ghost use Rattle.adapter.specs.Keeping.{Keeps};
ghost use Rattle.bring_up.specs.Groups.{HasNumber};
ghost use Rattle.bring_up.specs.declared.groups.GroupError.TheVariants.{GroupsFull, Joined, NotGroup, NotJoined};
ghost use Rattle.packet_socket.specs.HostActs.{CallsOver};
ghost use Rattle.packet_socket.specs.HostCalls.{host_at};
ghost use Rattle.packet_socket.specs.HostEffects.{JoinEffect, LeaveEffect, with_joined};

use crate::Host;
use adapter::Bus;
use driver::GroupError;

impl Host {
    /// Joins a multicast group by [`Driver::join`](driver::Driver::join), so that frames to the group pass the receive
    /// filter. If no joined group has the same group number, the call writes one word of the group table; otherwise it
    /// makes no access.
    ///
    /// # Errors
    ///
    /// E23 [`NotGroup`](GroupError::NotGroup) if the low bit of the address's first byte is clear, else E26
    /// [`Joined`](GroupError::Joined) if the group is joined already, else E24 [`GroupsFull`](GroupError::GroupsFull)
    /// if 32 groups are joined. After an error, the host is unchanged, and there was no access.
    /// There is no other error (`else_ok`).
    pub fn join<B: Bus>(&mut self, bus: &mut B, group: [u8; 6]) -> Result<(), GroupError>
        ensures keeps { Keeps B.Bus bus.old bus.new }

        // Over any bus.
        ensures not_group { (result ≡ Err NotGroup) ↔ (¬ (IsGroup group)) }
        ensures joined { (result ≡ Err Joined) ↔ (IsGroup group × Contains self.old.driver.groups group) }
        ensures full { (result ≡ Err GroupsFull)
            ↔ (IsGroup group × (¬ (Contains self.old.driver.groups group))
            × (length self.old.driver.groups ≡ MOST_GROUPS)) }
        ensures else_ok { result ≢ Err NotJoined }
        ensures refused { OnErr result ((self.new ≡ self.old) × (bus.new ≡ bus.old)) }
        ensures others { OnOk result (self.new ≡ with_joined (self.old.driver.groups ++ group ∷ []) self.old) }
        ensures room { OnOk result (length self.old.driver.groups < MOST_GROUPS) }
        ensures quiet { HasNumber self.old.driver.groups group → bus.new ≡ bus.old }

        // Over a bus that obeys the law. The call returns no frames and accepts none (the two empty lists).
        ensures joins { CallsOver B.Bus [] [] (host_at bus.old self.old) (host_at bus.new self.new)
            (JoinEffect group result) }
    {
        self.driver.join(bus, group)
    }

    /// Leaves a multicast group by [`Driver::leave`](driver::Driver::leave). If no other joined group has the same
    /// group number, the call writes one word of the group table; otherwise it makes no access.
    ///
    /// # Errors
    ///
    /// E23 [`NotGroup`](GroupError::NotGroup) if the low bit of the address's first byte is clear, else E25
    /// [`NotJoined`](GroupError::NotJoined) if the group isn't joined. After an error, the host is unchanged, and there
    /// was no access. There is no other error (`else_ok`).
    pub fn leave<B: Bus>(&mut self, bus: &mut B, group: [u8; 6]) -> Result<(), GroupError>
        ensures keeps { Keeps B.Bus bus.old bus.new }

        // Over any bus.
        ensures not_group { (result ≡ Err NotGroup) ↔ (¬ (IsGroup group)) }
        ensures not_joined { (result ≡ Err NotJoined)
            ↔ (IsGroup group × (¬ (Contains self.old.driver.groups group))) }
        ensures else_ok { (result ≢ Err Joined) × (result ≢ Err GroupsFull) }
        ensures refused { OnErr result ((self.new ≡ self.old) × (bus.new ≡ bus.old)) }
        ensures others { self.new ≡ with_joined self.new.driver.groups self.old }
        ensures left { OnOk result (Removes group self.old.driver.groups self.new.driver.groups) }
        ensures quiet { HasNumber self.new.driver.groups group → bus.new ≡ bus.old }

        // Over a bus that obeys the law. The call returns no frames and accepts none (the two empty lists).
        ensures leaves { CallsOver B.Bus [] [] (host_at bus.old self.old) (host_at bus.new self.new)
            (LeaveEffect group result) }
    {
        self.driver.leave(bus, group)
    }
}
