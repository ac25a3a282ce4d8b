// The joined groups, and how groups are joined and left.

ghost use Rattle.std.specs.Prelude.{◌≡◌, ◌≢◌, ◌≤◌, ◌<◌, ◌↔◌, ◌+◌, ◌*◌, [], ◌∷◌, ◌++◌, length, slice_set, All, Bool};
ghost use Rattle.std.specs.Prelude.{Err, IfNone, IfSome, IsTrue, Some, slice_get};
ghost use Rattle.std.specs.Result.{OnErr, OnOk};
ghost use Rattle.std.specs.List.{Contains};
ghost use Rattle.rx_filter.specs.Addresses.{IsGroup};
ghost use Rattle.rx_filter.specs.GroupLists.{Removes};
ghost use Rattle.adapter.specs.Keeping.{Keeps};
ghost use Rattle.bring_up.specs.WrittenRegisters.{register_limit};
ghost use Rattle.adapter.specs.bus_types.event.Access.TheVariants.{Writes};
ghost use Rattle.adapter.specs.Calls.{IsReadyOver, Ran, at, only};
ghost use Rattle.adapter.specs.DriverState.{DriverState};
ghost use Rattle.bring_up.specs.ErrorTexts.{group_error_text};
ghost use Rattle.bring_up.specs.Groups.{AreNamedOnce, ChangesGroups, HasNumber, RewritesWord};
ghost use Rattle.bring_up.specs.declared.groups.GroupError.TheVariants.{GroupsFull, Joined, NotGroup, NotJoined};

use crate::{MOST_GROUPS, group_table};
use adapter::Bus;
use adapter::offsets::{MTA, REGISTER_BYTES};
use arrayvec::ArrayVec;
use registers::GroupOffset;
use rx_filter::{TABLE_WORDS, TableBit, hash_of};
use std::marker::Model;
use thiserror::Error;

/// The reason why a group isn't joined or left.
#[derive(Clone, Copy, Debug, PartialEq, Eq, Error)]
#[error("{}", self.text())]
pub enum GroupError {
    /// The low bit of the address's first byte is clear, so the address isn't that of a group.
    NotGroup,
    /// 32 groups are joined.
    GroupsFull,
    /// The group isn't joined.
    NotJoined,
    /// The group is joined already.
    Joined,
}

impl GroupError {
    /// Returns the code and the name of the error, which are also its message.
    pub fn text(self) -> &'static str
        ensures { result.now ≡ group_error_text self }
    {
        match self {
            GroupError::NotGroup => "E23 NotGroup",
            GroupError::GroupsFull => "E24 GroupsFull",
            GroupError::NotJoined => "E25 NotJoined",
            GroupError::Joined => "E26 Joined",
        }
    }
}

/// The groups that a host has joined, each once, in the order in which they were joined.
#[derive(Clone, Debug, Drop)]
pub struct Groups {
    list: ArrayVec<[u8; 6], MOST_GROUPS>,
}

impl Model for Groups {
    ghost use Rattle.std.specs.Prelude.{List, ℕ};
    ghost use Rattle.bring_up.specs.Groups.{AreJoined};

    ghost Value = { List (List ℕ) };

    ghost view = { λ groups. groups.list.items };

    ghost invariant = { λ groups. AreJoined groups.list.items };
}

/// Returns whether an address is that of a group: the low bit of its first byte is set.
pub(crate) fn is_group(address: &[u8; 6]) -> bool
    ensures { IsTrue result ↔ IsGroup address.now }
{
    address[0] % 2 == 1
}

impl Groups {
    ghost use Rattle.bring_up.specs.Groups.{AreJoined};

    /// Returns the groups of a configuration, each once. At most 32 addresses may be named, and each must be that of a
    /// group.
    pub fn of(named: &[[u8; 6]]) -> Groups
        requires most { length named.now ≤ MOST_GROUPS }
        requires groups { All IsGroup named.now }
        ensures { AreNamedOnce named.now result }
    {
        let mut groups = Groups {
            list: ArrayVec::new(),
        };
        for group in named {
            if !groups.contains(group) {
                groups.list.push(*group);
            }
        }
        groups
    }

    /// Returns the groups, in order.
    pub fn as_slice(&self) -> &[[u8; 6]]
        ensures { result.now ≡ self.now }
    {
        self.list.as_slice()
    }

    /// Returns whether a group is joined. `joined` states the invariant of the list.
    pub fn contains(&self, group: &[u8; 6]) -> bool
        ensures is { IsTrue result ↔ Contains self.now group.now }
        ensures joined { AreJoined self.now }
    {
        self.place_of(group).is_some()
    }

    /// Returns the place of a group in the list, or `None` if the group isn't joined. `joined` states the invariant of
    /// the list.
    fn place_of(&self, group: &[u8; 6]) -> Option<usize>
        ensures some { IfSome result (λ place. slice_get self.now place ≡ Some group.now) }
        ensures none { IfNone result (¬ (Contains self.now group.now)) }
        ensures joined { AreJoined self.now }
    {
        for (place, joined) in self.list.iter().enumerate() {
            if joined == group {
                return Some(place);
            }
        }
        None
    }

    /// Returns whether a joined group has the same number as this group: bits 47:36 of the address, which select a bit
    /// of the group table.
    fn has_number(&self, group: &[u8; 6]) -> bool
        ensures { IsTrue result ↔ HasNumber self.now group.now }
    {
        let number = hash_of(GroupOffset::Bits47To36, group);
        for joined in self.list.as_slice() {
            if hash_of(GroupOffset::Bits47To36, joined) == number {
                return true;
            }
        }
        false
    }

    /// Joins a group. If no joined group has the same number, the call writes one word of the group table; otherwise
    /// it makes no access.
    ///
    /// # Errors
    ///
    /// E23 [`NotGroup`](GroupError::NotGroup) if this isn't the address of a group, else E26
    /// [`Joined`](GroupError::Joined) if the group is joined already, else E24 [`GroupsFull`](GroupError::GroupsFull)
    /// if 32 groups are joined. After an error, the list is unchanged, and there was no access.
    /// There is no other error (`else_ok`).
    pub fn join<B: Bus>(&mut self, bus: &mut B, group: [u8; 6]) -> Result<(), GroupError>
        ensures keeps { Keeps B.Bus bus.old bus.new }

        // Over any bus.
        ensures not_group { (result ≡ Err NotGroup) ↔ (¬ (IsGroup group)) }
        ensures joined { (result ≡ Err Joined) ↔ (IsGroup group × Contains self.old group) }
        ensures full { (result ≡ Err GroupsFull)
            ↔ (IsGroup group × (¬ (Contains self.old group)) × (length self.old ≡ MOST_GROUPS)) }
        ensures else_ok { result ≢ Err NotJoined }
        ensures refused { OnErr result ((self.new ≡ self.old) × (bus.new ≡ bus.old)) }
        ensures list { OnOk result (self.new ≡ self.old ++ group ∷ []) }
        ensures room { OnOk result (length self.old < MOST_GROUPS) }
        ensures quiet { HasNumber self.old group → bus.new ≡ bus.old }

        // Over a bus that obeys the law. The first `self.old` lists the groups that remain joined.
        ensures changes { ChangesGroups B.Bus result self.old group self.old self.new bus.old bus.new }
    {
        if !is_group(&group) {
            return Err(GroupError::NotGroup);
        }
        if self.contains(&group) {
            return Err(GroupError::Joined);
        }
        if self.list.is_full() {
            return Err(GroupError::GroupsFull);
        }
        // This must come before the push, because a list with this group has its number.
        let shares = self.has_number(&group);
        self.list.push(group);
        if !shares {
            write_word(bus, self.list.as_slice(), &group);
        }
        Ok(())
    }

    /// Leaves a group. If no other joined group has the same number, the call writes one word of the group table;
    /// otherwise it makes no access.
    ///
    /// # Errors
    ///
    /// E23 [`NotGroup`](GroupError::NotGroup) if this isn't the address of a group, else E25
    /// [`NotJoined`](GroupError::NotJoined) if the group isn't joined. After an error, the list is unchanged, and there
    /// was no access. There is no other error (`else_ok`).
    pub fn leave<B: Bus>(&mut self, bus: &mut B, group: [u8; 6]) -> Result<(), GroupError>
        ensures keeps { Keeps B.Bus bus.old bus.new }

        // Over any bus.
        ensures not_group { (result ≡ Err NotGroup) ↔ (¬ (IsGroup group)) }
        ensures not_joined { (result ≡ Err NotJoined) ↔ (IsGroup group × (¬ (Contains self.old group))) }
        ensures else_ok { (result ≢ Err Joined) × (result ≢ Err GroupsFull) }
        ensures refused { OnErr result ((self.new ≡ self.old) × (bus.new ≡ bus.old)) }
        ensures list { OnOk result (Removes group self.old self.new) }
        ensures quiet { HasNumber self.new group → bus.new ≡ bus.old }

        // Over a bus that obeys the law. The first `self.new` lists the groups that remain joined.
        ensures changes { ChangesGroups B.Bus result self.new group self.old self.new bus.old bus.new }
    {
        if !is_group(&group) {
            return Err(GroupError::NotGroup);
        }
        let Some(place) = self.place_of(&group) else {
            return Err(GroupError::NotJoined);
        };
        self.list.remove(place);
        if !self.has_number(&group) {
            write_word(bus, self.list.as_slice(), &group);
        }
        Ok(())
    }
}

/// Writes the word of the group table that contains the bit of the number of `group`. The word gets the bits of the
/// numbers of `groups`, and no others.
fn write_word<B: Bus>(bus: &mut B, groups: &[[u8; 6]], group: &[u8; 6])
    ensures keeps { Keeps B.Bus bus.old bus.new }
    ensures rewrites { (up : Bool) (d : DriverState) → IsReadyOver B.Bus up (at bus.old d)
        → RewritesWord B.Bus up group.now groups.now d bus.old bus.new }
{
    let table = group_table(groups);
    let word = TableBit::of(hash_of(GroupOffset::Bits47To36, group)).word;
    set_word(bus, word, table[usize::from(word)]);
}

/// Writes the word of the group table with this index, which must be below 128. No other word changes. `fits`: the
/// value has 32 bits.
fn set_word<B: Bus>(bus: &mut B, word: u8, value: u32)
    requires { word < TABLE_WORDS }
    ensures keeps { Keeps B.Bus bus.old bus.new }
    ensures table { B.honest bus.old
        → (B.world bus.new).adapter.filter.mta ≡ slice_set (B.world bus.old).adapter.filter.mta word value }
    ensures fits { value < register_limit }
    ensures runs { (up : Bool) (d : DriverState) → IsReadyOver B.Bus up (at bus.old d)
        → Ran B.Bus up (only (Writes (MTA + REGISTER_BYTES * word) value ∷ [])) (at bus.old d) (at bus.new d) }
{
    bus.write(MTA + REGISTER_BYTES * u32::from(word), value);
}
