// Calls of C that read state and don't change the adapter.

ghost use Rattle.std.specs.Prelude.{◌≡◌, false, length, true};
ghost use Rattle.adapter.specs.Registers.{answer_at};
ghost use Rattle.adapter.specs.Digests.{digest_of};
ghost use Rattle.adapter.specs.Machines.{is_asserted};
ghost use Rattle.nic82540em.specs.Calls.{NameTold, TellsPossible, target_numbered};
ghost use Rattle.nic82540em.specs.Digests.{state_digest_of};
ghost use Rattle.nic82540em.specs.Handles.{IsSound, OnlyLooks, OnAdapter};

use crate::copying::copy_front;
use crate::handle::{Nic, on_adapter};
use crate::possible;
use crate::watched::WatchedAdapter;
use access_names::{Target, memory_target};
use adapter::Adapter;
use std::hash::{FoldHasher, Hasher};

/// Returns whether the interrupt line is asserted. Returns `false` if the handle holds no adapter.
#[unsafe(no_mangle)]
pub extern "C" fn nic82540em_line(nic: &mut Nic) -> bool
    requires sound { IsSound nic.old }
    ensures line { OnAdapter (OnlyLooks (λ a. result ≡ is_asserted a.player.machine.world.adapter))
        (result ≡ false) nic.old nic.new }
{
    on_adapter!(nic, false, |adapter| adapter.player.machine.line())
}

/// Stores in `into` the value that a read of the register at an offset would return now, and returns `true`. This isn't
/// an access, and changes nothing in the adapter. If the handle holds no adapter, stores nothing and returns `false`.
#[unsafe(no_mangle)]
pub extern "C" fn nic82540em_peek(nic: &mut Nic, offset: u32, into: &mut u32) -> bool
    requires sound { IsSound nic.old }
    ensures value { OnAdapter
        (OnlyLooks (λ a. (result ≡ true) × (into.new ≡ answer_at offset a.player.machine.world.adapter)))
        ((result ≡ false) × (into.new ≡ into.old)) nic.old nic.new }
{
    on_adapter!(nic, false, |adapter| {
        *into = adapter.player.machine.value(offset);
        true
    })
}

/// Returns the kinds of steps that have something to do. Bit `n` is set if and only if a step of the kind with number
/// `n` would have another outcome than `Nothing`. Returns 0 if the handle holds no adapter.
#[unsafe(no_mangle)]
pub extern "C" fn nic82540em_possible(nic: &mut Nic) -> u32
    requires sound { IsSound nic.old }
    ensures mask { OnAdapter (OnlyLooks (λ a. TellsPossible result a)) (result ≡ 0) nic.old nic.new }
{
    on_adapter!(nic, 0, |adapter| possible::possible(adapter))
}

/// Returns the number of frames in the receive packet buffer, or 0 if the handle holds no adapter.
#[unsafe(no_mangle)]
pub extern "C" fn nic82540em_waiting_received(nic: &mut Nic) -> u32
    requires sound { IsSound nic.old }
    ensures count { OnAdapter (OnlyLooks (λ a. result ≡ length a.player.machine.world.adapter.receiver.buffer))
        (result ≡ 0) nic.old nic.new }
{
    on_adapter!(
        nic,
        0,
        |adapter| u32::from(adapter.player.machine.waiting().received)
    )
}

/// Returns the number of frames in the transmit packet buffer: frames that were fetched and aren't on the wire yet.
/// Returns 0 if the handle holds no adapter.
#[unsafe(no_mangle)]
pub extern "C" fn nic82540em_waiting_transmit(nic: &mut Nic) -> u32
    requires sound { IsSound nic.old }
    ensures count { OnAdapter (OnlyLooks (λ a. result ≡ length a.player.machine.world.adapter.transmitter.buffer))
        (result ≡ 0) nic.old nic.new }
{
    on_adapter!(
        nic,
        0,
        |adapter| u32::from(adapter.player.machine.waiting().transmit)
    )
}

/// Returns a digest of the adapter and its host's memory, or 0 if the handle holds no adapter. The digest doesn't cover
/// the EEPROM's words, the wire, offered frames, events, the schedule, or the number of accesses. Nor does it cover
/// which steps are played before and after accesses.
#[unsafe(no_mangle)]
pub extern "C" fn nic82540em_digest(nic: &mut Nic) -> u64
    requires sound { IsSound nic.old }
    ensures value { OnAdapter
        (OnlyLooks (λ a. result ≡ digest_of a.player.machine.world)) (result ≡ 0) nic.old nic.new }
{
    on_adapter!(nic, 0, |adapter| adapter.player.machine.digest())
}

/// Returns a digest of an adapter's registers, of the frames in its packet buffers, and of its work in progress.
/// Adapters with the same state have equal digests for each seed.
#[tactic(auto, unfolding(crate::specs::Digests::state_digest_of))]
pub(crate) fn state_digest(adapter: &Adapter, seed: u64) -> u64
    ensures { result ≡ state_digest_of seed adapter.now }
{
    let mut hasher = FoldHasher::default();
    hasher.write_u64(seed);
    adapter.feed(&mut hasher);
    hasher.finish()
}

/// Returns the target of an access with this number: 1 or 2 for the register at this offset, 3 or 4 for memory at this
/// address. Returns `None` for another number, or an offset above `0xFFFFFFFF`.
fn target_numbered(adapter: &WatchedAdapter, before: u32, address: u64) -> Option<Target>
    ensures { result ≡ target_numbered before address adapter.now }
{
    match before {
        1 | 2 => match u32::try_from(address) {
            Ok(offset) => Some(Target::Register(offset)),
            Err(_) => None,
        },
        3 | 4 => Some(memory_target(&adapter.player.machine, address)),
        _ => None,
    }
}

/// Returns a digest of the adapter's registers, of the frames in its packet buffers, and of its work in progress.
/// Adapters with the same state have equal digests for each seed. The digest covers neither memory nor what
/// [`nic82540em_digest`] omits. Returns 0 if the handle holds no adapter.
#[unsafe(no_mangle)]
pub extern "C" fn nic82540em_state_digest(nic: &mut Nic, seed: u64) -> u64
    requires sound { IsSound nic.old }
    ensures value { OnAdapter (OnlyLooks (λ a. result ≡ state_digest_of seed a.player.machine.world.adapter))
        (result ≡ 0) nic.old nic.new }
{
    on_adapter!(
        nic,
        0,
        |adapter| state_digest(adapter.player.machine.adapter(), seed)
    )
}

/// Stores the name by which schedules name what an access reaches. `before` is the access: 1 or 2 a read or a write of
/// the register at the offset `address`, 3 or 4 a read or a write of memory at this address. Returns the length of the
/// name in bytes, and copies the name's beginning to `into`, as far as there is room.
///
/// Returns 0, and changes nothing, if `before` is another number, the offset is above `0xFFFFFFFF`, or the handle holds
/// no adapter.
#[unsafe(no_mangle)]
pub extern "C" fn nic82540em_name(
    nic: &mut Nic,
    before: u32,
    address: u64,
    into: &mut [u8],
) -> usize
    requires sound { IsSound nic.old }
    ensures name { OnAdapter (OnlyLooks (λ a. NameTold (target_numbered before address a) into.old into.new result))
        ((result ≡ 0) × (into.new ≡ into.old)) nic.old nic.new }
{
    on_adapter!(
        nic,
        0,
        |adapter| match target_numbered(adapter, before, address) {
            Some(target) => copy_front(target.name().as_slice(), into),
            None => 0,
        }
    )
}
