// Calls of C for a driver's accesses, for the number of accesses, and for the address of the host's memory. An access
// comes after the steps that are due or drawn, and before the cycles of `nic82540em_pace`. No event of a plain access
// is kept.

ghost use Rattle.std.specs.Prelude.{⊤, ◌≡◌, IfSome, false, length};
ghost use Rattle.adapter.specs.bus_types.event.Access.TheVariants.{Reads, Writes};
ghost use Rattle.nic82540em.specs.Calls.{AccessAnswered, LoadAnswered, StoreAnswered, with_accesses};
ghost use Rattle.nic82540em.specs.Handles.{IsSound, OnlyLooks, OnAdapter};

use crate::calls::{is_plain, meet_and_load, meet_and_read, meet_and_store, meet_and_write};
use crate::handle::{Nic, on_adapter};
use crate::nobody::Nobody;

/// Reads the register at an offset in bytes. This is an access of the driver: steps may be played before it, and cycles
/// after it.
///
/// Returns 0 if no register is at this offset, or if the handle holds no adapter.
#[unsafe(no_mangle)]
pub extern "C" fn nic82540em_read(nic: &mut Nic, offset: u32) -> u32
    requires sound { IsSound nic.old }
    ensures done { OnAdapter (AccessAnswered (Reads offset result)) (result ≡ 0) nic.old nic.new }
{
    on_adapter!(
        nic,
        0,
        |adapter| if is_plain(adapter) {
            adapter.player.read(offset, &mut Nobody)
        } else {
            meet_and_read(adapter, offset)
        }
    )
}

/// Writes the register at an offset in bytes. This is an access, as in [`nic82540em_read`], also at an offset without a
/// register. There, the write itself changes nothing. If the handle holds no adapter, nothing happens.
#[unsafe(no_mangle)]
pub extern "C" fn nic82540em_write(nic: &mut Nic, offset: u32, value: u32)
    requires sound { IsSound nic.old }
    ensures done { OnAdapter (AccessAnswered (Writes offset value)) ⊤ nic.old nic.new }
{
    on_adapter!(
        nic,
        (),
        |adapter| if is_plain(adapter) {
            adapter.player.write(offset, value, &mut Nobody);
        } else {
            meet_and_write(adapter, offset, value);
        }
    )
}

/// Loads the bytes from an address on into the whole of `into`, and returns `true`. This is an access, as in
/// [`nic82540em_read`].
///
/// Returns `false`, and changes nothing, if `address` plus the length of `into` is above the size of memory, or if the
/// handle holds no adapter.
#[unsafe(no_mangle)]
pub extern "C" fn nic82540em_load(nic: &mut Nic, address: u64, into: &mut [u8]) -> bool
    requires sound { IsSound nic.old }
    ensures done { OnAdapter (LoadAnswered address into.old into.new result)
        ((result ≡ false) × (into.new ≡ into.old)) nic.old nic.new }
{
    on_adapter!(
        nic,
        false,
        |adapter| if is_plain(adapter) {
            adapter.player.load(address, into, &mut Nobody)
        } else {
            meet_and_load(adapter, address, into)
        }
    )
}

/// Stores bytes in memory from an address on, and returns `true`. This is an access, as in [`nic82540em_read`].
///
/// Returns `false`, and changes nothing, if `address` plus the number of bytes is above the size of memory, or if the
/// handle holds no adapter.
#[unsafe(no_mangle)]
pub extern "C" fn nic82540em_store(nic: &mut Nic, address: u64, bytes: &[u8]) -> bool
    requires sound { IsSound nic.old }
    ensures done { OnAdapter (StoreAnswered address bytes.now result) (result ≡ false) nic.old nic.new }
{
    on_adapter!(
        nic,
        false,
        |adapter| if is_plain(adapter) {
            adapter.player.store(address, bytes, &mut Nobody)
        } else {
            meet_and_store(adapter, address, bytes)
        }
    )
}

/// Returns the number of accesses so far, up to the greatest `u64`. This is also the number of the next access, which
/// [`nic82540em_recount`] sets. Returns 0 if the handle holds no adapter.
#[unsafe(no_mangle)]
pub extern "C" fn nic82540em_accesses(nic: &mut Nic) -> u64
    requires sound { IsSound nic.old }
    ensures count { OnAdapter (OnlyLooks (λ a. result ≡ a.player.accesses)) (result ≡ 0) nic.old nic.new }
{
    on_adapter!(nic, 0, |adapter| adapter.player.accesses)
}

/// Sets the number of accesses so far, which is the number of the next access. Does nothing if the handle holds no
/// adapter.
#[unsafe(no_mangle)]
pub extern "C" fn nic82540em_recount(nic: &mut Nic, accesses: u64)
    requires sound { IsSound nic.old }
    ensures done { OnAdapter (λ a b. b ≡ with_accesses accesses a) ⊤ nic.old nic.new }
{
    on_adapter!(nic, (), |adapter| adapter.player.accesses = accesses)
}

/// Stores the address of the first byte of memory in `into`, if memory isn't empty. Returns the size of memory in
/// bytes. If the handle holds no adapter, stores nothing and returns 0.
#[unsafe(no_mangle)]
pub extern "C" fn nic82540em_memory(nic: &mut Nic, into: &mut *const u8) -> u64
    requires sound { IsSound nic.old }
    ensures size { OnAdapter (OnlyLooks (λ a. (result ≡ length a.player.machine.world.memory)
        × IfSome a.player.address (λ address. into.new ≡ address)))
        ((result ≡ 0) × (into.new ≡ into.old)) nic.old nic.new }
{
    on_adapter!(nic, 0, |adapter| {
        if let Some(address) = adapter.player.address {
            *into = address;
        }
        adapter.player.machine.size()
    })
}
