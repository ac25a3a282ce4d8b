// New adapters, copies, and accesses that aren't plain. If a schedule is played, its default steps and its due actions
// are played before each access. Cycles follow an access or an arrival, up to the maximum of `pace`.

ghost use Rattle.std.specs.Prelude.{◌≡◌, ◌&&◌, IfOk, nat_lt, true};
ghost use Rattle.adapter.specs.bus_types.event.Access.TheVariants.{Reads, Writes};
ghost use Rattle.nic82540em.specs.Calls.{AccessAnswered, LoadAnswered, StoreAnswered, IsWatchedCopy};
ghost use Rattle.nic82540em.specs.Calls.{Follows, HeardByEvents, IsMade, IsMadeOf, IsPlain, adapter_with_options};
ghost use Rattle.nic82540em.specs.Calls.{image_of};

use crate::events::Events;
use crate::numbers::AdapterOptions;
use crate::schedules::{meet, meet_memory};
use crate::watched::WatchedAdapter;
use access_names::Target;
use adapter::Adapter;
use adapter::offsets::PBA;
use dma_memory::HostMemory;
use eeprom::Image;
use mdic_phy::Link;
use played_adapter::PlayedAdapter;
use std::alloc::{AllocError, Global};
use step_schedules::Before;

/// Returns the words of the EEPROM: the image of the options if they have one, or else an image with their address.
pub(crate) fn image_of(options: &AdapterOptions) -> Image
    ensures { result ≡ image_of options.now }
{
    if options.has_image {
        Image::from_words(options.image)
    } else {
        Image::with_address(options.address)
    }
}

/// Returns a new adapter with the EEPROM of the options and this link. PBA was written with the options' kilobytes, the
/// value of RXA, and MPC has the options' count of missed packets. Fails only if memory is refused.
fn adapter_of(alloc: Global, options: &AdapterOptions, link: Link) -> Result<Adapter, AllocError>
    ensures { IfOk result (λ adapter. adapter ≡ adapter_with_options options.now link) }
{
    let mut adapter = Adapter::new(alloc, &image_of(options), link)?;
    adapter.write(PBA, options.receive_kilobytes);
    adapter.set_missed(options.missed);
    Ok(adapter)
}

/// Returns a new adapter of the options with this link, with memory of zeros and an empty wire. Fails only if memory is
/// refused.
fn player_of(
    alloc: Global,
    options: &AdapterOptions,
    link: Link,
) -> Result<PlayedAdapter, AllocError>
    ensures { IfOk result (λ made. IsMadeOf options.now link made) }
{
    let memory = HostMemory::new(alloc, options.memory)?;
    let adapter = adapter_of(alloc, options, link)?;
    PlayedAdapter::new(alloc, adapter, memory)
}

/// Returns a new adapter of the options with this link, with memory of zeros and an empty wire. No step is played
/// before an access, the adapter's events are off, and it plays no schedule. Fails only if memory is refused.
pub(crate) fn with_link(
    alloc: Global,
    options: &AdapterOptions,
    link: Link,
) -> Result<WatchedAdapter, AllocError>
    ensures { IfOk result (λ made. IsMade options.now link made) }
{
    Ok(WatchedAdapter {
        events: Events::new(alloc)?,
        agenda: None,
        player: player_of(alloc, options, link)?,
    })
}

/// Plays cycles after an access or an arrival until one does nothing, up to the maximum of `pace`. `most` is this
/// maximum before the access or the arrival. If this maximum is 0, or `is_made` is false, nothing happens.
pub(crate) fn follow(watched: &mut WatchedAdapter, is_made: bool, most: u16)
    ensures { HeardByEvents (Follows (is_made && nat_lt 0 most)) watched.old watched.new }
{
    if is_made && most > 0 {
        // Accesses and arrivals don't change the maximum, so this is `most`. The contract needs no proof of this: it
        // compares the maximum before with 0, and plays up to the maximum afterwards.
        let most = u32::from(watched.player.pace);
        watched.player.settle(most, &mut watched.events);
    }
}

/// Returns whether an access is plain: ticks and events are off, no step is scheduled or drawn, no schedule is played,
/// and the maximum of `pace` is 0. A plain access has neither steps nor cycles, and no event of it is kept.
///
/// The contract states only what the proofs of the callers use. The tests for steps before an access let the compiler
/// omit the calls that play these steps.
#[inline(always)]
pub(crate) fn is_plain(watched: &WatchedAdapter) -> bool
    ensures { result ≡ true → IsPlain watched.now }
{
    let player = &watched.player;
    let is_quiet = !player.ticks && player.most_steps == 0 && player.scheduled.is_empty();
    is_quiet && watched.agenda.is_none() && player.pace == 0 && !watched.events.on
}

/// Reads the register at an offset in bytes, and returns its value, or 0 if no register is at this offset.
///
/// Before the access, plays the schedule's default steps and due actions, the ticks, the scheduled steps and the drawn
/// steps, if there are any. After the access, plays cycles, up to the maximum of `pace`. Not inlined, so that the code
/// of a plain access is short.
#[inline(never)]
pub(crate) fn meet_and_read(watched: &mut WatchedAdapter, offset: u32) -> u32
    ensures { AccessAnswered (Reads offset result) watched.old watched.new }
{
    meet(watched, Before::Read, Target::Register(offset));
    let most = watched.player.pace;
    let value = watched.player.read(offset, &mut watched.events);
    follow(watched, true, most);
    value
}

/// Writes the register at an offset in bytes. Plays steps before the access and cycles after it, as [`meet_and_read`].
/// Not inlined, so that the code of a plain access is short.
#[inline(never)]
pub(crate) fn meet_and_write(watched: &mut WatchedAdapter, offset: u32, value: u32)
    ensures { AccessAnswered (Writes offset value) watched.old watched.new }
{
    meet(watched, Before::Write, Target::Register(offset));
    let most = watched.player.pace;
    watched.player.write(offset, value, &mut watched.events);
    follow(watched, true, most);
}

/// Loads the bytes from an address on into `into`, and returns `true`. Plays steps before the access and cycles after
/// it, as [`meet_and_read`]. If `address` plus the length of `into` is above the size of memory, returns `false` and
/// changes nothing. Not inlined, so that the code of a plain access is short.
#[inline(never)]
pub(crate) fn meet_and_load(watched: &mut WatchedAdapter, address: u64, into: &mut [u8]) -> bool
    ensures { LoadAnswered address into.old into.new result watched.old watched.new }
{
    meet_memory(watched, Before::Read, address, into.len() as u64);
    let most = watched.player.pace;
    let is_made = watched.player.load(address, into, &mut watched.events);
    follow(watched, is_made, most);
    is_made
}

/// Stores bytes from an address on, and returns `true`. Plays steps before the access and cycles after it, as
/// [`meet_and_read`]. If `address` plus the number of bytes is above the size of memory, returns `false` and changes
/// nothing. Not inlined, so that the code of a plain access is short.
#[inline(never)]
pub(crate) fn meet_and_store(watched: &mut WatchedAdapter, address: u64, bytes: &[u8]) -> bool
    ensures { StoreAnswered address bytes.now result watched.old watched.new }
{
    meet_memory(watched, Before::Write, address, bytes.len() as u64);
    let most = watched.player.pace;
    let is_made = watched.player.store(address, bytes, &mut watched.events);
    follow(watched, is_made, most);
    is_made
}

/// Returns a copy of the adapter, its events and its schedule. Fails only if memory is refused.
pub(crate) fn copy(watched: &WatchedAdapter) -> Result<WatchedAdapter, AllocError>
    ensures { IfOk result (λ copy. IsWatchedCopy watched.now copy) }
{
    Ok(WatchedAdapter {
        events: watched.events.copy()?,
        agenda: watched.agenda.clone()?,
        player: watched.player.copy()?,
    })
}
