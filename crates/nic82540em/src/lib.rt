//! An 82540EM and its host's memory as a C library: `bindings/c/nic82540em.h` declares these calls.
//!
//! Most calls make a call of `played_adapter`'s [`PlayedAdapter`], on the adapter in a handle. The C program makes a
//! handle of zeros. If a handle holds no adapter, only [`nic82540em_new`], and a copy into this handle, change the
//! handle. Every other call changes nothing, and returns 0, `false` or `0xFFFFFFFF` if the call has a result. Each call
//! requires and ensures that the owner in a handle is full if and only if the handle holds an adapter (`sound`).
#![tactic(auto)]

mod accesses;
mod calls;
mod copying;
mod events;
mod handle;
mod hearing;
mod lines;
mod looking;
mod nobody;
mod numbers;
mod owner;
mod parts;
mod playing;
mod possible;
mod schedules;
mod server_owner;
mod watched;

ghost use Rattle.std.specs.Prelude.{◌≡◌, false, true};
ghost use Rattle.nic82540em.specs.Calls.{IsWatchedCopy, IsNew};

pub use accesses::{
    nic82540em_accesses, nic82540em_load, nic82540em_memory, nic82540em_read, nic82540em_recount,
    nic82540em_store, nic82540em_write,
};
pub use events::{Events, KeptEvent};
pub use handle::Nic;
pub use lines::{
    ComingLine, ServerHandle, nic82540em_answer, nic82540em_answers, nic82540em_can,
    nic82540em_close, nic82540em_comes, nic82540em_deviate, nic82540em_serve,
    nic82540em_server_digest, nic82540em_told,
};
pub use looking::{
    nic82540em_digest, nic82540em_line, nic82540em_name, nic82540em_peek, nic82540em_possible,
    nic82540em_state_digest, nic82540em_waiting_received, nic82540em_waiting_transmit,
};
use numbers::{is_receive_share, link_with};
pub use numbers::{AdapterOptions, REFUSED};
pub use playing::{
    nic82540em_arrive, nic82540em_begin_round, nic82540em_choose, nic82540em_events,
    nic82540em_fill_wire, nic82540em_interleave, nic82540em_offer, nic82540em_pace,
    nic82540em_play, nic82540em_schedule, nic82540em_settle, nic82540em_step,
    nic82540em_take_event, nic82540em_take_put, nic82540em_ticks,
};
use std::alloc::Global;
pub use watched::WatchedAdapter;

/// Makes a new adapter of these options in a handle that holds no adapter, and returns `true`.
///
/// Returns `false`, and changes nothing, if the handle holds an adapter, an option is out of range, or memory is
/// refused.
#[unsafe(no_mangle)]
pub extern "C" fn nic82540em_new(alloc: Global, nic: &mut Nic, options: &AdapterOptions) -> bool
    requires sound { nic.old.owner.full ≡ nic.old.held }
    ensures sound { nic.new.owner.full ≡ nic.new.held }
    ensures free { result ≡ true → nic.old.held ≡ false }
    ensures held { result ≡ true → nic.new.held ≡ true }
    ensures new { result ≡ true → IsNew options.now nic.new.owner.value }
    ensures refused { result ≡ false → nic.new ≡ nic.old }
{
    if nic.held || !is_receive_share(options.receive_kilobytes) {
        return false;
    }
    let Some(link) = link_with(options.link) else {
        return false;
    };
    match calls::with_link(alloc, options, link) {
        Ok(adapter) => nic.hold(alloc, adapter).is_ok(),
        Err(_refused) => false,
    }
}

/// Frees the adapter, if the handle holds one. Otherwise nothing changes.
#[unsafe(no_mangle)]
pub extern "C" fn nic82540em_free(alloc: Global, nic: &mut Nic)
    requires sound { nic.old.owner.full ≡ nic.old.held }
    ensures sound { nic.new.owner.full ≡ nic.new.held }
    ensures freed { nic.new.held ≡ false }
    ensures none { nic.old.held ≡ false → nic.new ≡ nic.old }
{
    if nic.held {
        // The adapter is freed at the end of this block.
        let _adapter = nic.owner.take(alloc);
        nic.held = false;
    }
}

/// Copies the adapter of `nic`, with its events and its schedule, into the handle `into`, which holds no adapter.
/// Returns `true`. The adapter of `nic` doesn't change.
///
/// Returns `false`, and changes nothing, if `nic` holds no adapter, if `into` holds one, or if memory is refused.
#[unsafe(no_mangle)]
pub extern "C" fn nic82540em_copy(alloc: Global, nic: &mut Nic, into: &mut Nic) -> bool
    requires sound { nic.old.owner.full ≡ nic.old.held }
    requires into_sound { into.old.owner.full ≡ into.old.held }
    ensures sound { nic.new.owner.full ≡ nic.new.held }
    ensures into_sound { into.new.owner.full ≡ into.new.held }
    ensures held { nic.new.held ≡ nic.old.held }
    ensures same { nic.old.held ≡ true → nic.new.owner.value ≡ nic.old.owner.value }
    ensures copy { result ≡ true → IsWatchedCopy nic.old.owner.value into.new.owner.value }
    ensures made { result ≡ true → (nic.old.held ≡ true) × (into.old.held ≡ false) × (into.new.held ≡ true) }
    ensures refused { result ≡ false → into.new ≡ into.old }
{
    if !nic.held || into.held {
        return false;
    }
    match calls::copy(nic.owner.adapter()) {
        Ok(copied) => into.hold(alloc, copied).is_ok(),
        Err(_refused) => false,
    }
}
