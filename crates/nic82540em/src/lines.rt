// Calls of C that answer the lines of a served adapter, one in each call.

ghost use Rattle.std.specs.Prelude.{◌≡◌, IfErr, IfOk, IfSome, None, false, true};
ghost use Rattle.std.specs.Option.{option_map};
ghost use Rattle.adapter_server.specs.Comings.{coming_value};
ghost use Rattle.adapter_server.specs.LineServers.{SetsNumber, TellsCan, told_text};
ghost use Rattle.nic82540em.specs.Lines as spec;
ghost use Rattle.nic82540em.specs.Lines.{IsSoundServer, OnServer};
ghost use Rattle.nic82540em.specs.Numbers.{is_receive_share};

use crate::calls::image_of;
use crate::copying::copy_front;
use crate::looking::state_digest;
use crate::numbers::{AdapterOptions, is_receive_share, kind_with, link_with};
use crate::server_owner::ServerOwner;
use adapter_server::{Coming, LineServer, ServeOptions};
use mdic_phy::Link;
use played_adapter::Choice;
use std::alloc::{AllocError, Global};
use std::hash::{FoldHasher, Hasher};

/// The number by which [`nic82540em_deviate`] lets the oldest offered frame arrive.
const ARRIVAL: u32 = 6;

/// A handle of a server, which holds a server or no server. C sets all bytes of a handle to 0 before the first call.
#[repr(C)]
pub struct ServerHandle {
    /// Whether the handle holds a server.
    pub held: bool,
    /// The owner of the server, if the handle holds one.
    pub owner: ServerOwner,
}

/// What a line is in a schedule.
#[repr(C)]
#[derive(Clone, Copy)]
pub struct ComingLine {
    /// The number of its kind, as [`Coming`] has it, or 0 if the line is no place of a schedule. Then the other numbers
    /// are 0, too.
    pub kind: u32,
    /// The round of its place.
    pub round: u32,
    /// The access of its place.
    pub access: u32,
    /// The address of a read or a write, else 0.
    pub address: u64,
    /// The limit of `choose`, else 0.
    pub limit: u32,
}

impl ServerHandle {
    /// Puts a server into a handle that holds no server.
    ///
    /// If memory is refused, frees the server, changes nothing in the handle, and returns an error.
    fn hold(&mut self, alloc: Global, server: LineServer) -> Result<(), AllocError>
        requires sound { IsSoundServer self.old }
        requires free { self.old.held ≡ false }
        ensures sound { IsSoundServer self.new }
        ensures held { IfOk result (λ _. (self.new.held ≡ true) × (self.new.owner.value ≡ server)) }
        ensures refused { IfErr result (λ _. self.new ≡ self.old) }
    {
        let boxed = Box::new(alloc, server)?;
        self.owner.put(boxed);
        self.held = true;
        Ok(())
    }
}

/// The result of a call on the server of a handle, or `$none` if the handle holds no server. The call is an expression
/// after a name for the `&mut` to the server.
macro_rules! on_server {
    ($handle:ident, $none:expr, |$server:ident| $call:expr) => {
        if $handle.held {
            let $server = $handle.owner.server();
            $call
        } else {
            $none
        }
    };
}

/// Returns PBA.RXA, the receive part of the packet buffer in kilobytes, or `None` if PBA.RXA may not have this value.
fn share_of(kilobytes: u32) -> Option<u8>
    ensures share { IfSome result (λ share. share ≡ kilobytes) }
    ensures some { IfSome result (λ _. is_receive_share kilobytes ≡ true) }
{
    if is_receive_share(kilobytes) {
        Some(kilobytes as u8)
    } else {
        None
    }
}

/// Returns a server whose adapter has these options, this link and this receive part of the packet buffer. Fails only if
/// memory is refused.
fn server_with(
    alloc: Global,
    options: &AdapterOptions,
    link: Link,
    share: u8,
    registers: u64,
    seed: u64,
) -> Result<LineServer, AllocError>
    ensures { IfOk result (λ made. spec.IsMadeServer options.now link share registers seed made) }
{
    let options = ServeOptions {
        memory: options.memory,
        registers,
        image: image_of(options),
        link,
        receive_kilobytes: share,
        seed,
        missed: options.missed,
    };
    LineServer::new(alloc, &options)
}

/// Returns the choice with this number: a step of the kind with this number, or an arrival for 6; `None` above 6.
fn choice_with(number: u32) -> Option<Choice>
    ensures { result ≡ spec.choice_with number }
{
    if number == ARRIVAL {
        return Some(Choice::Arrival);
    }
    match kind_with(number) {
        Some(kind) => Some(Choice::Step(kind)),
        None => None,
    }
}

/// Returns what a line is in a schedule as numbers: zeros if it is no place of a schedule.
fn numbers_of(coming: &Option<Coming>) -> ComingLine
    ensures { result ≡ spec.coming_line (option_map coming_value coming.now) }
{
    match coming {
        Some(coming) => ComingLine {
            kind: coming.kind,
            round: coming.place.round,
            access: coming.place.access,
            address: coming.address,
            limit: coming.limit,
        },
        None => ComingLine {
            kind: 0,
            round: 0,
            access: 0,
            address: 0,
            limit: 0,
        },
    }
}

/// Returns the name of a line in a schedule, or an empty name if it is no place of a schedule.
fn name_of(coming: &Option<Coming>) -> &[u8]
    ensures { result.now ≡ spec.coming_name (option_map coming_value coming.now) }
{
    match coming {
        Some(coming) => coming.name.as_bytes(),
        None => &[],
    }
}

/// Makes a server of a new adapter of these options in a handle that holds no server, and returns `true`. `registers` is
/// the address of the first register, and `seed` that of the generator.
///
/// Returns `false`, and changes nothing, if the handle holds a server, an option is out of range, or memory is refused.
#[unsafe(no_mangle)]
pub extern "C" fn nic82540em_serve(
    alloc: Global,
    server: &mut ServerHandle,
    options: &AdapterOptions,
    registers: u64,
    seed: u64,
) -> bool
    requires sound { IsSoundServer server.old }
    ensures sound { IsSoundServer server.new }
    ensures free { result ≡ true → server.old.held ≡ false }
    ensures held { result ≡ true → server.new.held ≡ true }
    ensures new { result ≡ true → spec.IsNewServer options.now registers seed server.new.owner.value }
    ensures refused { result ≡ false → server.new ≡ server.old }
{
    if server.held {
        return false;
    }
    let Some(share) = share_of(options.receive_kilobytes) else {
        return false;
    };
    let Some(link) = link_with(options.link) else {
        return false;
    };
    match server_with(alloc, options, link, share, registers, seed) {
        Ok(made) => server.hold(alloc, made).is_ok(),
        Err(_refused) => false,
    }
}

/// Frees the server, if the handle holds one. Otherwise nothing changes.
#[unsafe(no_mangle)]
pub extern "C" fn nic82540em_close(alloc: Global, server: &mut ServerHandle)
    requires sound { IsSoundServer server.old }
    ensures sound { IsSoundServer server.new }
    ensures closed { server.new.held ≡ false }
    ensures none { server.old.held ≡ false → server.new ≡ server.old }
{
    if server.held {
        // The server is freed at the end of this block.
        let _server = server.owner.take(alloc);
        server.held = false;
    }
}

/// Answers a line, which is passed without its line feed, as `serve` of `adapter_server` does. Returns the number of
/// bytes of its text. This text begins with what was told of [`nic82540em_deviate`] since the last answer. Copies the
/// text's beginning to `into`, as far as there is room.
///
/// Returns 0 if memory is refused, was refused in an earlier call, or the handle holds no server.
#[unsafe(no_mangle)]
pub extern "C" fn nic82540em_answer(
    alloc: Global,
    server: &mut ServerHandle,
    line: &[u8],
    into: &mut [u8],
) -> usize
    requires sound { IsSoundServer server.old }
    ensures done { OnServer (spec.AnswersInto line.now into.old into.new result)
        ((result ≡ 0) × (into.new ≡ into.old)) server.old server.new }
{
    on_server!(server, 0, |lines| {
        lines.answer(alloc, line);
        copy_front(lines.told(), into)
    })
}

/// Returns the number of bytes of the last answer's text, and copies its beginning to `into`, as far as there is room.
/// Returns 0 if memory was refused, or the handle holds no server.
#[unsafe(no_mangle)]
pub extern "C" fn nic82540em_told(server: &mut ServerHandle, into: &mut [u8]) -> usize
    requires sound { IsSoundServer server.old }
    ensures told { OnServer (spec.OnlyReads (λ a. spec.CopiesFront (told_text a) into.old into.new result))
        ((result ≡ 0) × (into.new ≡ into.old)) server.old server.new }
{
    on_server!(server, 0, |lines| copy_front(lines.told(), into))
}

/// Stores what a line, without its line feed, would be in a schedule if it came now. Returns the length of its name in
/// bytes, and copies the name's beginning to `name`, as far as there is room. The line isn't answered.
///
/// Stores zeros and returns 0 if the line would be no place of a schedule, if memory is refused, was refused in an
/// earlier call, or the handle holds no server.
#[unsafe(no_mangle)]
pub extern "C" fn nic82540em_comes(
    alloc: Global,
    server: &mut ServerHandle,
    line: &[u8],
    coming: &mut ComingLine,
    name: &mut [u8],
) -> usize
    requires sound { IsSoundServer server.old }
    ensures done { OnServer (spec.ComesInto line.now coming.new name.old name.new result)
        ((result ≡ 0) × (coming.new ≡ spec.coming_line None) × (name.new ≡ name.old)) server.old server.new }
{
    on_server!(
        server,
        {
            *coming = numbers_of(&None);
            0
        },
        |lines| {
            let comes = lines.coming(alloc, line);
            *coming = numbers_of(&comes);
            copy_front(name_of(&comes), name)
        }
    )
}

/// Returns what [`nic82540em_deviate`] would do something for now: bit `n` for a step of the kind with number `n`, and
/// bit 31 for an arrival. Returns 0 if memory was refused, or the handle holds no server.
#[unsafe(no_mangle)]
pub extern "C" fn nic82540em_can(server: &mut ServerHandle) -> u32
    requires sound { IsSoundServer server.old }
    ensures mask { OnServer (spec.OnlyReads (λ a. TellsCan result a)) (result ≡ 0) server.old server.new }
{
    on_server!(server, 0, |lines| lines.can())
}

/// Plays a step of the kind with this number, or the arrival of the oldest offered frame for 6. What is told of it comes
/// before the text of the next answer. Returns whether it did something.
///
/// Returns `false`, and changes nothing, for another number, if memory was refused in an earlier call, or if the handle
/// holds no server. Returns `false` also if memory is refused.
#[unsafe(no_mangle)]
pub extern "C" fn nic82540em_deviate(alloc: Global, server: &mut ServerHandle, action: u32) -> bool
    requires sound { IsSoundServer server.old }
    ensures done { OnServer (spec.DeviatesBy (spec.choice_with action) result) (result ≡ false) server.old server.new }
{
    on_server!(server, false, |lines| match choice_with(action) {
        Some(choice) => lines.deviate(alloc, choice),
        None => false,
    })
}

/// The next request `choose` is answered by this number, or by 0 if its limit isn't above the number. While steps are
/// random, its answer is random. Returns `true`, or `false` if memory was refused, or the handle holds no server.
#[unsafe(no_mangle)]
pub extern "C" fn nic82540em_answers(server: &mut ServerHandle, number: u32) -> bool
    requires sound { IsSoundServer server.old }
    ensures done { OnServer (SetsNumber number result) (result ≡ false) server.old server.new }
{
    on_server!(server, false, |lines| lines.set_number(number))
}

/// Returns a digest of the adapter's registers, of the frames in its packet buffers, and of its work in progress, as
/// [`nic82540em_state_digest`](crate::nic82540em_state_digest). Returns 0 if memory was refused, or the handle holds no
/// server.
#[unsafe(no_mangle)]
pub extern "C" fn nic82540em_server_digest(server: &mut ServerHandle, seed: u64) -> u64
    requires sound { IsSoundServer server.old }
    ensures value { OnServer (spec.OnlyReads (λ a. spec.DigestTold seed result a)) (result ≡ 0) server.old server.new }
{
    on_server!(server, 0, |lines| match lines.device() {
        Some(device) => state_digest(device.machine.adapter(), seed),
        None => 0,
    })
}
