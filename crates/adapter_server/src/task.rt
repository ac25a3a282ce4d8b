// What the adapter does for a request.

ghost use Rattle.std.specs.Prelude.{◌≡◌, IfOk, length, string_bytes};
ghost use Rattle.std.specs.Int.{from_le_bytes, w32};
ghost use Rattle.adapter_server.specs.Sessions.{FitsPlace, target_in};
ghost use Rattle.adapter_server.specs.Tasks.{ReadsFrom};
ghost use Rattle.played_adapter.specs.Order.{Tells};

use crate::session::AccessPlace;
use access_names::{Target, memory_target};
use adapter::StepKind;
use played_adapter::{Observer, PlayedAdapter};
use server_output::{Answer, fate_word, outcome_word};
use server_requests::Wanted;
use std::alloc::{AllocError, Global};
use step_schedules::Before;

/// The size of a register, in bytes.
pub(crate) const REGISTER_WIDTH: usize = 4;

/// What the adapter does for a request, after the moves that a player plays before it.
#[derive(Clone, Copy)]
pub enum Task<'a> {
    /// Bytes at this place are read, and the answer has this form. In memory, the first byte is at this address.
    Read(AccessPlace, u64, Wanted),
    /// These bytes are written at this place. In memory, the first byte is at this address.
    Write(AccessPlace, u64, &'a [u8]),
    /// `step`: a step of this kind is played.
    Step(StepKind),
    /// `arrive`: this frame is delivered.
    Arrive(&'a [u8]),
    /// `settle`: offered frames arrive, and then cycles are played until one does nothing, up to a maximum number.
    Settle,
    /// `offer`: this frame waits for its arrival.
    Offer(&'a [u8]),
    /// `choose`: a number below this limit is chosen, or 0 if the limit is 0.
    Choose(u32),
    /// `clock_step`, `clock_set`: as `Settle`, but no move of a player is played. The answer is this time.
    SetClock(u64),
}

/// Returns the target of an access at a place. The address matters only for a place in memory.
pub(crate) fn target_at(device: &PlayedAdapter, place: AccessPlace, address: u64) -> Target
    ensures { result ≡ target_in place address device.now.machine.world.adapter }
{
    match place {
        AccessPlace::Register(offset) => Target::Register(offset),
        AccessPlace::Memory => memory_target(&device.machine, address),
    }
}

/// Returns the number with these four bytes, the lowest first.
fn register_value(bytes: &[u8]) -> u32
    requires { length bytes.now ≡ 4 }
    ensures { result ≡ from_le_bytes w32 bytes.now }
{
    let mut all = [0; REGISTER_WIDTH];
    all.copy_from_slice(bytes);
    u32::from_le_bytes(all)
}

/// Reads bytes at a place into `into`. Before the read, plays the steps and arrivals that the generator draws. After
/// the read, plays up to `pace` cycles.
///
/// A read of a register needs 4 bytes in `into`, and ignores `address`. Memory must contain all bytes that are read
/// from it.
fn read_from<O: Observer>(
    device: &mut PlayedAdapter,
    place: AccessPlace,
    address: u64,
    into: &mut [u8],
    observer: &mut O,
)
    requires { FitsPlace place address into.old device.old }
    ensures { Tells O.heard observer.old observer.new
        (ReadsFrom place address (length into.old) into.new device.old device.new) }
{
    match place {
        AccessPlace::Register(offset) => {
            let value = device.serve_read(offset, observer);
            into.copy_from_slice(&value.to_le_bytes());
        }
        AccessPlace::Memory => device.serve_load(address, into, observer),
    }
}

impl<'a> Task<'a> {
    ghost use Rattle.adapter_server.specs.Tasks.{FitsTask, PlaysTo, task_before, task_name, task_word};
    ghost use Rattle.server_output.specs.Answers.{IsSized};

    /// Returns the kind of the task's access or request in schedules. Returns `None` if the task sets the clock:
    /// schedules don't contain `clock_step` and `clock_set`.
    pub(crate) fn before(self) -> Option<Before>
        ensures { result ≡ task_before self.entry }
    {
        match self {
            Task::Read(..) => Some(Before::Read),
            Task::Write(..) => Some(Before::Write),
            Task::Choose(_) => Some(Before::Choice),
            Task::SetClock(_) => None,
            _ => Some(Before::Request),
        }
    }

    /// Returns the first word of the task's request, which is the request's name in schedules. Returns an empty text if
    /// the task is an access, whose name is that of its target, or sets the clock.
    pub(crate) fn word(self) -> &'static str
        ensures { result.now ≡ task_word self.entry }
    {
        match self {
            Task::Step(_) => "step",
            Task::Arrive(_) => "arrive",
            Task::Settle => "settle",
            Task::Offer(_) => "offer",
            Task::Choose(_) => "choose",
            _ => "",
        }
    }

    /// Returns the name of the task's access or request in schedules: the name of an access's target, or the first word
    /// of another request. Returns an empty text if the task sets the clock.
    pub(crate) fn name(self, alloc: Global, device: &PlayedAdapter) -> Result<String, AllocError>
        ensures { IfOk result (λ name. string_bytes name
            ≡ task_name self.entry device.now.machine.world.adapter) }
    {
        match self {
            Task::Read(place, address, _) | Task::Write(place, address, _) => {
                target_at(device, place, address).to_string(alloc)
            }
            _ => String::from_str(alloc, self.word()),
        }
    }

    /// Plays a task without the moves of a player, and returns the answer.
    ///
    /// The bytes of a read are stored in `into`; other tasks don't use `into`. The bytes of an access must fit its
    /// place, and `into` must have the size of a read (`FitsTask`). `wanted` is the number that is due at `choose` in a
    /// schedule, or 0. Fails only if memory is refused for an offered frame.
    pub(crate) fn play<'b, O: Observer>(
        self,
        alloc: Global,
        device: &mut PlayedAdapter,
        wanted: u32,
        into: &'b mut [u8],
        observer: &mut O,
    ) -> Result<Answer<'b>, AllocError>
        requires { FitsTask self into.old device.old }
        ensures plays { Tells O.heard observer.old observer.new
            (PlaysTo self.entry result wanted device.old device.new) }
        ensures sized { IfOk result (λ answer. IsSized answer) }
    {
        match self {
            Task::Read(place, address, form) => {
                read_from(device, place, address, into, observer);
                Ok(Answer::Bytes(form, into))
            }
            Task::Write(AccessPlace::Register(offset), _, bytes) => {
                device.serve_write(offset, register_value(bytes), observer);
                Ok(Answer::Done)
            }
            Task::Write(AccessPlace::Memory, address, bytes) => {
                device.serve_store(address, bytes, observer);
                Ok(Answer::Done)
            }
            Task::Step(kind) => {
                let outcome = device.step(kind, observer);
                Ok(Answer::Word(outcome_word(outcome)))
            }
            Task::Arrive(frame) => {
                let fate = device.serve_arrival(frame, observer);
                Ok(Answer::Word(fate_word(fate)))
            }
            Task::Settle => Ok(Answer::Number(device.serve_settle(observer))),
            Task::Offer(frame) => device.offered.push(alloc, frame).and(Ok(Answer::Done)),
            Task::Choose(limit) => {
                let number = device.serve_choose(limit, wanted, observer);
                Ok(Answer::Number(u64::from(number)))
            }
            Task::SetClock(time) => {
                // The answer is the time, and not the number of steps.
                let _moved = device.serve_settle(observer);
                Ok(Answer::Decimal(time))
            }
        }
    }
}
