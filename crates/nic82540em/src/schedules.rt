// The schedule that an adapter plays.

ghost use Rattle.std.specs.Prelude.{◌≡◌, IfSome, None, Some};
ghost use Rattle.access_names.specs.Targets.{memory_target_in};
ghost use Rattle.nic82540em.specs.Schedules.{AnswersPlay, RoundAnswered, IsAgenda, Meets, MeetsIf, after_choice};
ghost use Rattle.nic82540em.specs.Schedules.{error_number, request_word, number_chosen};
ghost use Rattle.played_adapter.specs.Playing.{has_bytes};

use crate::numbers::REFUSED;
use crate::watched::WatchedAdapter;
use access_names::{Target, memory_target};
use std::alloc::Global;
use step_schedules::{Agenda, Before, Schedule, ScheduleError};

/// Plays what the schedule, if there is one, has before an access of this target: the default steps, and then the
/// actions that are due. The agenda counts the access. `before` is the kind of the access: `Read` or `Write`.
pub(crate) fn meet(watched: &mut WatchedAdapter, before: Before, target: Target)
    ensures { Meets before target watched.old watched.new }
{
    let Some(agenda) = &mut watched.agenda else {
        return;
    };
    let name = target.name();
    watched
        .player
        .meet_access(agenda, before, name.as_slice(), &mut watched.events);
}

/// As [`meet`], for an access of `count` bytes in memory from `address` on. Changes nothing if `address + count` is
/// above the size of memory, because such an access is refused.
pub(crate) fn meet_memory(watched: &mut WatchedAdapter, before: Before, address: u64, count: u64)
    ensures { MeetsIf (has_bytes watched.old.player address count) before
        (memory_target_in watched.old.player.machine.world.adapter address) watched.old watched.new }
{
    if !watched.player.has_bytes(address, count) {
        return;
    }
    let target = memory_target(&watched.player.machine, address);
    meet(watched, before, target);
}

/// Answers a request `choose` by the schedule: returns the number that the first action due before the request chooses.
/// Returns 0 if this action chooses no number, no action is due, or there is no schedule. The agenda counts the
/// request.
pub(crate) fn meet_choice(agenda: &mut Option<Agenda>) -> u32
    ensures number { result ≡ number_chosen agenda.old }
    ensures met { agenda.new ≡ after_choice agenda.old }
{
    let Some(agenda) = agenda else {
        return 0;
    };
    let event = agenda.coming(Before::Choice, b"choose");
    // After the count, the action is no longer due.
    let number = agenda.chosen(&event);
    agenda.count(&event);
    number
}

/// Returns the first word of the request with this number, or `None` if no request has the number. Schedules name
/// requests by this word.
fn request_word(number: u32) -> Option<&'static str>
    ensures some { IfSome result (λ word. request_word number ≡ Some word.now) }
    ensures none { result ≡ None → request_word number ≡ None }
{
    match number {
        0 => Some("arrive"),
        1 => Some("offer"),
        2 => Some("step"),
        3 => Some("settle"),
        _ => None,
    }
}

/// Plays the actions of the schedule, if there is one, that are due before the request with this number. The agenda
/// counts the request, which begins a round. Returns `true`.
///
/// If no request has this number, returns `false` and changes nothing.
pub(crate) fn begin_round(watched: &mut WatchedAdapter, number: u32) -> bool
    ensures { RoundAnswered number result watched.old watched.new }
{
    let Some(word) = request_word(number) else {
        return false;
    };
    let Some(agenda) = &mut watched.agenda else {
        return true;
    };
    watched.player.meet_request(
        agenda,
        Before::Request,
        word.as_bytes(),
        &mut watched.events,
    );
    true
}

/// Returns the number by which [`play`] reports an error: the number of the faulty line if it is from 1 to 0xFFFFFFFE.
/// Otherwise, or if no line is faulty, returns [`REFUSED`].
fn error_number(error: ScheduleError) -> u32
    ensures { result ≡ error_number error }
{
    let ScheduleError::Line { line, .. } = error else {
        return REFUSED;
    };
    // The result 0 would mean that the schedule is played. A number above `REFUSED` doesn't fit into 32 bits.
    if line > 0 && line < REFUSED as usize {
        line as u32
    } else {
        REFUSED
    }
}

/// Returns the agenda of the schedule in a text, before the run. Fails if the text isn't a schedule, or if memory is
/// refused.
fn agenda_in(alloc: Global, text: &[u8]) -> Result<Agenda, ScheduleError>
    ensures { IsAgenda text.now result }
{
    let schedule = Schedule::parse(alloc, text)?;
    match Agenda::new(alloc, schedule) {
        Ok(agenda) => Ok(agenda),
        Err(_refused) => Err(ScheduleError::Memory),
    }
}

/// From now on, plays the schedule in a text instead of an earlier schedule, and draws no steps before accesses.
///
/// Returns 0 if this schedule is played. If the text isn't a schedule, or memory is refused, returns the error's number
/// (`error_number`) and changes nothing.
pub(crate) fn play(alloc: Global, watched: &mut WatchedAdapter, text: &[u8]) -> u32
    ensures { AnswersPlay text.now result watched.old watched.new }
{
    match agenda_in(alloc, text) {
        Ok(agenda) => {
            watched.agenda = Some(agenda);
            watched.player.most_steps = 0;
            0
        }
        Err(error) => error_number(error),
    }
}
