//! The calls of `Agenda` and `Recorder`, each made twice, from equal states. The prover knows only the clauses of a
//! call, so the clauses exclude every body whose outcome differs in what the function compares. The contracts leave
//! open when memory is refused.

ghost use Rattle.std.specs.Prelude.{◌≡◌, IfOk, OnOk, string_bytes};
ghost use Rattle.std.specs.Option.{option_map};
ghost use Rattle.step_schedules.specs.Events.{event_value};
ghost use Rattle.step_schedules.specs.Schedules.{option_texts};

use std::alloc::{AllocError, Global};
use step_schedules::{Action, Agenda, Before, Event, Held, Place, Recorder};

/// Calls [`Agenda::coming`] twice: once of each of two equal agendas.
pub fn coming<'a>(
    one: &Agenda,
    other: &Agenda,
    before: Before,
    name: &'a [u8],
) -> (Event<'a>, Event<'a>)
    requires { one.now ≡ other.now }
    ensures { event_value result.0 ≡ event_value result.1 }
{
    (one.coming(before, name), other.coming(before, name))
}

/// Calls [`Agenda::held`] twice: once of each of two equal agendas.
pub fn held(one: &Agenda, other: &Agenda, event: &Event<'_>) -> (Held, Held)
    requires { one.now ≡ other.now }
    ensures { result.0 ≡ result.1 }
{
    (one.held(event), other.held(event))
}

/// Calls [`Agenda::chosen`] twice: once of each of two equal agendas.
pub fn chosen(one: &Agenda, other: &Agenda, event: &Event<'_>) -> (u32, u32)
    requires { one.now ≡ other.now }
    ensures { result.0 ≡ result.1 }
{
    (one.chosen(event), other.chosen(event))
}

/// Calls [`Agenda::count`] twice: once of each of two equal agendas.
pub fn count(one: &mut Agenda, other: &mut Agenda, event: &Event<'_>)
    requires { one.old ≡ other.old }
    ensures { one.new ≡ other.new }
{
    one.count(event);
    other.count(event);
}

/// Calls [`Agenda::unmet`] twice: once of each of two equal agendas.
pub fn unmet(
    one: &Agenda,
    other: &Agenda,
    alloc: Global,
) -> (Result<String, AllocError>, Result<String, AllocError>)
    requires { one.now ≡ other.now }
    ensures { IfOk result.0 (λ text. IfOk result.1 (λ same. string_bytes text ≡ string_bytes same)) }
{
    (one.unmet(alloc), other.unmet(alloc))
}

/// Calls [`Recorder::begin`] twice: once of each of two equal recorders, with equal names.
pub fn begin(
    one: &mut Recorder,
    other: &mut Recorder,
    place: Place,
    before: Before,
    name: String,
    same_name: String,
)
    requires recorder { one.old ≡ other.old }
    requires name { string_bytes name ≡ string_bytes same_name }
    ensures { one.new ≡ other.new }
{
    one.begin(place, before, name);
    other.begin(place, before, same_name);
}

/// Calls [`Recorder::note`] twice: once of each of two equal recorders.
pub fn note(
    one: &mut Recorder,
    other: &mut Recorder,
    action: Action,
) -> (Result<(), AllocError>, Result<(), AllocError>)
    requires { one.old ≡ other.old }
    ensures { OnOk result.0 (OnOk result.1 (one.new ≡ other.new)) }
{
    (one.note(action), other.note(action))
}

/// Calls [`Recorder::recorded`] twice: once of each of two equal recorders, with equal options.
pub fn recorded(
    one: &Recorder,
    other: &Recorder,
    alloc: Global,
    options: Option<Vec<String>>,
    same_options: Option<Vec<String>>,
) -> (Result<String, AllocError>, Result<String, AllocError>)
    requires recorder { one.now ≡ other.now }
    requires options { option_map option_texts options ≡ option_map option_texts same_options }
    ensures { IfOk result.0 (λ text. IfOk result.1 (λ same. string_bytes text ≡ string_bytes same)) }
{
    (
        one.recorded(alloc, options),
        other.recorded(alloc, same_options),
    )
}
