//! The calls of `Schedule` and of `Deviation`, each made twice. The prover knows only the clauses of a call, so these
//! determine what is compared. The contracts leave open when memory is refused.

ghost use Rattle.std.specs.Prelude.{◌≡◌, ◌≢◌, Err, IfErr, IfOk, string_bytes};
ghost use Rattle.step_schedules.specs.Deviations.{deviation_value};
ghost use Rattle.step_schedules.specs.Schedules.{schedule_value};
ghost use Rattle.step_schedules.specs.declared.schedule_error.ScheduleError.TheVariants.{Memory};

use std::alloc::{AllocError, Global};
use step_schedules::{Deviation, Schedule, ScheduleError};

/// Calls [`Schedule::parse`] twice.
pub fn parse(
    alloc: Global,
    text: &[u8],
) -> (
    Result<Schedule, ScheduleError>,
    Result<Schedule, ScheduleError>,
)
    ensures schedule { IfOk result.0 (λ schedule. IfOk result.1
        (λ other. schedule_value schedule ≡ schedule_value other)) }
    ensures error { IfErr result.0 (λ error. error ≢ Memory → result.1 ≢ Err Memory → result.1 ≡ Err error) }
{
    (Schedule::parse(alloc, text), Schedule::parse(alloc, text))
}

/// Calls `to_string` of two equal deviations.
pub fn line_of(
    alloc: Global,
    one: &Deviation,
    other: &Deviation,
) -> (Result<String, AllocError>, Result<String, AllocError>)
    requires { deviation_value one.now ≡ deviation_value other.now }
    ensures { IfOk result.0 (λ text. IfOk result.1 (λ same. string_bytes text ≡ string_bytes same)) }
{
    (one.to_string(alloc), other.to_string(alloc))
}
