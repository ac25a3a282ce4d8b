// What a line is in a schedule, before it is answered.

ghost use Rattle.std.specs.Prelude.{◌≡◌, IfOk};
ghost use Rattle.std.specs.Option.{option_map};
ghost use Rattle.adapter_server.specs.Comings as spec;

use crate::session::Session;
use crate::task::Task;
use server_requests::{MOST_LINE_BYTES, Request, Stop, read_line};
use std::alloc::{AllocError, Global};
use step_schedules::Place;

/// What a line is in a schedule.
#[derive(Drop)]
pub struct Coming {
    /// The number of its kind: 1 a read, 2 a write, 3 `arrive`, 4 `offer`, 5 `step`, 6 `settle`, 7 `choose`.
    pub kind: u32,
    /// Its place.
    pub place: Place,
    /// The address of a read or a write, else 0.
    pub address: u64,
    /// The limit of `choose`, else 0.
    pub limit: u32,
    /// Its name: that of the target of an access, or the first word of another request.
    pub name: String,
}

/// Returns the task of a request that schedules contain, or `None` for another request, or for an access that is
/// refused.
fn task_of<'a>(session: &Session, request: &'a Request) -> Option<Task<'a>>
    ensures { spec.IsTaskOf request.now session.now result }
{
    match *request {
        Request::Read(wanted, address) => match session.place_of(address, wanted.size()) {
            Ok(place) => Some(Task::Read(place, address, wanted)),
            Err(_refused) => None,
        },
        Request::Write(address, ref bytes) => {
            let bytes = bytes.as_slice();
            match session.place_of(address, bytes.len() as u64) {
                Ok(place) => Some(Task::Write(place, address, bytes)),
                Err(_refused) => None,
            }
        }
        Request::Step(kind) => Some(Task::Step(kind)),
        Request::Arrive(ref frame) => Some(Task::Arrive(frame.as_slice())),
        Request::Settle => Some(Task::Settle),
        Request::Offer(ref frame) => Some(Task::Offer(frame.as_slice())),
        Request::Choose(limit) => Some(Task::Choose(limit)),
        _ => None,
    }
}

impl<'a> Task<'a> {
    /// Returns the number of the task's kind, as in [`Coming`], or 0 if the task sets the clock.
    fn kind(self) -> u32
        ensures { result ≡ spec.task_kind self.entry }
    {
        match self {
            Task::Read(..) => 1,
            Task::Write(..) => 2,
            Task::Arrive(_) => 3,
            Task::Offer(_) => 4,
            Task::Step(_) => 5,
            Task::Settle => 6,
            Task::Choose(_) => 7,
            Task::SetClock(_) => 0,
        }
    }

    /// Returns the address of a read or a write, or 0 for another task.
    fn address(self) -> u64
        ensures { result ≡ spec.task_address self.entry }
    {
        match self {
            Task::Read(_, address, _) | Task::Write(_, address, _) => address,
            _ => 0,
        }
    }

    /// Returns the limit of `choose`, or 0 for another task.
    fn limit(self) -> u32
        ensures { result ≡ spec.task_limit self.entry }
    {
        match self {
            Task::Choose(limit) => limit,
            _ => 0,
        }
    }

    /// Returns what the task is in a schedule, or `None` if it sets the clock, or there is no agenda. Fails only if
    /// memory is refused.
    fn coming(self, alloc: Global, session: &Session) -> Result<Option<Coming>, AllocError>
        ensures { IfOk result (λ coming. option_map spec.coming_value coming
            ≡ spec.task_comes self.entry session.now) }
    {
        let Some(agenda) = &session.agenda else {
            return Ok(None);
        };
        let Some(before) = self.before() else {
            return Ok(None);
        };
        let name = self.name(alloc, &session.device)?;
        let place = agenda.coming(before, name.as_bytes()).place;
        Ok(Some(Coming {
            kind: self.kind(),
            place,
            address: self.address(),
            limit: self.limit(),
            name,
        }))
    }
}

/// Returns what a line is in a schedule, or `None` if it is no place of a schedule. Fails only if memory is refused.
pub(crate) fn coming_of(
    alloc: Global,
    session: &Session,
    line: &[u8],
) -> Result<Option<Coming>, AllocError>
    ensures { IfOk result (λ coming. spec.Comes line.now session.now (option_map spec.coming_value coming)) }
{
    if line.len() > MOST_LINE_BYTES {
        return Ok(None);
    }
    match read_line(alloc, line) {
        Ok(request) => match task_of(session, &request) {
            Some(task) => task.coming(alloc, session),
            None => Ok(None),
        },
        Err(Stop::Refused(_)) => Ok(None),
        Err(Stop::Memory) => Err(AllocError),
    }
}
