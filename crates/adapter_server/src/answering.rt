// Answers to requests. `TellsAnswer` states that the answer was written, or at an error a beginning of the answer.

ghost use Rattle.adapter_server.specs.Answers.{MovesClock, TellsAnswer};
ghost use Rattle.adapter_server.specs.Tasks.{FitsTask, Performs};

use crate::access::{read, write};
use crate::looking::look;
use crate::session::Session;
use crate::snapshot::Server;
use crate::task::Task;
use server_output::{AnswerError, Lines, refuse, say};
use server_requests::{NextLine, Refusal, Request, Stop, read_line};
use std::alloc::Global;
use std::io::Write;

/// Plays a task, and writes the answer of its request. `said` is the text that the log prints for the request.
///
/// If there is a player, its moves before the task are played first. These are the actions that are due in the
/// schedule, and before an access also the default steps of the EEPROM and the PHY. A task that sets the clock has no
/// moves. The player's recorder notes actions that have an effect.
///
/// The bytes of a read are stored in `into`; other tasks don't use `into`. The bytes of an access must fit its place,
/// and `into` must have the size of a read (`FitsTask`).
pub(crate) fn perform<W: Write>(
    session: &mut Session,
    alloc: Global,
    out: &mut W,
    said: &[u8],
    task: Task<'_>,
    into: &mut [u8],
) -> Result<(), AnswerError>
    requires { FitsTask task into.old session.old.device }
    ensures { TellsAnswer result (W.contents out.old) (W.contents out.new)
        (Performs task.entry said.now session.old) session.new }
{
    let recorder = &mut session.kept.recorder;
    task.begin(alloc, &session.device, &session.agenda, recorder)?;
    let mut lines = Lines {
        out,
        kept: &mut session.kept,
        said,
        alloc,
        stopped: None,
    };
    let device = &mut session.device;
    let due = task.meet(device, &mut session.agenda, &mut lines);
    let wanted = task.take_number(&mut session.number, due);
    match task.play(alloc, device, wanted, into, &mut lines) {
        Ok(answer) => lines.end(answer),
        // A task fails only if memory is refused.
        Err(_) => Err(AnswerError::Memory),
    }
}

/// Answers `clock_step` or `clock_set` with `time`, and sets the clock to `time`. First delivers all offered frames,
/// and plays cycles until one does nothing, or until their maximum.
///
/// If `time` is `None`, the time would be 2^64 nanoseconds or more, and the request is refused. `said` is the line of
/// the request.
fn move_clock<W: Write>(
    session: &mut Session,
    alloc: Global,
    out: &mut W,
    said: &[u8],
    time: Option<u64>,
) -> Result<(), AnswerError>
    ensures { TellsAnswer result (W.contents out.old) (W.contents out.new)
        (MovesClock time said.now session.old) session.new }
{
    let Some(time) = time else {
        return refuse(out, Refusal::Value);
    };
    let done = perform(session, alloc, out, said, Task::SetClock(time), &mut []);
    // The clock is also set at an error, which ends the server.
    session.clock = time;
    done
}

impl Server {
    ghost use Rattle.adapter_server.specs.Answers.{Does};
    ghost use Rattle.adapter_server.specs.Serving.{AnswersNext};

    /// Answers a request. `said` is the line of the request. After the request `log targets`, the log's line of an
    /// access ends with the name of the access's target (`request_said`).
    ///
    /// `clock_set` never sets the clock back.
    fn answer<W: Write>(
        &mut self,
        alloc: Global,
        out: &mut W,
        said: &[u8],
        request: &Request,
    ) -> Result<(), AnswerError>
        ensures { TellsAnswer result (W.contents out.old) (W.contents out.new)
            (Does request.now said.now self.old) self.new }
    {
        let session = &mut self.session;
        match *request {
            Request::Read(wanted, address) => read(session, alloc, out, said, wanted, address),
            Request::Write(address, ref bytes) => {
                write(session, alloc, out, said, address, bytes.as_slice())
            }
            Request::Look(what) => look(session, alloc, out, what),
            Request::WritePort(width, port, value) => {
                session.function.write_port(port, width, value);
                say(out, b"OK\n")
            }
            Request::Set(setting) => {
                session.set(setting);
                say(out, b"OK\n")
            }
            Request::Step(kind) => perform(session, alloc, out, said, Task::Step(kind), &mut []),
            Request::Arrive(ref frame) => {
                let task = Task::Arrive(frame.as_slice());
                perform(session, alloc, out, said, task, &mut [])
            }
            Request::Settle => perform(session, alloc, out, said, Task::Settle, &mut []),
            Request::Offer(ref frame) => {
                let task = Task::Offer(frame.as_slice());
                perform(session, alloc, out, said, task, &mut [])
            }
            Request::Choose(limit) => {
                perform(session, alloc, out, said, Task::Choose(limit), &mut [])
            }
            Request::ClockStep(nanoseconds) => {
                let time = session.clock.checked_add(nanoseconds);
                move_clock(session, alloc, out, said, time)
            }
            Request::ClockSet(time) => {
                let time = session.clock.max(time);
                move_clock(session, alloc, out, said, Some(time))
            }
            Request::Save => self.save(out),
            Request::Restore => self.restore(out),
        }
    }

    /// Answers a line, or refuses a line that is too long or isn't a request. Does nothing at the end of the input.
    /// `next` is the result of reading the line.
    pub fn answer_next<W: Write>(
        &mut self,
        alloc: Global,
        out: &mut W,
        next: NextLine,
        line: &[u8],
    ) -> Result<(), AnswerError>
        ensures { TellsAnswer result (W.contents out.old) (W.contents out.new)
            (AnswersNext next line.now self.old) self.new }
    {
        match next {
            NextLine::End => Ok(()),
            NextLine::Whole => match read_line(alloc, line) {
                Ok(request) => self.answer(alloc, out, line, &request),
                Err(Stop::Refused(refusal)) => refuse(out, refusal),
                Err(Stop::Memory) => Err(AnswerError::Memory),
            },
            NextLine::Long => refuse(out, Refusal::Long),
        }
    }
}
