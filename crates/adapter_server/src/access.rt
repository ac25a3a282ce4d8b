// Reads and writes.

ghost use Rattle.std.specs.Prelude.{length};
ghost use Rattle.adapter_server.specs.Answers.{ReadsAt, TellsAnswer, WritesAt, access_said};
ghost use Rattle.adapter_server.specs.Sessions.{place_in};
ghost use Rattle.adapter_server.specs.Tasks.{FitsTask, Performs, task_said};
ghost use Rattle.server_requests.specs.Widths.{wanted_size};

use crate::answering::perform;
use crate::session::{AccessPlace, Session};
use crate::task::{REGISTER_WIDTH, Task};
use server_output::{AnswerError, joined, refuse};
use server_requests::Wanted;
use std::alloc::Global;
use std::io::Write;

/// Performs the access `task` as [`perform`] does. `said` is the line of the request. After the request `log targets`,
/// the log's line of the access ends with the name of the access's target.
///
/// The bytes of the access must fit its place, and `into` must have the size of a read (`FitsTask`).
fn access<W: Write>(
    session: &mut Session,
    alloc: Global,
    out: &mut W,
    said: &[u8],
    task: Task<'_>,
    into: &mut [u8],
) -> Result<(), AnswerError>
    requires { FitsTask task into.old session.old.device }
    ensures { TellsAnswer result (W.contents out.old) (W.contents out.new)
        (Performs task.entry (task_said task.entry said.now session.old) session.old) session.new }
{
    if !session.targets {
        return perform(session, alloc, out, said, task, into);
    }
    let name = task.name(alloc, &session.device)?;
    let line = joined(alloc, &[said, b" -> ", name.as_bytes()])?;
    perform(session, alloc, out, line.as_slice(), task, into)
}

/// Answers `readb`, `readw`, `readl`, `readq`, `read` and `b64read`. `wanted` is the number of bytes and the form of
/// the answer, and `said` the line of the request.
///
/// Four bytes at the aligned address of a register are one read of the register. Other bytes are read from memory, or
/// the read is refused.
pub(crate) fn read<W: Write>(
    session: &mut Session,
    alloc: Global,
    out: &mut W,
    said: &[u8],
    wanted: Wanted,
    address: u64,
) -> Result<(), AnswerError>
    // `place_in` is the place of the access, or the refusal. `access_said` is what the log prints.
    ensures { TellsAnswer result (W.contents out.old) (W.contents out.new)
        (ReadsAt (place_in session.old address (wanted_size wanted)) wanted address
        (access_said (place_in session.old address (wanted_size wanted)) address said.now session.old) session.old)
        session.new }
{
    let size = wanted.size();
    match session.place_of(address, size) {
        Ok(AccessPlace::Register(offset)) => {
            let task = Task::Read(AccessPlace::Register(offset), address, wanted);
            access(session, alloc, out, said, task, &mut [0; REGISTER_WIDTH])
        }
        Ok(AccessPlace::Memory) => {
            let mut bytes = vec![in alloc; 0; size as usize]?;
            let task = Task::Read(AccessPlace::Memory, address, wanted);
            access(session, alloc, out, said, task, bytes.as_mut_slice())
        }
        Err(refusal) => refuse(out, refusal),
    }
}

/// Answers `writeb`, `writew`, `writel`, `writeq`, `write`, `b64write` and `memset`. `said` is the line of the request.
///
/// Four bytes at the aligned address of a register are one write of the register. Other bytes are written to memory, or
/// the write is refused.
pub(crate) fn write<W: Write>(
    session: &mut Session,
    alloc: Global,
    out: &mut W,
    said: &[u8],
    address: u64,
    bytes: &[u8],
) -> Result<(), AnswerError>
    // `place_in` is the place of the access, or the refusal. `access_said` is what the log prints.
    ensures { TellsAnswer result (W.contents out.old) (W.contents out.new)
        (WritesAt (place_in session.old address (length bytes.now)) address bytes.now
        (access_said (place_in session.old address (length bytes.now)) address said.now session.old) session.old)
        session.new }
{
    match session.place_of(address, bytes.len() as u64) {
        Ok(place) => {
            let task = Task::Write(place, address, bytes);
            access(session, alloc, out, said, task, &mut [])
        }
        Err(refusal) => refuse(out, refusal),
    }
}
