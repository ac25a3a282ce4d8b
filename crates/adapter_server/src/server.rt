// Answers all lines of an input. The contracts apply if contracts can see the bytes of the input (`R.remaining`) and of
// the output (`W.contents`).

ghost use Rattle.std.specs.Prelude.{◌≡◌, IfErr, IfOk, IfSome, OnErr, OnOk};
ghost use Rattle.server_output.specs.Order.{WritesText};
ghost use Rattle.adapter_server.specs.Serving.{ServesAll, ServesBegun, ServesFront, ServesPart, ServesSome};
ghost use Rattle.adapter_server.specs.Serving.{ServesWhole};
ghost use Rattle.adapter_server.specs.declared.serve_error.ServeError.TheVariants as errors;

use crate::beginning::{new_device, new_server};
use crate::options::ServeOptions;
use crate::serve_error::ServeError;
use crate::snapshot::Server;
use server_output::send;
use server_requests::{MOST_LINE_BYTES, NextLine, next_line};
use std::alloc::Global;
use std::io::{BufRead, Write};
use step_schedules::Player;
use text::turns;

/// Answers each line of the input, and flushes the output, before reading the next line, until the input ends. The
/// errors are those of [`serve`].
fn serve_lines<R: BufRead, W: Write>(
    server: &mut Server,
    alloc: Global,
    input: &mut R,
    output: &mut W,
) -> Result<(), ServeError>
    // All lines were answered.
    ensures ok { OnOk result (IfSome (R.remaining input.old) (λ bytes.
        WritesText (W.contents output.old) (W.contents output.new) (ServesWhole bytes server.old server.new))) }
    // At `Read`, the first n lines were answered, for some n, and nothing else was written.
    ensures read { IfErr result (λ error. error ≡ errors.Read → IfSome (R.remaining input.old) (λ bytes.
        WritesText (W.contents output.old) (W.contents output.new) (ServesFront bytes server.old))) }
    // At any error, the first n lines were answered, for some n. Then a beginning of the next answer may follow.
    ensures begun { OnErr result (IfSome (R.remaining input.old) (λ bytes.
        WritesText (W.contents output.old) (W.contents output.new) (ServesBegun bytes server.old))) }
{
    let mut line = Vec::with_capacity(alloc, MOST_LINE_BYTES)?;
    for _count in turns() {
        let next = next_line(input, &mut line)?;
        if let NextLine::End = next {
            return Ok(());
        }
        server.answer_next(alloc, output, next, line.as_slice())?;
        send(output)?;
    }
    // The input had a line for each of the 2^64 - 1 turns.
    Err(ServeError::Read)
}

/// Serves an adapter: reads requests from `input`, one per line, and writes their answers to `output`.
///
/// Answers each line, and flushes `output` after each answer, before reading further bytes. Refuses a line that isn't a
/// request, and a line of more than 131,200 bytes. At the end of the input, returns the player after the last line.
///
/// Pass a buffered writer: `serve` writes an answer in pieces.
///
/// Memory use is bounded while no frame is offered, no frame or fault waits, nothing is saved and there is no player.
/// The bound is the host's memory, the adapter with its packet buffers, and 721,039 bytes. Of these bytes, 131,200 are
/// for a line, and the others for the answer to a `read` of 65,536 bytes: the bytes, their digits and the text.
///
/// Only memory limits the number of offered frames, and of frames and faults that wait. A saved session needs as much
/// memory as the session. While `save` or `restore` is answered, there is one more copy. A player keeps its schedule
/// and a record of what was played.
///
/// # Errors
///
/// `Memory` if memory was refused. `Read` if reading failed. `Write` if writing failed, or if the writer took no byte.
/// At each error, the first n lines were answered in full, in order, for some n. After `Read`, nothing else was
/// written. After `Memory` or `Write`, a beginning of the next answer may have been written.
#[tactic(auto, using(crate::proofs::ServedLines::never_read))]
pub fn serve<R: BufRead + Drop, W: Write>(
    alloc: Global,
    options: &ServeOptions,
    player: Option<Player>,
    mut input: R,
    output: &mut W,
) -> Result<Option<Player>, ServeError>
    ensures ok { IfOk result (λ left. IfSome (R.remaining input)
        (λ bytes. ServesAll options.now player bytes left (W.contents output.old) (W.contents output.new))) }
    ensures read { IfErr result (λ error. error ≡ errors.Read → IfSome (R.remaining input)
        (λ bytes. ServesSome options.now player bytes (W.contents output.old) (W.contents output.new))) }
    ensures begun { OnErr result (IfSome (R.remaining input)
        (λ bytes. ServesPart options.now player bytes (W.contents output.old) (W.contents output.new))) }
{
    let device = new_device(alloc, options)?;
    let mut server = new_server(alloc, options, device, player);
    let served = serve_lines(&mut server, alloc, &mut input, output);
    let left = server.into_player();
    // At an error, the player is dropped.
    served.and(Ok(left))
}
