// Answers that report state.

ghost use Rattle.adapter_server.specs.Answers.{CanDo, CanStep, Looks, TellsAnswer};

use crate::session::Session;
use crate::task::target_at;
use access_names::{Engine, RingWords};
use adapter::StepKind;
use played_adapter::PlayedAdapter;
use server_output::{
    AnswerError, EnabledSteps, Faults, refuse, say, say_enabled, say_faults, say_frames,
    say_number, say_rings, say_word,
};
use server_requests::Look;
use std::alloc::Global;
use std::io::Write;
use std::mem;

/// Returns whether the outcome of a step of this kind would now be neither `Nothing` nor `WireFull`.
pub(crate) fn can_step(device: &PlayedAdapter, kind: StepKind) -> bool
    ensures { CanDo kind result device.now }
{
    let works = device.machine.has_work(kind);
    match kind {
        StepKind::TxPut => works & device.wire_free,
        _ => works,
    }
}

/// Returns the kinds of steps whose outcome now would be neither `Nothing` nor `WireFull`.
fn enabled_steps(device: &PlayedAdapter) -> EnabledSteps
    ensures { CanStep device.now result }
{
    EnabledSteps {
        tx_take: can_step(device, StepKind::TxTake),
        tx_put: can_step(device, StepKind::TxPut),
        rx_data: can_step(device, StepKind::RxData),
        rx_done: can_step(device, StepKind::RxDone),
        eeprom: can_step(device, StepKind::EepromTick),
        phy: can_step(device, StepKind::PhyTick),
    }
}

/// Answers a request that returns state of the adapter or the server, and plays nothing. `frames` and `faults` also
/// remove the frames and faults that they return. At an error, these frames may be lost, and these faults are lost.
pub(crate) fn look<W: Write>(
    session: &mut Session,
    alloc: Global,
    out: &mut W,
    look: Look,
) -> Result<(), AnswerError>
    ensures { TellsAnswer result (W.contents out.old) (W.contents out.new) (Looks look session.old) session.new }
{
    match look {
        Look::Port(width, port) => {
            let asserted = session.device.machine.line();
            let value = session.function.read_port(port, width, asserted);
            say_number(out, u64::from(value))
        }
        Look::Endianness => say_word(alloc, out, b"little"),
        Look::Line => say_number(out, u64::from(session.device.machine.line())),
        Look::Digest => say_number(out, session.device.machine.digest()),
        Look::Frames => say_frames(alloc, out, &mut session.kept.put),
        Look::Faults => {
            let faults = mem::replace(&mut session.kept.faults, Faults::new(alloc));
            say_faults(alloc, out, &faults)
        }
        // Nothing changes, because changes of the interrupt line are always printed.
        Look::Intercept => say(out, b"OK\n"),
        Look::Enabled => say_enabled(alloc, out, enabled_steps(&session.device)),
        Look::Target(address, count) => match session.place_of(address, count) {
            Ok(place) => {
                let name = target_at(&session.device, place, address).name();
                say_word(alloc, out, name.as_slice())
            }
            Err(refusal) => refuse(out, refusal),
        },
        Look::Rings => {
            let receive = RingWords::of(&session.device.machine, Engine::Receive);
            let transmit = RingWords::of(&session.device.machine, Engine::Transmit);
            say_rings(alloc, out, receive, transmit)
        }
    }
}
