// A server that answers one line in each call, and steps that are played between its lines.

ghost use Rattle.std.specs.Prelude.{◌≡◌, ◌≤◌, [], IfOk, OnOk};
ghost use Rattle.adapter_server.specs.Answers.{Played};
ghost use Rattle.played_adapter.specs.Playing.{Chosen};
ghost use Rattle.server_output.specs.Order.{WritesText};
ghost use Rattle.std.specs.Option.{option_map};
ghost use Rattle.adapter_server.specs.Comings.{ComesNext};
ghost use Rattle.adapter_server.specs.LineServers as spec;

use crate::beginning::{new_device, new_server};
use crate::coming::{Coming, coming_of};
use crate::looking::can_step;
use crate::options::ServeOptions;
use crate::session::Session;
use crate::snapshot::Server;
use adapter::StepKind;
use played_adapter::{Choice, PlayedAdapter};
use server_output::{AnswerError, Lines};
use server_requests::{MOST_LINE_BYTES, NextLine};
use std::alloc::{AllocError, Global};
use std::io::Write;
use std::marker::Model;
use std::mem::swap;
use step_schedules::Agenda;

/// The bit of [`LineServer::can`] for the arrival of the oldest offered frame.
const OFFERED: u32 = 1 << 31;

/// A server that answers one line in each call, and the texts that it wrote.
///
/// A server that was refused memory may be in the middle of a request. It is dead: its calls do nothing from then on.
///
/// In contracts, the value is a `LineState`, plain data that `specs/LineServers.antt` defines.
#[derive(Drop)]
pub struct LineServer {
    /// The server. Its agenda has no schedule, and counts the places of a schedule.
    server: Server,
    /// What was written since the last answer.
    waiting: Vec<u8>,
    /// The text of the last answer, and before it what was written since the answer before.
    told: Vec<u8>,
    /// Whether memory was refused.
    dead: bool,
}

impl Model for LineServer {
    ghost use Rattle.adapter_server.specs.LineServers.{LineState};

    ghost Value = { LineState };

    ghost view = { λ lines. record {
      server = lines.server;
      waiting = lines.waiting.items;
      told = lines.told.items;
      dead = lines.dead;
    } };
}

/// Returns what reading this line from an input would result in.
fn next_of(line: &[u8]) -> NextLine
    ensures { result ≡ spec.next_of line.now }
{
    if line.len() > MOST_LINE_BYTES {
        NextLine::Long
    } else {
        NextLine::Whole
    }
}

/// Returns whether a choice would do something now: whether the outcome of its step would be neither `Nothing` nor
/// `WireFull`, or whether a frame is offered for its arrival.
fn can_choose(device: &PlayedAdapter, choice: Choice) -> bool
    ensures { spec.CanChoose choice result device.now }
{
    match choice {
        Choice::Step(kind) => can_step(device, kind),
        Choice::Arrival => !device.offered.is_empty(),
    }
}

/// Returns `value` if a choice would do something now, else 0.
fn bit_of(device: &PlayedAdapter, choice: Choice, value: u32) -> u32
    ensures bit { spec.BitOf choice value result device.now }

    // By this bound, the sum in `can` doesn't overflow.
    ensures fits { result ≤ value }
{
    if can_choose(device, choice) { value } else { 0 }
}

/// Plays a choice as before a request, and writes about it.
fn play_choice<W: Write>(
    session: &mut Session,
    alloc: Global,
    out: &mut W,
    choice: Choice,
) -> Result<(), AnswerError>
    ensures { OnOk result (WritesText (W.contents out.old) (W.contents out.new)
        (Played (Chosen choice) [] session.old session.new)) }
{
    let mut lines = Lines {
        out,
        kept: &mut session.kept,
        // There is no request of which the log could print the line.
        said: &[],
        alloc,
        stopped: None,
    };
    let device = &mut session.device;
    device.choose(choice, &mut lines);
    match lines.stopped {
        Some(error) => Err(error),
        None => Ok(()),
    }
}

impl LineServer {
    /// Returns a server before the first line, whose adapter has these options. Fails only if memory is refused.
    pub fn new(alloc: Global, options: &ServeOptions) -> Result<LineServer, AllocError>
        ensures { IfOk result (λ made. spec.IsNewLines options.now made) }
    {
        let device = new_device(alloc, options)?;
        let mut server = new_server(alloc, options, device, None);
        server.session.agenda = Some(Agenda::idle(alloc));
        Ok(LineServer {
            server,
            waiting: Vec::new(alloc),
            told: Vec::new(alloc),
            dead: false,
        })
    }

    /// Answers a line, which is passed without its line feed. The text that a server writes for the line comes after
    /// what waits, and [`told`](LineServer::told) returns it. Does nothing if the server is dead. If memory is refused,
    /// the server is dead.
    pub fn answer(&mut self, alloc: Global, line: &[u8])
        ensures { spec.LineAnswered line.now self.old self.new }
    {
        if self.dead {
            return;
        }
        let next = next_of(line);
        match self
            .server
            .answer_next(alloc, &mut self.waiting, next, line)
        {
            Ok(()) => {
                swap(&mut self.waiting, &mut self.told);
                self.waiting.clear();
            }
            // A `Vec` fails only if memory is refused.
            Err(_) => self.dead = true,
        }
    }

    /// Returns the text of the last answer. A dead server has an empty text.
    pub fn told(&self) -> &[u8]
        ensures { result.now ≡ spec.told_text self.now }
    {
        if self.dead { &[] } else { self.told.as_slice() }
    }

    /// Returns what [`deviate`](LineServer::deviate) would do something for: bit 0 to bit 5 for a step `TxTake`, `TxPut`,
    /// `RxData`, `RxDone`, `EepromTick` and `PhyTick`, and bit 31 for an arrival. Returns 0 if the server is dead.
    pub fn can(&self) -> u32
        ensures { spec.TellsCan result self.now }
    {
        if self.dead {
            return 0;
        }
        let device = &self.server.session.device;
        let take = bit_of(device, Choice::Step(StepKind::TxTake), 1);
        let put = bit_of(device, Choice::Step(StepKind::TxPut), 2);
        let data = bit_of(device, Choice::Step(StepKind::RxData), 4);
        let done = bit_of(device, Choice::Step(StepKind::RxDone), 8);
        let eeprom = bit_of(device, Choice::Step(StepKind::EepromTick), 16);
        let phy = bit_of(device, Choice::Step(StepKind::PhyTick), 32);
        let arrival = bit_of(device, Choice::Arrival, OFFERED);
        take + put + data + done + eeprom + phy + arrival
    }

    /// Plays a step, or the arrival of the oldest offered frame. What a server writes about it waits for the next
    /// answer. Returns whether it did something. Does nothing if the server is dead. If memory is refused, the server
    /// is dead.
    pub fn deviate(&mut self, alloc: Global, choice: Choice) -> bool
        ensures { spec.Deviated choice result self.old self.new }
    {
        if self.dead {
            return false;
        }
        let can = can_choose(&self.server.session.device, choice);
        match play_choice(&mut self.server.session, alloc, &mut self.waiting, choice) {
            Ok(()) => can,
            Err(_refused) => {
                self.dead = true;
                false
            }
        }
    }

    /// Returns the served adapter, or `None` if the server is dead.
    pub fn device(&self) -> Option<&PlayedAdapter>
        ensures { spec.LendsDevice (option_map (λ device. device.now) result) self.now }
    {
        if self.dead {
            return None;
        }
        Some(&self.server.session.device)
    }

    /// Returns what a line, without its line feed, would be in a schedule if it came now. Returns `None` if it would be
    /// no place of a schedule: it would be refused, or it looks, changes a setting or sets the clock. Returns `None`
    /// also if the server is dead, or if memory is refused, and then the server is dead.
    pub fn coming(&mut self, alloc: Global, line: &[u8]) -> Option<Coming>
        ensures { ComesNext line.now result self.old self.new }
    {
        if self.dead {
            return None;
        }
        match coming_of(alloc, &self.server.session, line) {
            Ok(coming) => coming,
            Err(_refused) => {
                self.dead = true;
                None
            }
        }
    }

    /// Sets the number that answers the next request `choose`. Returns whether the server isn't dead; if it is, nothing
    /// changes.
    pub fn set_number(&mut self, number: u32) -> bool
        ensures { spec.SetsNumber number result self.old self.new }
    {
        if self.dead {
            return false;
        }
        self.server.session.number = Some(number);
        true
    }
}
