//! A host over a bus with one adapter, which plays words.

use crate::fixtures::{NEEDED, config, lively_bus, offset_of, step_of};
use crate::said::{Player, fate_word, frame_word, handled_word, hex, outcome_word};
use adapter::{Bus, HonestBus, SoloBus, SoloTick, StepKind};
use arrayvec::ArrayVec;
use driver::Handled;
use packet_socket::{Host, SocketKind};
use std::alloc::Global;
use std::test::Fail;

/// A host and its bus.
#[derive(Drop)]
pub(crate) struct Solo {
    host: Host,
    bus: SoloBus,
}

/// Fills a frame with 0xFF, a broadcast destination among them, and sets its type.
fn fill(frame: &mut [u8], kind: &str) {
    frame.fill(0xFF);
    let [high, low] = u16::from_str_radix(kind, 16).unwrap_or(0).to_be_bytes();
    if frame.len() >= 14 {
        frame[12] = high;
        frame[13] = low;
    }
}

/// Makes a call of the host, if a word names one. These functions are generic, so that the proof uses only the contract
/// of a bus.
fn call<B: Bus>(
    alloc: Global,
    host: &mut Host,
    bus: &mut B,
    name: &str,
    argument: &str,
) -> Result<Option<String>, Fail> {
    if host.layout().size() > bus.size() {
        return Ok(None);
    }
    let number = argument.parse::<usize>().unwrap_or(0);
    let said = match name {
        "send" => {
            let mut frame = [0; 60];
            fill(&mut frame, argument);
            match host.send(bus, &frame) {
                Ok(()) => "ok".to_string(alloc)?,
                Err(error) => format!(in alloc; "{error}")?,
            }
        }
        "interrupt" => handled_word(alloc, host.interrupt(bus))?,
        "recv" => {
            let mut into = [0; 1518];
            match host.recv(bus, number, &mut into) {
                Ok(length) => frame_word(alloc, into.get(..length).unwrap_or(&[]))?,
                Err(error) => format!(in alloc; "{error}")?,
            }
        }
        "reset" => {
            host.reset(bus);
            "reset".to_string(alloc)?
        }
        // Bytes 8 to 15 of a receive descriptor.
        "descriptor" => {
            let mut bytes = [0; 16];
            bus.load(0, &mut bytes);
            hex(alloc, &bytes[8..])?
        }
        _ => return Ok(None),
    };
    Ok(Some(said))
}

/// Returns a count of a host, if a word names one.
fn told(alloc: Global, host: &Host, name: &str, argument: &str) -> Result<Option<String>, Fail> {
    let socket = argument.parse::<usize>().unwrap_or(0);
    let (sum, exact) = host.missed();
    Ok(match name {
        "waiting" => Some(format!(in alloc; "{}", host.waiting(socket))?),
        "unclaimed" => Some(format!(in alloc; "{}", host.unclaimed())?),
        "oldest" => Some(format!(in alloc; "{}", host.oldest())?),
        "missed" => Some(format!(in alloc; "{sum} {exact}")?),
        _ => None,
    })
}

impl Solo {
    /// Returns a host with these sockets.
    fn new(alloc: Global, buffers: u16, rxa: u8, kinds: &[SocketKind]) -> Result<Solo, Fail> {
        let mut bus = lively_bus(alloc, NEEDED)?;
        let mut table = ArrayVec::new();
        for kind in kinds {
            let _ = table.try_push(*kind);
        }
        let mut config = config(8, 8, buffers);
        config.rxa = rxa;
        let host = Host::new(alloc, &mut bus, &config, table)?;
        Ok(Solo { host, bus })
    }

    /// Makes a call that is said, and adds `@0` if there was no access.
    fn call(&mut self, alloc: Global, name: &str, argument: &str) -> Result<Option<String>, Fail> {
        let before = self.bus.accesses();
        let mut said = call(alloc, &mut self.host, &mut self.bus, name, argument)?;
        if let Some(text) = &mut said {
            if self.bus.accesses() == before {
                text.push_str("@0")?;
            }
        }
        Ok(said)
    }

    fn arrive(&mut self, kind: &str, length: usize) -> &'static str {
        let mut frame = [0; 1518];
        fill(&mut frame, kind);
        fate_word(self.bus.arrive(frame.get(..length).unwrap_or(&[])))
    }
}

impl Player for Solo {
    fn named(alloc: Global, name: &str) -> Result<Solo, Fail> {
        let arp = SocketKind::Ether(0x0806);
        match name {
            "three" => Solo::new(alloc, 16, 48, &[SocketKind::All, arp, arp]),
            "arp" => Solo::new(alloc, 16, 48, &[arp]),
            // There are 8 receive buffers.
            "tight" => Solo::new(alloc, 8, 48, &[SocketKind::All]),
            // The receive packet buffer has 2 KB.
            "small" => Solo::new(alloc, 16, 2, &[SocketKind::All]),
            _ => Solo::new(alloc, 16, 48, &[SocketKind::All]),
        }
    }

    fn word(&mut self, alloc: Global, name: &str, argument: &str) -> Result<String, Fail> {
        if let Some(kind) = step_of(name) {
            return Ok(outcome_word(&self.bus.step(kind)).to_string(alloc)?);
        }
        if let Some(offset) = offset_of(name) {
            return Ok(format!(in alloc; "{}", self.bus.read(offset))?);
        }
        if let Some(said) = told(alloc, &self.host, name, argument)? {
            return Ok(said);
        }
        match name {
            "arrive" => return Ok(self.arrive(argument, 60).to_string(alloc)?),
            "longest" => return Ok(self.arrive(argument, 1518).to_string(alloc)?),
            // A frame that arrives, moves and is done; `late` frames move before the second access of the next call.
            "arrived" => {
                let _ = self.arrive(argument, 60);
                self.bus.step(StepKind::RxData);
                self.bus.step(StepKind::RxDone);
                return Ok("arrived".to_string(alloc)?);
            }
            "piece" => {
                self.bus.step(StepKind::RxData);
                self.bus.step(StepKind::RxDone);
                return Ok("piece".to_string(alloc)?);
            }
            "late" => {
                let ticks = [
                    SoloTick::Go,
                    SoloTick::Step(StepKind::RxData),
                    SoloTick::Step(StepKind::RxDone),
                ];
                if self.bus.waiting() == 0 {
                    self.bus.play(&ticks);
                }
                return Ok("late".to_string(alloc)?);
            }
            _ => {}
        }
        let said = self.call(alloc, name, argument)?;
        Ok(said.unwrap_or("unknown".to_string(alloc)?))
    }
}
