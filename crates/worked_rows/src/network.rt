//! A network that plays words.

use crate::said::{Player, frame_word, reply_words};
use crate::taken::Taken;
use adapter::StepKind;
use scenario::{Command, Scenario};
use std::alloc::Global;
use std::test::Fail;
use wire::{Event, Lan, Tick};

/// The line of a frame of host `a` to host `b`, without the frame's type.
const TO_B: &str = "send a 020000000002020000000001";

/// Returns the lines of a word: before its argument and after it, and the number of zero bytes at their end.
fn lines_of(name: &str) -> (&'static str, &'static str, usize) {
    match name {
        "send" => (TO_B, "", 0),
        "thirteen" => ("send a 02000000000202000000000108", "", 0),
        "longest" => (TO_B, "", 1504),
        "longer" => (TO_B, "", 1505),
        "to" => ("send a ", "0200000000010800", 0),
        "a" => ("send a ffffffffffff020000000001", "", 0),
        "b" => ("send b ffffffffffff020000000002", "", 0),
        "c" => ("send c ffffffffffff020000000003", "", 0),
        "take" => ("tick txtake:", "", 0),
        "put" => ("tick txput:", "", 0),
        "deliver" => ("tick deliver:", "", 0),
        "data" => ("tick rxdata:", "", 0),
        "done" => ("tick rxdone:", "", 0),
        // A frame of host `a` goes to its wire (`gone`), to host `b` (`brought`), and to memory (`arrived`).
        "gone" => (TO_B, "\ntick txtake:a\ntick txput:a", 0),
        "bring" => ("tick txtake:a\ntick txput:a\ntick deliver:b", "", 0),
        "brought" => (TO_B, "\ntick txtake:a\ntick txput:a\ntick deliver:b", 0),
        "arrived" => (
            TO_B,
            "\ntick txtake:a\ntick txput:a\ntick deliver:b\ntick rxdata:b\ntick rxdone:b",
            0,
        ),
        "finish" => ("tick rxdata:b\ntick rxdone:b", "", 0),
        "interrupt" => ("interrupt ", "", 0),
        "late" => ("interrupt b / go rxdata:b rxdone:b", "", 0),
        "recv" => ("recv ", " 0", 0),
        "join" => ("join b ", "", 0),
        "leave" => ("leave b ", "", 0),
        "reset" => ("reset ", "", 0),
        _ => ("", "", 0),
    }
}

/// The lines of hosts `a` and `b` on one wire.
const HOSTS: &str = "host a 02:00:00:00:00:01 w\nhost b 02:00:00:00:00:02 w\n";

/// Returns the lines of hosts. Host `b` has a socket for all frames, except in a `bare` network.
fn hosts(alloc: Global, name: &str) -> Result<String, Fail> {
    let lines = match name {
        // The receive packet buffer of host `b` has 2 KB.
        "small" => "host a 02:00:00:00:00:01 w\nhost b 02:00:00:00:00:02 w rxa 2\nsocket b all\n",
        // The transmit ring of host `a` has 4,096 descriptors.
        "large" =>
            "host a 02:00:00:00:00:01 w rx 4096 tx 4096 buffers 8192\nhost b 02:00:00:00:00:02 w\n",
        "three" =>
            "host a 02:00:00:00:00:01 w\nhost b 02:00:00:00:00:02 w\nhost c 02:00:00:00:00:03 w\n\
            socket a all\nsocket b all\nsocket c all\n",
        _ => HOSTS,
    };
    let settings = match name {
        "two" | "full" => "socket b all\n",
        "group" => "group b 01:00:5e:00:00:01\nsocket b all\n",
        "vlan" => "vlan b 5\nsocket b all\n",
        _ => "",
    };
    let mut text = format!(in alloc; "{lines}{settings}")?;
    if name == "full" {
        for last in 1..33u8 {
            text.push_str(format!(in alloc; "group b 01:00:5e:00:00:{last:02x}\n")?.as_str())?;
        }
    }
    Ok(text)
}

/// A network, and the lines of its hosts.
#[derive(Drop)]
pub(crate) struct Network {
    setup: String,
    lan: Lan,
}

/// Returns the line of a word; `_` in an argument is a space.
fn line_of(alloc: Global, name: &str, argument: &str) -> Result<String, Fail> {
    let (front, back, zeros) = lines_of(name);
    let mut line = front.to_string(alloc)?;
    for (index, part) in argument.split('_').enumerate() {
        if index > 0 {
            line.push_str(" ")?;
        }
        line.push_str(part)?;
    }
    line.push_str(back)?;
    for _ in 0..zeros {
        line.push_str("00")?;
    }
    line.push_str("\n")?;
    Ok(line)
}

/// Returns the events of a scenario.
fn events_of(alloc: Global, scenario: &Scenario) -> Result<Vec<Event<'_>>, Fail> {
    let mut events = Vec::new(alloc);
    for command in &scenario.commands {
        match command {
            Command::Call { host, call, ticks } => {
                let _ = events.push(call.event(*host, ticks.as_slice()));
            }
            Command::Tick(tick) => {
                let _ = events.push(Event::Tick(*tick));
            }
            _ => {}
        }
    }
    Ok(events)
}

impl Network {
    /// Runs events, and returns their replies in one line.
    fn run(&mut self, alloc: Global, events: &[Event<'_>]) -> Result<String, Fail> {
        let mut replies = Vec::new(alloc);
        self.lan.run(alloc, events, &mut replies)?;
        let mut said = String::new(alloc);
        for reply in &replies {
            if !said.is_empty() {
                said.push_str(" ")?;
            }
            said.push_str(reply_words(alloc, reply)?.as_str())?;
        }
        Ok(said)
    }

    /// Runs the events of lines.
    fn run_lines(&mut self, alloc: Global, lines: &str) -> Result<String, Fail> {
        let text = format!(in alloc; "{}{lines}", self.setup)?;
        let scenario = Scenario::read(alloc, text.as_bytes())?;
        let events = events_of(alloc, &scenario)?;
        self.run(alloc, &events)
    }

    /// Makes a call for a host that isn't there, with ticks.
    fn call_no_host(&mut self, alloc: Global) -> Result<String, Fail> {
        let ticks = [
            Tick::Go,
            Tick::Step(0, StepKind::TxTake),
            Tick::Go,
            Tick::Deliver(1),
            Tick::Deliver(7),
        ];
        let send = Event::Send {
            host: 9,
            frame: &[0xFF; 60],
            ticks: &ticks,
        };
        self.run(alloc, &[send])
    }

    /// Drains a host, and returns the number of steps and the frames.
    fn drain(&mut self, alloc: Global, host: usize) -> Result<String, Fail> {
        let mut taken = Taken::with_room(alloc, self.lan.drain_room(host))?;
        let steps = self.lan.drain(host, &mut taken);
        let mut said = format!(in alloc; "steps {steps}")?;
        for one in &taken.list {
            said.push_str(" ")?;
            said.push_str(frame_word(alloc, one.frame.as_slice())?.as_str())?;
        }
        Ok(said)
    }

    /// Returns counts of a host, and the number of entries in the log of its wire.
    fn counts(&self, alloc: Global, host: usize) -> Result<String, Fail> {
        let log = self.lan.log(host).len();
        let Some(counts) = self.lan.counts(host) else {
            return Ok(format!(in alloc; "no counts, log {log}")?);
        };
        let (missed, exact) = (counts.missed, counts.exact);
        let (late, lost) = (counts.without_descriptor, counts.unclaimed);
        Ok(format!(in alloc; "missed {missed} {exact} rnbc {late} unclaimed {lost} log {log}")?)
    }
}

impl Player for Network {
    fn named(alloc: Global, name: &str) -> Result<Network, Fail> {
        let setup = hosts(alloc, name)?;
        let plan = Scenario::read(alloc, setup.as_str().as_bytes())?.plan;
        let lan = Lan::new(alloc, &plan)?;
        Ok(Network { setup, lan })
    }

    fn word(&mut self, alloc: Global, name: &str, argument: &str) -> Result<String, Fail> {
        let host = argument.parse::<usize>().unwrap_or(0);
        match name {
            "drain" => self.drain(alloc, host),
            "counts" => self.counts(alloc, host),
            "nothing" => self.run(alloc, &[]),
            "nobody" => self.call_no_host(alloc),
            _ => {
                let line = line_of(alloc, name, argument)?;
                self.run_lines(alloc, line.as_str())
            }
        }
    }
}
