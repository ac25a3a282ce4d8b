//! Tests of the number of steps of a drain, of the order of its sockets, and that a drain allocates no memory. Tests of
//! the built program check which frames a drain returns.

use crate::outlet::Taken;
use crate::texts::{events_of, scenario_in};
use std::alloc::Global;
use std::process::Abort;
use wire::{Lan, PlanError};

/// The lines of two hosts on one wire.
const HOSTS: &str = "host a 02:00:00:00:00:01 w\nhost b 02:00:00:00:00:02 w\n";

/// The line of a socket of host `b` for all frames.
const ALL: &str = "socket b all\n";

/// The lines of two sockets of host `b`: one for ARP frames, and one for all other frames.
const TWO: &str = "socket b 0806\nsocket b all\n";

/// Lines by which a frame of host `a` reaches the receive packet buffer of host `b`.
const BROUGHT: &str =
    "send a 02000000000202000000000188b5\ntick txtake:a\ntick txput:a\ntick deliver:b\n";

/// Lines by which an ARP frame of host `a` reaches the receive packet buffer of host `b`.
const ASKED: &str =
    "send a 0200000000020200000000010806\ntick txtake:a\ntick txput:a\ntick deliver:b\n";

/// Lines by which the adapter of host `b` moves the next piece of its oldest frame to memory, and writes back the
/// piece's descriptor.
const FINISHED: &str = "tick rxdata:b\ntick rxdone:b\n";

/// Lines by which host `b` sends a frame, and its adapter puts the frame on the wire.
const SENT: &str = "send b ffffffffffff02000000000288b5\ntick txtake:b\ntick txput:b\n";

/// The beginning of a line by which host `a` sends a frame.
const SEND: &str = "send a ";

/// 60 bytes of 0xFF, as hexadecimal digits.
const FF: &str = "ffffffffffffffffffffffffffffffffffffffffffffffffffffffffffff\
ffffffffffffffffffffffffffffffffffffffffffffffffffffffffffff";

/// The end of a line by which host `a` sends a frame, and the ticks by which this frame reaches the receive packet
/// buffer of host `b`.
const COMES: &str = "\ntick txtake:a\ntick txput:a\ntick deliver:b\n";

/// The lines that are played after those of the hosts. Then the number of steps of a drain of host `b` after all lines,
/// and the sockets whose frames it returns, in order: a waiting frame of the first socket comes before one of the
/// second.
const ROWS: [(&[&str], u64, &[usize]); 8] = [
    // A host that holds nothing takes no step, in particular no interrupt.
    (&[ALL], 0, &[]),
    (&[ALL, BROUGHT, BROUGHT, BROUGHT], 12, &[0, 0, 0]),
    // One of these steps is an interrupt for TXDW, which the put of the frame of host `b` recorded.
    (&[ALL, BROUGHT, BROUGHT, BROUGHT, SENT], 13, &[0, 0, 0]),
    (&[BROUGHT], 3, &[]),
    (
        &[TWO, BROUGHT, "tick rxdata:b\n", BROUGHT, ASKED],
        11,
        &[1, 1, 0],
    ),
    // The frames of one interrupt fill all outstanding slots, and two frames are in the packet buffer.
    (
        &[
            ALL, BROUGHT, FINISHED, BROUGHT, FINISHED, BROUGHT, FINISHED, BROUGHT, FINISHED,
            BROUGHT, FINISHED, BROUGHT, FINISHED, BROUGHT, FINISHED, BROUGHT, BROUGHT,
        ],
        16,
        &[0; 9],
    ),
    // A frame is in each queue, the piece of one frame is in progress, and one frame is in the packet buffer.
    (
        &[
            TWO,
            BROUGHT,
            FINISHED,
            ASKED,
            FINISHED,
            "interrupt b\n",
            BROUGHT,
            "tick rxdata:b\n",
            ASKED,
        ],
        9,
        &[0, 1, 1, 0],
    ),
    // Six pieces, each moved and finished, with an interrupt after RXDMT0 and one after RXT0, and a recv.
    (
        &[
            ALL, SEND, FF, FF, FF, FF, FF, FF, FF, FF, FF, FF, FF, FF, FF, FF, FF, FF, FF, FF, FF,
            FF, FF, FF, COMES,
        ],
        15,
        &[0],
    ),
];

/// Returns the lines after those of the hosts, or `None` if an allocation fails.
fn joined(alloc: Global, lines: &[&str]) -> Option<String> {
    let mut text = String::from_str(alloc, HOSTS).ok()?;
    for line in lines {
        text.push_str(line).ok()?;
    }
    Some(text)
}

/// Drains a host, and checks the number of steps, and the sockets of the frames. Returns `None` if the room for the
/// frames can't be allocated.
fn drained(
    rt: &impl Abort,
    alloc: Global,
    lan: &mut Lan,
    host: usize,
    steps: u64,
    sockets: &[usize],
) -> Option<()> {
    let mut taken = Taken::with_room(alloc, lan.drain_room(host)).ok()?;
    assert!(rt;
        lan.drain(host, &mut taken) == steps,
        "{steps} steps of host {host}"
    );
    assert!(rt;
        taken
            .list
            .iter()
            .map(|one| one.socket)
            .eq(sockets.iter().copied())
    );
    assert!(rt; lan.counts(host).is_none() == (lan.log(host).is_empty() && host == 9));
    Some(())
}

/// Returns the network after these lines, or `None` if an allocation fails.
fn played(rt: &impl Abort, alloc: Global, lines: &[&str]) -> Option<Lan> {
    let text = joined(alloc, lines)?;
    let scenario = scenario_in(rt, alloc, text.as_str())?;
    let events = events_of(alloc, &scenario)?;
    let made = Lan::new(alloc, &scenario.plan);
    assert!(rt; matches!(made, Ok(_) | Err(PlanError::Memory)));
    let mut lan = made.ok()?;
    let mut replies = Vec::new(alloc);
    lan.run(alloc, &events, &mut replies).ok()?;
    Some(lan)
}

/// Only the first drain of host `b` takes steps. All calls succeed even if every allocation fails after the room for
/// the frames is allocated.
#[test]
fn drains_take_these_steps_and_no_memory(rt: HostRuntime) {
    let alloc = rt.alloc();
    for (lines, steps, sockets) in ROWS {
        let Some(mut lan) = played(&rt, alloc, lines) else {
            return;
        };
        for (host, steps, sockets) in [(1, steps, sockets), (1, 0, &[]), (9, 0, &[])] {
            if drained(&rt, alloc, &mut lan, host, steps, sockets).is_none() {
                return;
            }
        }
    }
}
