//! A test that a network can be made, and that a run can be continued, after a failed allocation.

use crate::texts::{events_of, scenario_in};
use std::alloc::Global;
use std::process::Abort;
use wire::{Event, Lan, Plan, PlanError, Reply};

/// Host `b` receives two frames of host `a`. A socket of `b` returns the first frame; the second remains in the receive
/// ring of `b`. A reset of `a` drops a third frame. Ticks are played inside sends, an interrupt, calls of a socket, and
/// the reset.
const TEXT: &str = "host a 02:00:00:00:00:01 w
host b 02:00:00:00:00:02 w
socket b all
send a 02000000000202000000000188b501 / txtake:a go go go txtake:a
tick txput:a
tick deliver:b
send a 02000000000202000000000188b502 / go rxdata:b
tick txtake:a
interrupt b / rxdone:b go go txput:a
recv b 0 / deliver:b go rxdata:b
recv b 0 / rxdone:b go
send a 02000000000202000000000188b503
reset a / deliver:b
";

/// For each event, the number of its accesses, and the number of its ticks that have an outcome. The reset makes 309
/// accesses, and one more for each of 16 descriptors.
const COUNTS: [(u64, usize); 10] = [
    (3, 2),
    (0, 1),
    (0, 1),
    (4, 1),
    (0, 1),
    (7, 2),
    (1, 2),
    (0, 1),
    (4, 0),
    (325, 1),
];

/// Makes a network. After a failed allocation, a second call makes it.
fn made(rt: &impl Abort, alloc: Global, plan: &Plan) -> Lan {
    match Lan::new(alloc, plan) {
        Ok(lan) => lan,
        Err(error) => {
            assert!(rt; error == PlanError::Memory);
            Lan::new(alloc, plan).expect(rt, "a network is made")
        }
    }
}

/// Runs the events. After a failed allocation, a second run plays the events that weren't done.
fn run(rt: &impl Abort, alloc: Global, lan: &mut Lan, events: &[Event<'_>]) -> Vec<Reply> {
    let mut replies = Vec::new(alloc);
    if let Err(stopped) = lan.run(alloc, events, &mut replies) {
        assert!(rt; replies.len() == stopped.done && stopped.done < events.len());
        let rest = lan.run(alloc, &events[stopped.done..], &mut replies);
        assert!(rt; rest.is_ok());
    }
    replies
}

/// The test passes whichever allocation fails. After the failure, a network can be made, or the events that weren't
/// done can be run. The contract of `run` states the network after the run, even if the run stops early.
#[test]
fn a_refused_allocation_is_memory(rt: HostRuntime) {
    let alloc = rt.alloc();
    let Some(scenario) = scenario_in(&rt, alloc, TEXT) else {
        return;
    };
    let Some(events) = events_of(alloc, &scenario) else {
        return;
    };
    let mut lan = made(&rt, alloc, &scenario.plan);
    let replies = run(&rt, alloc, &mut lan, &events);
    assert!(rt; replies.len() == COUNTS.len());
    for (reply, (accesses, outcomes)) in replies.iter().zip(COUNTS) {
        assert!(rt; reply.accesses == accesses && reply.outcomes.as_slice().len() == outcomes);
    }
    // GPTC of host `a`, which the reset of `a` cleared, and GPRC of host `b`
    let sent = lan.counts(0).map(|counts| counts.transmitted);
    let received = lan.counts(1).map(|counts| counts.received);
    assert!(rt; sent == Some(0) && received == Some(2));
}
