//! Tests of the log of a wire: the number of the log's entries, and the senders of the frames in it.

use crate::texts::{events_of, scenario_in};
use std::alloc::Global;
use std::process::Abort;
use std::test::Fail;
use wire::{Event, Lan};

/// The number of frames that host `a` puts on the wire.
const FRAMES: u32 = 2000;

/// The number of events at the beginning of `TEXT` by which host `b` puts its frame on the wire: a send, TxTake and
/// TxPut.
const PUT: usize = 3;

/// Host `b` puts a frame on the wire, and this frame waits at host `a`. Then host `a` puts a frame, which is delivered
/// to host `b`.
const TEXT: &str = "host a 02:00:00:00:00:01 w
host b 02:00:00:00:00:02 w
send b 02000000000102000000000288b5
tick txtake:b
tick txput:b
send a 02000000000202000000000188b5
tick txtake:a
tick txput:a
tick deliver:b
";

/// Plays all events once, and then those of host `a` until it has put `FRAMES` frames. Returns `None` if an allocation
/// fails.
fn puts(alloc: Global, lan: &mut Lan, waits: &[Event<'_>], put: &[Event<'_>]) -> Option<()> {
    let mut replies = Vec::new(alloc);
    lan.run(alloc, waits, &mut replies).ok()?;
    for _ in 0..FRAMES {
        replies.clear();
        lan.run(alloc, put, &mut replies).ok()?;
    }
    Some(())
}

/// Checks that the log of the host's wire has 978 entries, and that only the first is of host `b`.
fn is_kept(rt: &impl Abort, lan: &Lan, host: usize) {
    let log = lan.log(host);
    let is_sorted = log
        .iter()
        .enumerate()
        .all(|(place, (sender, _))| (*sender == 1) == (place == 0));
    assert!(rt; log.len() == 978 && is_sorted);
}

/// While a frame of host `b` waits at host `a`, host `a` puts 2,000 frames. When the log has 1,024 entries, the next
/// put drops all entries except the frame that waits. So the log has 978 entries at the end.
#[test]
fn a_full_log_keeps_what_waits(rt: HostRuntime) -> Result<(), Fail> {
    let alloc = rt.alloc();
    let scenario = scenario_in(&rt, alloc, TEXT).expect(&rt, "memory isn't refused");
    let events = events_of(alloc, &scenario).expect(&rt, "memory isn't refused");
    let mut lan = Lan::new(alloc, &scenario.plan)?;
    assert!(rt; lan.log(0).is_empty() && events.len() >= PUT);
    let (waits, put) = events.split_at(PUT);
    let is_played = puts(alloc, &mut lan, waits, put).is_some();
    let sent = lan.counts(0).map(|counts| counts.transmitted);
    assert!(rt; is_played && sent == Some(FRAMES));
    is_kept(&rt, &lan, 0);
    is_kept(&rt, &lan, 1);
    Ok(())
}
