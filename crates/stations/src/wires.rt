// The wires of a network, and the frames that wait at their ends. `log` is the index of a wire's log in the list of
// logs.

ghost use Rattle.std.specs.Prelude.{◌≡◌, ◌<◌, ◌≤◌, ◌↔◌, ◌∷◌, ◌++◌, ℕ, [], IfOk, IfSome, IsNone, IsTrue, OnErr, Some};
ghost use Rattle.std.specs.Prelude.{drop, length, option_map, slice_get, slice_set};
ghost use Rattle.descriptors.specs.Frames.{longest_frame};
ghost use Rattle.stations.specs.Ends.{EndState, HaveRoom, end_after_put};
ghost use Rattle.stations.specs.WireLogs.{last_of_others, log_entries};
ghost use Rattle.std.specs.Prelude.{◌≢◌};
ghost use Rattle.stations.specs.LogReaders.{IsLeastCursor, IsReader, IsSlowest};
ghost use Rattle.stations.specs.LogReaders.{KeepsLogs, MakesRoom, PutsFrame, ReadIn};
ghost use Rattle.stations.specs.LogReaders.{IsLogFor, end_at, moved_cursor};
ghost use Rattle.stations.specs.declared.wires.End.{End};

use crate::wire_log::{LOG_ENTRIES, WireLog};
use descriptors::Frame;
use std::alloc::{AllocError, Global};
use std::marker::Model;

/// The greatest number of frames that may wait at an end of a wire (our choice).
pub const END_FRAMES: u8 = 64;

/// An end of a wire, with the place in the wire's log up to which the end's host has read.
#[derive(Drop)]
pub(crate) struct End {
    /// The number of the end's wire.
    wire: usize,
    /// The index of the wire's log in the list of logs.
    log: usize,
    /// The place of the first entry of the log that the host may not have read. The frames of other senders from this
    /// place on wait.
    cursor: usize,
    /// The number of frames that wait at this end.
    waiting: u8,
}

/// The wires of a network: a log for each wire, and an end for each host, in the order of their numbers.
///
/// In contracts, the value is a list of `EndState` (`specs/Ends.antt`).
#[derive(Drop)]
pub(crate) struct Wires {
    /// A log for each wire that has an end.
    logs: Vec<WireLog>,
    /// The ends, by the number of their host.
    ends: Vec<End>,
}

impl Model for Wires {
    ghost use Rattle.std.specs.Prelude.{List};
    ghost use Rattle.stations.specs.Ends.{EndState};

    ghost Value = { List EndState };

    ghost use Rattle.stations.specs.WiresView.{ends_from, HaveLogs};

    ghost view = { λ inside. ends_from inside.logs.items 0 inside.ends.items };

    ghost invariant = { λ inside. HaveLogs inside.logs.items inside.ends.items };
}

/// Returns the index of the log for the next end of a wire. This is the log that the wire's ends read, or a new log if
/// the wire has no ends. Each end must read a log of `logs`. Two ends must read the same log exactly if they are on the
/// same wire.
///
/// # Errors
///
/// Returns an error only if an allocation fails. Then no log has been added.
fn log_for(
    logs: &mut Vec<WireLog>,
    ends: &[End],
    alloc: Global,
    wire: usize,
) -> Result<usize, AllocError>
    requires there { (k : ℕ) → k < length ends.now → (end_at ends.now k).log < length logs.old.items }
    requires one { (j k : ℕ) → j < length ends.now → k < length ends.now
        → (end_at ends.now j).wire ≡ (end_at ends.now k).wire ↔ ((end_at ends.now j).log ≡ (end_at ends.now k).log) }
    ensures ok { IfOk result (λ log. IsLogFor wire ends.now logs.new.items log) }
    ensures kept { KeepsLogs logs.old.items logs.new.items }
{
    for end in ends.iter() {
        if end.wire == wire {
            return Ok(end.log);
        }
    }
    let log = logs.len();
    logs.push(WireLog::new(alloc)?)?;
    Ok(log)
}

/// Returns the number of an end with the least cursor among the ends that read a log. The sender's end must read this
/// log, so that there is such an end.
fn slowest(ends: &[End], log: usize, sender: usize) -> usize
    requires there { IsReader log ends.now sender }
    ensures { IsSlowest (length ends.now) log ends.now result }
{
    let mut reader = sender;
    for number in 0..ends.len() {
        if ends[number].log == log && ends[number].cursor < ends[reader].cursor {
            reader = number;
        }
    }
    reader
}

/// Returns the least of `most` and the cursors of all ends that read a log, except the end `but`.
fn least_cursor(ends: &[End], log: usize, but: usize, most: usize) -> usize
    ensures { IsLeastCursor (length ends.now) log but most ends.now result }
{
    let mut least = most;
    for (number, end) in ends.iter().enumerate() {
        if number != but && end.log == log && end.cursor < least {
            least = end.cursor;
        }
    }
    least
}

/// Subtracts `dropped` from the cursor of each end that reads a log. A cursor below `dropped` becomes 0.
fn move_cursors(ends: &mut [End], log: usize, dropped: usize)
    ensures { (k : ℕ) → slice_get ends.new k ≡ option_map (moved_cursor log dropped) (slice_get ends.old k) }
{
    for number in 0..ends.len() {
        if ends[number].log == log {
            ends[number].cursor = ends[number].cursor.saturating_sub(dropped);
        }
    }
}

/// Makes room for an entry in a log, which the sender's end must read. If the log is full, drops each entry that all
/// ends except its sender's have read, and moves the cursors. Each end that reads the log must have a cursor in the log
/// and count its waiting frames (`ReadIn`). The same frames wait as before.
fn make_room(ends: &mut [End], wire_log: &mut WireLog, log: usize, sender: usize)
    requires there { IsReader log ends.old sender }
    requires reads { ReadIn log wire_log.old ends.old }
    ensures { MakesRoom log wire_log.old wire_log.new ends.old ends.new }
{
    let entries = wire_log.len();
    if entries < LOG_ENTRIES {
        return;
    }
    let reader = slowest(ends, log, sender);
    // The least cursor of the other ends, or the end of the log if no other end reads the log.
    let second = least_cursor(ends, log, reader, entries);
    // The frame of each remaining entry waits at the end `reader` or, if `reader` sent the frame, at an end with the
    // cursor `second`. At most `END_FRAMES` frames wait at each end, so fewer than `LOG_ENTRIES` entries remain.
    wire_log.close_up(reader, ends[reader].cursor, second);
    // The cursor of `reader` becomes 0, because all entries before this cursor were dropped. Each other cursor is at
    // least `second`, so all dropped entries were before it.
    move_cursors(ends, log, entries - wire_log.len());
}

/// Appends a sender's frame to a log, which the sender's end must read. The frame then waits at each other end that
/// reads the log. Each of these ends must have room. The ends must read the log as `make_room` requires.
fn put_frame(ends: &mut [End], wire_log: &mut WireLog, log: usize, sender: usize, frame: &[u8])
    requires there { IsReader log ends.old sender }
    requires reads { ReadIn log wire_log.old ends.old }
    requires room { (k : ℕ) (end : End) → slice_get ends.old k ≡ Some end → k ≢ sender → end.log ≡ log
        → end.waiting < END_FRAMES }
    requires fits { length frame.now ≤ longest_frame }
    ensures { PutsFrame log sender frame.now wire_log.old wire_log.new ends.old ends.new }
{
    make_room(ends, wire_log, log, sender);
    wire_log.append(sender, frame);
    // The frame waits at each other end that reads the log.
    for number in 0..ends.len() {
        if number != sender && ends[number].log == log {
            ends[number].waiting += 1;
        }
    }
}

impl Wires {
    /// Returns the wires of a network without hosts.
    pub(crate) fn new(alloc: Global) -> Wires
        ensures { result ≡ [] }
    {
        Wires {
            logs: Vec::new(alloc),
            ends: Vec::new(alloc),
        }
    }

    /// Appends an end of this wire, for the next host. No frame waits at this end.
    ///
    /// # Errors
    ///
    /// Returns an error only if an allocation fails. Then no end has been added.
    pub(crate) fn connect(&mut self, alloc: Global, wire: usize) -> Result<(), AllocError>
        ensures connected { IfOk result (λ done. self.new ≡ self.old ++ record { wire = wire; backlog = [] } ∷ []) }
        ensures err { OnErr result (self.new ≡ self.old) }
    {
        self.ends.reserve(1)?;
        let log = log_for(&mut self.logs, self.ends.as_slice(), alloc, wire)?;
        // The cursor is after the last entry, so no frame of an earlier entry waits at this end.
        let cursor = self.logs[log].len();
        // The call of `reserve` made room for the end.
        let _ = self.ends.push(End {
            wire,
            log,
            cursor,
            waiting: 0,
        });
        Ok(())
    }

    /// Returns whether each end of a sender's wire, except the sender's, has room for one more frame.
    pub(crate) fn have_room(&self, sender: usize) -> bool
        requires there { sender < length self.now }
        ensures { (end : EndState) → slice_get self.now sender ≡ Some end
            → IsTrue result ↔ HaveRoom self.now sender end.wire }
    {
        let wire = self.ends[sender].wire;
        let ends = self.ends.as_slice();
        for (number, end) in ends.iter().enumerate() {
            if number != sender && end.wire == wire && end.waiting >= END_FRAMES {
                return false;
            }
        }
        true
    }

    /// Puts a frame of at most 1,518 bytes onto its sender's wire. The frame then waits at each other end of this wire,
    /// as the end's last frame. Each of these ends must have room. No other end changes.
    pub(crate) fn put(&mut self, sender: usize, frame: &[u8])
        requires there { sender < length self.old }
        requires room { (end : EndState) → slice_get self.old sender ≡ Some end → HaveRoom self.old sender end.wire }
        requires fits { length frame.now ≤ longest_frame }
        ensures { (end : EndState) → slice_get self.old sender ≡ Some end → (k : ℕ) → slice_get self.new k
            ≡ option_map (end_after_put sender end.wire (frame.now ∷ []) k) (slice_get self.old k) }
    {
        let log = self.ends[sender].log;
        put_frame(
            self.ends.as_mut_slice(),
            &mut self.logs[log],
            log,
            sender,
            frame,
        );
    }

    /// Returns the oldest frame that waits at a host's end, or `None` if no frame waits there.
    pub(crate) fn front(&self, host: usize) -> Option<&[u8]>
        requires there { host < length self.now }
        ensures none { (end : EndState) → slice_get self.now host ≡ Some end → IsNone result ↔ (end.backlog ≡ []) }
        ensures oldest { (end : EndState) → slice_get self.now host ≡ Some end
            → IfSome result (λ frame. slice_get end.backlog 0 ≡ Some frame.now) }
        ensures fits { IfSome result (λ frame. length frame.now ≤ longest_frame) }
    {
        let end = &self.ends[host];
        let wire_log = &self.logs[end.log];
        let place = wire_log.next(host, end.cursor)?;
        Some(wire_log.as_slice()[place].1.as_slice())
    }

    /// Removes the oldest frame that waits at a host's end, if there is one.
    pub(crate) fn pop(&mut self, host: usize)
        requires there { host < length self.old }
        ensures { (end : EndState) → slice_get self.old host ≡ Some end
            → self.new ≡ slice_set self.old host (record end { backlog = drop 1 end.backlog }) }
    {
        let end = &self.ends[host];
        let Some(place) = self.logs[end.log].next(host, end.cursor) else {
            return;
        };
        let end = &mut self.ends[host];
        // Entries between the old cursor and `place` are frames that the host itself sent.
        end.cursor = place + 1;
        end.waiting -= 1;
    }

    /// Returns the entries of the log of a host's wire. The frames that wait at the host's end are the last frames of
    /// other senders in the log.
    pub(crate) fn entries(&self, host: usize) -> &[(usize, Frame)]
        requires there { host < length self.now }
        ensures waits { (end : EndState) → slice_get self.now host ≡ Some end
            → end.backlog ≡ last_of_others host (length end.backlog) result.now }
        ensures most { length result.now ≤ log_entries }
    {
        self.logs[self.ends[host].log].as_slice()
    }
}
