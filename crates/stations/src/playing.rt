// How ticks are played on the stations of a network.

ghost use Rattle.std.specs.Prelude.{◌≡◌, ◌<◌, ◌≤◌, length};
ghost use Rattle.adapter.specs.model_types.step.StepKind.TheVariants.{TxPut};
ghost use Rattle.adapter.specs.TickGroups.{behind_group, group_of, without_go};
ghost use Rattle.stations.specs.AtomicRuns.{is_go};
ghost use Rattle.stations.specs.AtomicSteps.{PlaysNoted, watched};
ghost use Rattle.stations.specs.PlayedTicks.{PlaysTicks};
ghost use Rattle.stations.specs.declared.tick.Tick.TheVariants as tick;

use crate::observer::Observer;
use crate::stations::Stations;
use crate::tick::Tick;
use adapter::{Outcome, StepKind};

impl Stations {
    /// Plays a tick: a step, a delivery, or `Go`, which changes no station. `Go`, and a tick of a host that doesn't
    /// exist, have the outcome `Nothing`. The observer is told the tick's outcome, with `accesses`, the number of
    /// accesses that the call made before the tick. The observer must have room for one more outcome.
    #[inline(always)]
    pub fn play<O: Observer>(&mut self, tick: Tick, accesses: u64, observer: &mut O)
        requires room { 0 < O.room_left observer.old }
        ensures { PlaysNoted O.Observer tick accesses (watched self.old observer.old)
            (watched self.new observer.new) }
    {
        match tick {
            Tick::Go => observer.note(tick, accesses, Outcome::Nothing, &[]),
            Tick::Deliver(host) => self.deliver(host, accesses, observer),
            Tick::Step(host, _) if host >= self.len() => {
                observer.note(tick, accesses, Outcome::Nothing, &[]);
            }
            Tick::Step(host, StepKind::TxPut) => self.put(host, accesses, observer),
            Tick::Step(host, kind) => {
                let outcome = self.step(host, kind);
                observer.note(tick, accesses, outcome, &[]);
            }
        }
    }

    /// Plays the step TxPut of a host's adapter. The host must exist. If there is no frame to put, the outcome is
    /// `Nothing`. If there is a frame, but another end of the wire has no room, the outcome is `WireFull`. A frame that
    /// the step puts waits at each other end. The observer must have room for one more outcome.
    #[inline(never)]
    fn put<O: Observer>(&mut self, host: usize, accesses: u64, observer: &mut O)
        requires there { host < length self.old }
        requires room { 0 < O.room_left observer.old }
        ensures { PlaysNoted O.Observer (tick.Step host TxPut) accesses (watched self.old observer.old)
            (watched self.new observer.new) }
    {
        let tick = Tick::Step(host, StepKind::TxPut);
        let wire_free = self.wires.have_room(host);
        let Some(frame) = self.machines[host].to_put() else {
            observer.note(tick, accesses, Outcome::Nothing, &[]);
            return;
        };
        if !wire_free {
            observer.note(tick, accesses, Outcome::WireFull, &[]);
            return;
        }
        // The step comes last, because it removes `frame` from the packet buffer. The buffer has a frame and the wire
        // is free (`true`), so the step's outcome is `Put`.
        observer.note(tick, accesses, Outcome::Put(()), frame);
        self.wires.put(host, frame);
        self.machines[host].step(StepKind::TxPut, true);
    }

    /// Delivers the oldest frame that waits at a host's end of its wire to the host's adapter. The outcome is
    /// `Delivered`, with the frame's fate. If no frame waits, or there is no such host, the outcome is `Nothing`. The
    /// observer must have room for one more outcome.
    #[inline(never)]
    fn deliver<O: Observer>(&mut self, host: usize, accesses: u64, observer: &mut O)
        requires room { 0 < O.room_left observer.old }
        ensures { PlaysNoted O.Observer (tick.Deliver host) accesses (watched self.old observer.old)
            (watched self.new observer.new) }
    {
        let tick = Tick::Deliver(host);
        if host >= self.machines.len() {
            observer.note(tick, accesses, Outcome::Nothing, &[]);
            return;
        }
        let Some(frame) = self.wires.front(host) else {
            observer.note(tick, accesses, Outcome::Nothing, &[]);
            return;
        };
        let fate = self.machines[host].arrive(frame);
        observer.note(tick, accesses, Outcome::Delivered((), fate), frame);
        // `frame` is borrowed from the wire's log, so it is removed from the host's end only now.
        self.wires.pop(host);
    }

    /// Plays the ticks before the first `Go`, and returns the ticks after this `Go`. If there is no `Go`, plays all
    /// ticks, and returns no tick. The observer is told each outcome, with the number `accesses`. The observer must
    /// have room for one outcome for each of `ticks`. After the call, the observer has room for one outcome for each
    /// tick that is returned.
    #[inline(never)]
    pub(crate) fn play_group<'t, O: Observer>(
        &mut self,
        ticks: &'t [Tick],
        accesses: u64,
        observer: &mut O,
    ) -> &'t [Tick]
        requires room { length ticks.now ≤ O.room_left observer.old }
        ensures plays { PlaysTicks O.Observer (group_of is_go ticks.now) accesses (watched self.old observer.old)
            (watched self.new observer.new) }
        ensures rest { result.now ≡ behind_group is_go ticks.now }
        ensures room { length result.now ≤ O.room_left observer.new }
    {
        let mut rest = ticks;
        while let Some((tick, more)) = rest.split_first() {
            rest = more;
            if let Tick::Go = tick {
                break;
            }
            self.play(*tick, accesses, observer);
        }
        rest
    }

    /// Plays all ticks except each `Go`, in order, such as the ticks that remain after a call's last access. The
    /// observer is told each outcome, with the number `accesses`. The observer must have room for one outcome for each
    /// of `ticks`.
    #[inline(never)]
    pub fn play_without_go<O: Observer>(&mut self, ticks: &[Tick], accesses: u64, observer: &mut O)
        requires room { length ticks.now ≤ O.room_left observer.old }
        ensures { PlaysTicks O.Observer (without_go is_go ticks.now) accesses (watched self.old observer.old)
            (watched self.new observer.new) }
    {
        let mut rest = ticks;
        while !rest.is_empty() {
            // Plays the ticks before the next `Go`, and skips this `Go`.
            rest = self.play_group(rest, accesses, observer);
        }
    }
}
