// Resets of the hosts of a network, during which ticks are played.

ghost use Rattle.std.specs.Prelude.{◌≡◌, ◌≤◌, ◌<◌, ◌+◌, IfOk, drop, length, min};
ghost use Rattle.adapter.specs.State.{IsAdapter};
ghost use Rattle.stations.specs.Stations.{world_at};
ghost use Rattle.packet_socket.specs.HostCalls.{HostReady};
ghost use Rattle.host_calls.specs.ConnectedHosts.{played_call};
ghost use Rattle.host_calls.specs.NotingObservers.{KeepsReferences, TellsAndNotes};
ghost use Rattle.host_calls.specs.Networks.{OnlyHostChanges, connected_at, nth_host};
ghost use Rattle.host_calls.specs.BeforeReset.{IsBeforeReset};
ghost use Rattle.host_calls.specs.Notes.{NotesTicks};
ghost use Rattle.host_calls.specs.ResetsInSteps.{MakesReset, RunsReset};

use crate::network::Network;
use crate::noting::{Noted, NotingObserver};
use descriptors::Frame;
use rx_engine::MOST_FRAMES;
use stations::{LentBus, Observer, Tick};
use std::alloc::{AllocError, Global};

/// The number of accesses of a reset up to and including the write of RCTL that enables the receiver. The stores of
/// receive descriptors, one for each slot, aren't counted. The 302 accesses are 128 writes of MTA, 128 of VFTA, 32 of
/// receive addresses, 5 of ring registers, and one each of RCTL, MPC, CTRL, IMC, ICR, PBA, CTRL, RDT and RCTL.
const OTHER_ACCESSES: u64 = 302;

/// The frames that are lost in a reset of a host.
#[derive(Debug, Drop)]
pub struct GivenUp {
    /// The frames that were to be sent, the oldest first.
    pub sending: Vec<Frame>,
    /// The received frames that were held, the oldest first.
    pub holding: Vec<Frame>,
}

/// The result of a reset.
#[derive(Debug, Drop)]
pub struct WasReset {
    /// The frames that were lost in the reset.
    pub given_up: GivenUp,
    /// The number of accesses up to and including the write of RCTL that enabled the receiver.
    pub on_after: u64,
    /// The number of all accesses of the reset; it saturates at the greatest `u64`.
    pub accesses: u64,
}

/// Removes `count` frames from the front of a list, or all frames if the list has fewer.
fn drop_first(frames: &mut Vec<Frame>, count: u64)
    ensures { frames.new.items ≡ drop (min (length frames.old.items) count) frames.old.items }
{
    // `usize` has the size of `u64`, so the cast doesn't change `count`.
    let first = frames.len().min(count as usize);
    frames.drain(..first);
}

impl Network {
    /// Returns the frames that are lost if a reset of host `number` writes CTRL.RST in this state. The list of held
    /// frames also has room for the frames that may be stored before the receiver is disabled. The host must exist and
    /// be ready, and its adapter must meet its invariant.
    ///
    /// # Errors
    ///
    /// Returns an error only if an allocation fails.
    pub fn before_reset(&self, alloc: Global, number: usize) -> Result<GivenUp, AllocError>
        requires there { number < length self.now.hosts }
        requires ready { HostReady (nth_host self.now number) (world_at self.now.stations number) }
        requires adapter { IsAdapter (world_at self.now.stations number).adapter }
        ensures found { IfOk result
            (IsBeforeReset (nth_host self.now number) (world_at self.now.stations number)) }
    {
        let host = &self.hosts[number];
        let layout = host.layout();
        // At most one frame is held for each slot of the receive ring, and `MOST_FRAMES` in the receive packet buffer.
        // At most one frame is to be sent for each slot of the transmit ring.
        let most = usize::from(layout.rx()) + usize::from(MOST_FRAMES);
        let mut sending = Vec::new(alloc);
        sending.reserve(usize::from(layout.tx()))?;
        let mut holding = Vec::new(alloc);
        holding.reserve(most)?;
        self.stations
            .pending(number, host.oldest(), &mut sending, &mut holding);
        Ok(GivenUp { sending, holding })
    }

    /// Resets the adapter of host `number`, while ticks are played on all stations. Returns the frames that were lost,
    /// the number of accesses until the receiver was enabled (`on_after`), and the number of all accesses. `found` must
    /// be the result of [`before_reset`](Network::before_reset) in this state. The observer must have room for the
    /// outcome of each tick, including each `Go`.
    ///
    /// The call allocates no memory. No driver or socket of another host changes; ticks may change all stations.
    pub fn reset<O: Observer>(
        &mut self,
        number: usize,
        ticks: &[Tick],
        observer: &mut O,
        found: GivenUp,
    ) -> WasReset
        requires there { number < length self.old.hosts }
        requires ready { HostReady (nth_host self.old number) (world_at self.old.stations number) }
        requires adapter { IsAdapter (world_at self.old.stations number).adapter }
        requires ticks { length ticks.now ≤ O.room_left observer.old }
        requires found { IsBeforeReset (nth_host self.old number) (world_at self.old.stations number) found }
        ensures resets { MakesReset
            (played_call number ticks.now (O.heard observer.old observer.new) result.accesses)
            result.given_up.sending.items result.given_up.holding.items result.on_after
            (connected_at self.old number) (connected_at self.new number) }
        ensures on_after { result.on_after ≡ 302 + (nth_host self.old number).driver.layout.rx }
        ensures others { OnlyHostChanges number self.old self.new }
    {
        let GivenUp {
            mut sending,
            holding,
        } = found;
        let rx = self.hosts[number].layout().rx();
        // `before_reset` made room for this number of held frames.
        let most = usize::from(rx) + usize::from(MOST_FRAMES);
        let mut noted = Noted::new(number, most, holding);
        let accesses = self.reset_noting(number, ticks, observer, &mut noted);
        // `holding` now also contains the frames that were stored before the receiver was disabled.
        let (put, holding) = noted.into_parts();
        // The frames that were put before CTRL.RST was written aren't lost. They were the oldest to be sent.
        drop_first(&mut sending, put);
        WasReset {
            given_up: GivenUp { sending, holding },
            on_after: OTHER_ACCESSES + u64::from(rx),
            accesses,
        }
    }

    /// Resets the adapter of host `number`, while ticks are played on all stations. Each outcome of a tick is told to
    /// `observer` and noted in `noted`. Returns the number of accesses.
    fn reset_noting<O: Observer>(
        &mut self,
        number: usize,
        ticks: &[Tick],
        observer: &mut O,
        noted: &mut Noted,
    ) -> u64
        requires there { number < length self.old.hosts }
        requires ready { HostReady (nth_host self.old number) (world_at self.old.stations number) }
        requires ticks { length ticks.now ≤ O.room_left observer.old }
        ensures runs { RunsReset (played_call number ticks.now
            (λ told. O.heard observer.old observer.new told × NotesTicks noted.old noted.new told) result)
            (connected_at self.old number) (connected_at self.new number) }
        ensures others { OnlyHostChanges number self.old self.new }
    {
        let mut noting = NotingObserver { observer, noted };
        self.reset_over(number, ticks, &mut noting)
    }

    /// Resets the adapter of host `number`, while ticks are played on all stations. Each outcome of a tick is told to
    /// `noting`. Returns the number of accesses. After the call, `noting` still refers to the same observer and the
    /// same notes (`keeps`).
    fn reset_over<O: Observer>(
        &mut self,
        number: usize,
        ticks: &[Tick],
        noting: &mut NotingObserver<'_, O>,
    ) -> u64
        requires there { number < length self.old.hosts }
        requires ready { HostReady (nth_host self.old number) (world_at self.old.stations number) }
        requires ticks { length ticks.now ≤ O.room_left noting.old.observer.now }
        ensures keeps { KeepsReferences noting.old noting.new }
        // `HostReady` repeats the precondition `ready`.
        ensures runs { HostReady (nth_host self.old number) (world_at self.old.stations number)
            → RunsReset (played_call number ticks.now (TellsAndNotes O.heard noting.old noting.new) result)
            (connected_at self.old number) (connected_at self.new number) }
        ensures others { OnlyHostChanges number self.old self.new }
    {
        let mut bus = LentBus {
            stations: &mut self.stations,
            ticks,
            host: number,
            accesses: 0,
            observer: noting,
        };
        self.hosts[number].reset(&mut bus);
        // Plays the ticks that remain after the last access.
        bus.finish();
        bus.accesses
    }
}
