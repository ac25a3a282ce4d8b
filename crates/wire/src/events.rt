// Plays one event of a network: a call, a reset, or a tick outside a call.

ghost use Rattle.std.specs.Prelude.{◌≡◌, ◌≤◌, ◌<◌, ℕ, IfErr, List, OnOk, length, take};
ghost use Rattle.adapter.specs.TickGroups.{without_go};
ghost use Rattle.wire.specs.Equations.{NetworkStands};
ghost use Rattle.network_plan.specs.Answers.{answer_with, event_answer};
ghost use Rattle.network_plan.specs.EventCalls.{Alone, ByCall, ByReset, in_event};
ghost use Rattle.packet_socket.specs.CallEffects.{IsLegalAnswer, answer_in};
ghost use Rattle.wire.specs.PlayedCalls.{AbsentTold, CallPlayed, ResetPlayed, TickPlayed, call_in, kind_in};
ghost use Rattle.wire.specs.RunObservers.{EventTold, played_ticks};
ghost use Rattle.stations.specs.AtomicRuns.{is_go};
ghost use Rattle.stations.specs.AtomicSteps.{watched};

use crate::run_observer::RunObserver;
use adapter::Outcome;
use host_calls::Network;
use network_plan::{Answer, Event};
use packet_socket::{HostAnswer, HostCall};
use stations::Tick;
use std::alloc::{AllocError, Global};

/// A call of a host, and the ticks that are played during the call, on all stations.
#[derive(Clone, Copy, Drop)]
pub(crate) struct Call<'a> {
    pub(crate) host: usize,
    pub(crate) call: HostCall<'a>,
    pub(crate) ticks: &'a [Tick],
}

/// A reset of a host's adapter, and the ticks that are played during the reset, on all stations.
#[derive(Clone, Copy, Drop)]
pub(crate) struct Reset<'a> {
    pub(crate) host: usize,
    pub(crate) ticks: &'a [Tick],
}

/// An event as one of three kinds: a call with its ticks, a reset with its ticks, or a tick outside a call.
#[derive(Clone, Copy, Drop)]
pub(crate) enum EventForm<'a> {
    Call(Call<'a>),
    Reset(Reset<'a>),
    Tick(Tick),
}

impl<'a> EventForm<'a> {
    /// Returns the call, the reset or the tick of an event.
    #[inline(always)]
    pub(crate) fn of(event: Event<'a>) -> EventForm<'a>
        ensures { kind_in result ≡ in_event event.entry }
    {
        match event {
            Event::Send { host, frame, ticks } => EventForm::Call(Call {
                host,
                call: HostCall::Send(frame),
                ticks,
            }),
            Event::Recv {
                host,
                socket,
                ticks,
            } => EventForm::Call(Call {
                host,
                call: HostCall::Recv(socket),
                ticks,
            }),
            Event::Interrupt { host, ticks } => EventForm::Call(Call {
                host,
                call: HostCall::Interrupt,
                ticks,
            }),
            Event::Join { host, group, ticks } => EventForm::Call(Call {
                host,
                call: HostCall::Join(group),
                ticks,
            }),
            Event::Leave { host, group, ticks } => EventForm::Call(Call {
                host,
                call: HostCall::Leave(group),
                ticks,
            }),
            Event::Reset { host, ticks } => EventForm::Reset(Reset { host, ticks }),
            Event::Tick(tick) => EventForm::Tick(tick),
        }
    }
}

/// Returns the answer of an event, without a frame, from the answer of its call. Also returns the size in bytes of the
/// frame that a socket returned, at most 1,518; 0 if no socket returned a frame. A size in `answer` must be from 60 to
/// 1,518 bytes.
///
/// - `ends`: if a socket copied a frame to the front of `bytes`, the returned answer, with this frame, is the event's
///   answer.
fn ending_of(answer: HostAnswer<usize>) -> (Answer<()>, usize)
    requires legal { IsLegalAnswer answer }
    ensures short { result.1 ≤ 1518 }
    ensures ends { (bytes : List ℕ) → answer_with (take result.1 bytes) result.0
        ≡ event_answer (answer_in bytes answer) }
{
    match answer {
        HostAnswer::Sent(sent) => (Answer::Sent(sent), 0),
        HostAnswer::Received(Ok(size)) => (Answer::Received(Ok(())), size),
        HostAnswer::Received(Err(error)) => (Answer::Received(Err(error)), 0),
        HostAnswer::Interrupted(handled) => (Answer::Interrupted(handled), 0),
        HostAnswer::Joined(joined) => (Answer::Joined(joined), 0),
        HostAnswer::Left(left) => (Answer::Left(left), 0),
    }
}

/// Plays the ticks of a call or a reset, except each `Go`, for a host that doesn't exist. Reports the answer `NoHost`
/// with 0 accesses and no frame. `ticks` must be the event's ticks. The observer must have room for the answer, and for
/// the outcome of each tick, including each `Go`.
#[inline(never)]
fn no_host<O: RunObserver>(
    network: &mut Network,
    event: &Event<'_>,
    ticks: &[Tick],
    observer: &mut O,
)
    requires ready { O.ready observer.old event.now }
    requires room { length ticks.now ≤ O.room_left observer.old }
    requires ticks { without_go is_go ticks.now ≡ played_ticks event.now }
    ensures told { AbsentTold O.Observer O.ran event.now ticks.now
        (watched network.old.stations observer.old) (watched network.new.stations observer.new) }
    ensures hosts { network.new.hosts ≡ network.old.hosts }
{
    network.play_without_go(ticks, 0, observer);
    observer.answer(event, 0, Answer::NoHost, &[]);
}

/// Makes the call of an event, while the call's ticks are played, and reports the answer to the observer. If there is
/// no such host, only the ticks are played, and the answer is `NoHost`. A frame that a socket returns is copied to the
/// front of `given`, and lent to the observer.
///
/// `call` must be the call of `event` (`is`). The observer must have room for the answer, and for the outcome of each
/// tick, including each `Go`. The clause without a name: the observer was told the contents of a reply to the event.
/// `CallPlayed` states how the call changed the network, and what this reply states.
#[inline(always)]
pub(crate) fn make_call<O: RunObserver>(
    network: &mut Network,
    event: &Event<'_>,
    call: &Call,
    given: &mut [u8; 1518],
    observer: &mut O,
)
    requires stands { NetworkStands network.old }
    requires ready { O.ready observer.old event.now }
    requires room { length call.now.ticks.now ≤ O.room_left observer.old }
    requires is { in_event event.now ≡ ByCall (call_in call.now) }
    ensures { EventTold O.ran event.now observer.old observer.new
        (λ reply. CallPlayed (call_in call.now) reply network.old network.new) }
{
    if call.host >= network.len() {
        no_host(network, event, call.ticks, observer);
        return;
    }
    let called = network.call(call.host, call.call, call.ticks, observer, given);
    let (answer, size) = ending_of(called.answer);
    observer.answer(event, called.accesses, answer, &given[..size]);
}

/// Resets the adapter of an event's host, while the event's ticks are played. Reports the answer, which contains the
/// frames that the reset dropped. If there is no such host, only the ticks are played, and the answer is `NoHost`.
///
/// `reset` must be the reset of `event` (`is`). The observer must have room as for [`make_call`].
///
/// # Errors
///
/// Returns an error only if the host exists and memory for the dropped frames can't be allocated. After this error,
/// the network and the observer haven't changed.
#[inline(never)]
pub(crate) fn make_reset<O: RunObserver>(
    network: &mut Network,
    alloc: Global,
    event: &Event<'_>,
    reset: &Reset,
    observer: &mut O,
) -> Result<(), AllocError>
    requires stands { NetworkStands network.old }
    requires ready { O.ready observer.old event.now }
    requires room { length reset.now.ticks.now ≤ O.room_left observer.old }
    requires is { in_event event.now ≡ ByReset reset.now.host reset.now.ticks.now }
    ensures ok { OnOk result (EventTold O.ran event.now observer.old observer.new
        (λ reply. ResetPlayed reset.now.host reset.now.ticks.now reply network.old network.new)) }
    ensures refused { IfErr result (λ error. (reset.now.host < length network.old.hosts)
        × (network.new ≡ network.old) × (observer.new ≡ observer.old)) }
{
    if reset.host >= network.len() {
        no_host(network, event, reset.ticks, observer);
        return Ok(());
    }
    let found = network.before_reset(alloc, reset.host)?;
    let done = network.reset(reset.host, reset.ticks, observer, found);
    let answer = Answer::Reset {
        sending: done.given_up.sending,
        holding: done.given_up.holding,
        on_after: done.on_after,
    };
    observer.answer(event, done.accesses, answer, &[]);
    Ok(())
}

/// Plays a tick outside a call, and reports the answer `Ticked`, with 0 accesses. `Go` changes no station, and its
/// outcome is `Nothing`. `tick` must be the tick of `event` (`is`). The observer must have room for the outcome and the
/// answer.
#[inline(always)]
pub(crate) fn tick<O: RunObserver>(
    network: &mut Network,
    event: &Event<'_>,
    tick: Tick,
    observer: &mut O,
)
    requires ready { O.ready observer.old event.now }
    requires room { 1 ≤ O.room_left observer.old }
    requires is { in_event event.now ≡ Alone tick }
    ensures told { EventTold O.ran event.now observer.old observer.new
        (λ reply. TickPlayed tick reply network.old.stations network.new.stations) }
    ensures hosts { network.new.hosts ≡ network.old.hosts }
{
    // `Network::play` does the same for `Go`, so the first arm serves only the proof. The contract of `Network::play`
    // states an atomic step also for `Go` (`Idles Go`), but `TickPlayed` states no atomic step for `Go`.
    match tick {
        Tick::Go => observer.note(tick, 0, Outcome::Nothing, &[]),
        _ => network.play(tick, 0, observer),
    }
    observer.answer(event, 0, Answer::Ticked, &[]);
}
