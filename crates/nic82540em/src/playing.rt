// Calls of C for what the adapter and the wire do, for steps before accesses, cycles after them, chosen numbers,
// events, and schedules.

ghost use Rattle.std.specs.Prelude.{⊤, ◌≡◌, ◌<◌, false};
ghost use Rattle.nic82540em.specs.Calls.{AnswersArrival, AnswersEvent, AnswersInterleave, AnswersOffer, AnswersPace};
ghost use Rattle.nic82540em.specs.Calls.{ScheduleAnswered, AnswersStep, TakingAnswered, Chooses, SettlesOffered};
ghost use Rattle.nic82540em.specs.Calls.{with_events, with_ticks, with_wire};
ghost use Rattle.nic82540em.specs.Handles.{IsSound, OnAdapter};
ghost use Rattle.nic82540em.specs.Schedules.{AnswersPlay, RoundAnswered};

use crate::calls::follow;
use crate::events::KeptEvent;
use crate::handle::{Nic, on_adapter};
use crate::numbers::{REFUSED, fate_number, kind_with, outcome_number};
use crate::schedules::{begin_round, meet_choice, play};
use std::alloc::Global;

/// The greatest number that the maximum of random steps before an access, or of cycles after it, can be set to (our
/// choice).
const MOST_DRAWN: u32 = 65_535;

/// Makes the adapter take a step of the kind with this number. Returns the number of the outcome, or `0xFFFFFFFF` if no
/// kind has this number or the handle holds no adapter.
#[unsafe(no_mangle)]
pub extern "C" fn nic82540em_step(nic: &mut Nic, number: u32) -> u32
    requires sound { IsSound nic.old }
    ensures done { OnAdapter (AnswersStep number result) (result ≡ REFUSED) nic.old nic.new }
{
    on_adapter!(nic, REFUSED, |adapter| match kind_with(number) {
        Some(kind) => outcome_number(adapter.player.step(kind, &mut adapter.events)),
        None => REFUSED,
    })
}

/// Delivers all offered frames, and then plays cycles, each with one step of each kind, until a cycle does nothing. The
/// maximum number of cycles is `played_adapter::MOST_CYCLES`. Returns the number of steps that did something, or 0 if
/// the handle holds no adapter.
#[unsafe(no_mangle)]
pub extern "C" fn nic82540em_settle(nic: &mut Nic) -> u64
    requires sound { IsSound nic.old }
    ensures done { OnAdapter (SettlesOffered result) (result ≡ 0) nic.old nic.new }
{
    on_adapter!(
        nic,
        0,
        |adapter| adapter.player.serve_settle(&mut adapter.events)
    )
}

/// Delivers a frame to the adapter, and then plays cycles until one does nothing, up to the maximum of
/// [`nic82540em_pace`]. Returns the number of the frame's fate, or `0xFFFFFFFF` if the handle holds no adapter.
#[unsafe(no_mangle)]
pub extern "C" fn nic82540em_arrive(nic: &mut Nic, frame: &[u8]) -> u32
    requires sound { IsSound nic.old }
    ensures done { OnAdapter (AnswersArrival frame.now result) (result ≡ REFUSED) nic.old nic.new }
{
    on_adapter!(nic, REFUSED, |adapter| {
        let most = adapter.player.pace;
        let fate = adapter.player.arrive(frame, &mut adapter.events);
        follow(adapter, true, most);
        fate_number(fate)
    })
}

/// Moves the oldest frame from the wire to the beginning of `into`, if the frame fits. Returns the frame's length in
/// bytes, also if the frame doesn't fit. Returns 0 if no frame waits, or if the handle holds no adapter.
#[unsafe(no_mangle)]
pub extern "C" fn nic82540em_take_put(nic: &mut Nic, into: &mut [u8]) -> usize
    requires sound { IsSound nic.old }
    ensures done { OnAdapter (TakingAnswered into.old into.new result)
        ((result ≡ 0) × (into.new ≡ into.old)) nic.old nic.new }
{
    on_adapter!(nic, 0, |adapter| adapter.player.take_put(into))
}

/// From now on, up to `count` steps and arrivals of offered frames are played before each access. A generator with this
/// seed draws them. While a schedule of [`nic82540em_play`](crate::nic82540em_play) is played, nothing is drawn, and
/// only the generator is set. Returns `true`.
///
/// Returns `false`, and changes nothing, if `count` is above 65,535, or if the handle holds no adapter.
#[unsafe(no_mangle)]
pub extern "C" fn nic82540em_interleave(nic: &mut Nic, count: u32, seed: u64) -> bool
    requires sound { IsSound nic.old }
    ensures done { OnAdapter (AnswersInterleave count seed result) (result ≡ false) nic.old nic.new }
{
    on_adapter!(nic, false, |adapter| {
        let is_allowed = count <= MOST_DRAWN;
        if is_allowed {
            let plays = adapter.agenda.is_some();
            adapter
                .player
                .interleave(if plays { 0 } else { count as u16 }, seed);
        }
        is_allowed
    })
}

/// From now on, cycles are played after each access and each call of [`nic82540em_arrive`] until one does nothing, up
/// to `count`. Returns `true`.
///
/// Returns `false`, and changes nothing, if `count` is above 65,535, or if the handle holds no adapter.
#[unsafe(no_mangle)]
pub extern "C" fn nic82540em_pace(nic: &mut Nic, count: u32) -> bool
    requires sound { IsSound nic.old }
    ensures done { OnAdapter (AnswersPace count result) (result ≡ false) nic.old nic.new }
{
    on_adapter!(nic, false, |adapter| {
        let is_allowed = count <= MOST_DRAWN;
        if is_allowed {
            adapter.player.pace = count as u16;
        }
        is_allowed
    })
}

/// Returns a number below `limit`, or 0 if `limit` is 0 or the handle holds no adapter.
///
/// If steps are drawn before accesses, the generator draws the number. Otherwise it is the number that the first due
/// action in the schedule of [`nic82540em_play`](crate::nic82540em_play) chooses. If this number isn't below `limit`,
/// or no action is due, the number is 0. The schedule counts the call as a request `choose`.
#[unsafe(no_mangle)]
pub extern "C" fn nic82540em_choose(nic: &mut Nic, limit: u32) -> u32
    requires sound { IsSound nic.old }
    ensures done { OnAdapter (Chooses limit result) (result ≡ 0) nic.old nic.new }
    ensures below { 0 < limit → result < limit }
{
    on_adapter!(nic, 0, |adapter| {
        let wanted = meet_choice(&mut adapter.agenda);
        adapter
            .player
            .serve_choose(limit, wanted, &mut adapter.events)
    })
}

/// Adds a step of the kind with this number to the end of the list of scheduled steps.
///
/// The step is played before the next access with a number of at least `access`, after all steps added before. Returns
/// `true`.
///
/// Returns `false`, and changes nothing, if no kind has this number, if 4,096 steps wait, or if the handle holds no
/// adapter.
#[unsafe(no_mangle)]
pub extern "C" fn nic82540em_schedule(nic: &mut Nic, access: u64, number: u32) -> bool
    requires sound { IsSound nic.old }
    ensures done { OnAdapter (ScheduleAnswered access number result) (result ≡ false) nic.old nic.new }
{
    on_adapter!(nic, false, |adapter| match kind_with(number) {
        Some(kind) => adapter.player.schedule(access, kind),
        None => false,
    })
}

/// Sets whether a step of the EEPROM and one of the PHY are played before each later access. Does nothing if the handle
/// holds no adapter.
#[unsafe(no_mangle)]
pub extern "C" fn nic82540em_ticks(nic: &mut Nic, on: bool)
    requires sound { IsSound nic.old }
    ensures done { OnAdapter (λ a b. b ≡ with_ticks on a) ⊤ nic.old nic.new }
{
    on_adapter!(nic, (), |adapter| adapter.player.ticks = on)
}

/// Sets whether later events are kept. The events that wait aren't removed. Does nothing if the handle holds no
/// adapter.
#[unsafe(no_mangle)]
pub extern "C" fn nic82540em_events(nic: &mut Nic, on: bool)
    requires sound { IsSound nic.old }
    ensures done { OnAdapter (λ a b. b ≡ with_events on a) ⊤ nic.old nic.new }
{
    on_adapter!(nic, (), |adapter| adapter.events.on = on)
}

/// Removes the oldest event, stores it in `into`, and returns `true`.
///
/// Returns `false`, and changes nothing, if no event waits, or if the handle holds no adapter.
#[unsafe(no_mangle)]
pub extern "C" fn nic82540em_take_event(nic: &mut Nic, into: &mut KeptEvent) -> bool
    requires sound { IsSound nic.old }
    ensures done { OnAdapter (AnswersEvent into.old into.new result)
        ((result ≡ false) × (into.new ≡ into.old)) nic.old nic.new }
{
    on_adapter!(nic, false, |adapter| match adapter.events.take() {
        Some(event) => {
            *into = event;
            true
        }
        None => false,
    })
}

/// Adds a copy of a frame to the end of the list of offered frames, and returns `true`.
///
/// The generator or a schedule may choose the frame's arrival before a later access, and a schedule also before a
/// request. Otherwise the frame arrives in the next [`nic82540em_settle`]. Returns `false`, and changes nothing, if
/// memory is refused, or if the handle holds no adapter.
#[unsafe(no_mangle)]
pub extern "C" fn nic82540em_offer(alloc: Global, nic: &mut Nic, frame: &[u8]) -> bool
    requires sound { IsSound nic.old }
    ensures done { OnAdapter (AnswersOffer frame.now result) (result ≡ false) nic.old nic.new }
{
    on_adapter!(
        nic,
        false,
        |adapter| adapter.player.offered.push(alloc, frame).is_ok()
    )
}

/// Sets whether the caller fills the wire. While `full` is set, no frame is put on the wire, even if fewer than 64
/// frames wait there. Otherwise frames are put on the wire until 64 wait. Does nothing if the handle holds no adapter.
#[unsafe(no_mangle)]
pub extern "C" fn nic82540em_fill_wire(nic: &mut Nic, full: bool)
    requires sound { IsSound nic.old }
    ensures done { OnAdapter (λ a b. b ≡ with_wire full a) ⊤ nic.old nic.new }
{
    on_adapter!(nic, (), |adapter| adapter.player.wire_free = !full)
}

/// From now on, plays the schedule in a text instead of an earlier schedule, and draws no steps before accesses.
///
/// Returns 0 if this schedule is played. If a line is faulty, returns the number of the first faulty line and changes
/// nothing. Returns `0xFFFFFFFF` and changes nothing if the text isn't UTF-8, memory is refused, the line's number is
/// above `0xFFFFFFFE`, or the handle holds no adapter.
#[unsafe(no_mangle)]
pub extern "C" fn nic82540em_play(alloc: Global, nic: &mut Nic, text: &[u8]) -> u32
    requires sound { IsSound nic.old }
    ensures done { OnAdapter (AnswersPlay text.now result) (result ≡ REFUSED) nic.old nic.new }
{
    on_adapter!(nic, REFUSED, |adapter| play(alloc, adapter, text))
}

/// Begins the schedule's next round with the request that has this number: 0 `arrive`, 1 `offer`, 2 `step`,
/// 3 `settle`.
///
/// Plays the actions of the schedule, if there is one, that are due before the request, and returns `true`. If no
/// request has this number, or the handle holds no adapter, returns `false` and changes nothing.
#[unsafe(no_mangle)]
pub extern "C" fn nic82540em_begin_round(nic: &mut Nic, number: u32) -> bool
    requires sound { IsSound nic.old }
    ensures done { OnAdapter (RoundAnswered number result) (result ≡ false) nic.old nic.new }
{
    on_adapter!(nic, false, begin_round, number)
}
