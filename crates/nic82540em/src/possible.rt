// The steps that have something to do.

ghost use Rattle.std.specs.Prelude.{◌≡◌, ◌≤◌};
ghost use Rattle.nic82540em.specs.Calls.{TellsPossible, AnswersWork};

use crate::watched::WatchedAdapter;
use adapter::StepKind;

/// Returns `value` if a step of this kind has something to do, else 0.
fn bit_of(watched: &WatchedAdapter, kind: StepKind, value: u32) -> u32
    ensures bit { AnswersWork kind value result watched.now }

    // By this bound, the sum in `possible` doesn't overflow.
    ensures fits { result ≤ value }
{
    if watched.player.machine.has_work(kind) {
        value
    } else {
        0
    }
}

/// Returns the kinds of steps that have something to do. Bit `n` is set if and only if a step of the kind with number
/// `n` would have another outcome than `Nothing`.
pub(crate) fn possible(watched: &WatchedAdapter) -> u32
    ensures { TellsPossible result watched.now }
{
    let take = bit_of(watched, StepKind::TxTake, 1);
    let put = bit_of(watched, StepKind::TxPut, 2);
    let data = bit_of(watched, StepKind::RxData, 4);
    let done = bit_of(watched, StepKind::RxDone, 8);
    let eeprom = bit_of(watched, StepKind::EepromTick, 16);
    let phy = bit_of(watched, StepKind::PhyTick, 32);
    take + put + data + done + eeprom + phy
}
