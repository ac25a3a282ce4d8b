// Numbers that stand for options, kinds of steps, outcomes, fates and reasons of faults in calls from C (our choice).

ghost use Rattle.std.specs.Prelude.{◌≡◌};
ghost use Rattle.nic82540em.specs.Events as events;
ghost use Rattle.nic82540em.specs.Numbers as numbers;

use access_names::Reason;
use adapter::{Fate, Outcome, StepKind};
use eeprom::WORDS;
use mdic_phy::Link;

/// The number that `nic82540em_step` and `nic82540em_arrive` return if they are refused. `nic82540em_play` returns
/// this number if it is refused and can't return the number of a faulty line.
pub const REFUSED: u32 = 0xFFFF_FFFF;

/// The greatest number of ticks of the PHY until the link is up (our choice).
const MOST_TICKS: u32 = 65_535;

/// The options of a new adapter.
#[repr(C)]
#[derive(Clone, Copy)]
pub struct AdapterOptions {
    /// The size of memory in bytes.
    pub memory: u64,
    /// The number of ticks of the PHY from the start of negotiation until the link is up, at most 65,535. If the number
    /// is 0, the link is never up.
    pub link: u32,
    /// PBA.RXA, the receive part of the packet buffer in kilobytes: an even number from 2 to 48.
    pub receive_kilobytes: u32,
    /// The Ethernet address in the EEPROM, if there is no image.
    pub address: [u8; 6],
    /// Whether there is an image.
    pub has_image: bool,
    /// MPC, the number of missed packets, at the start.
    pub missed: u32,
    /// The words of the EEPROM, if there is an image.
    pub image: [u16; WORDS],
}

/// Returns the setting of a link that is up after this number of ticks of the PHY. For 0, the link is never up. Returns
/// `None` if the number is above 65,535.
pub(crate) fn link_with(number: u32) -> Option<Link>
    ensures { result ≡ numbers.link_with number }
{
    if number == 0 {
        return Some(Link::Never);
    }
    if number > MOST_TICKS {
        return None;
    }
    Some(Link::After(number as u16))
}

/// Returns whether PBA.RXA may have this value: an even number of kilobytes from 2 to 48.
pub(crate) fn is_receive_share(kilobytes: u32) -> bool
    ensures { result ≡ numbers.is_receive_share kilobytes }
{
    kilobytes % 2 == 0 && 2 <= kilobytes && kilobytes <= 48
}

/// Returns the kind of steps with this number, or `None` if the number is above 5.
pub(crate) fn kind_with(number: u32) -> Option<StepKind>
    ensures { result ≡ numbers.kind_with number }
{
    Some(match number {
        0 => StepKind::TxTake,
        1 => StepKind::TxPut,
        2 => StepKind::RxData,
        3 => StepKind::RxDone,
        4 => StepKind::EepromTick,
        5 => StepKind::PhyTick,
        _ => return None,
    })
}

/// Returns the number of a kind of steps, by which [`kind_with`] finds the kind.
pub(crate) fn kind_number(kind: StepKind) -> u32
    ensures { result ≡ events.kind_number kind }
{
    match kind {
        StepKind::TxTake => 0,
        StepKind::TxPut => 1,
        StepKind::RxData => 2,
        StepKind::RxDone => 3,
        StepKind::EepromTick => 4,
        StepKind::PhyTick => 5,
    }
}

/// Returns the number of the reason of a fault. The number 0 means that there is no fault.
pub(crate) fn reason_number(reason: Reason) -> u32
    ensures { result ≡ events.reason_number reason }
{
    match reason {
        Reason::Ring => 1,
        Reason::Descriptor => 2,
        Reason::Dext => 3,
        Reason::Eop => 4,
        Reason::Length => 5,
        Reason::Buffer => 6,
        Reason::Bsex => 7,
    }
}

/// Returns the number of an outcome.
pub(crate) fn outcome_number(outcome: Outcome<()>) -> u32
    ensures { result ≡ numbers.outcome_number outcome }
{
    match outcome {
        Outcome::Nothing => 0,
        Outcome::Took => 1,
        Outcome::Put(_) => 2,
        Outcome::WireFull => 3,
        Outcome::Part => 4,
        Outcome::Moved => 5,
        Outcome::Done => 6,
        Outcome::Ticked => 7,
        Outcome::Fault => 8,
        // No step has this outcome, so C never gets 9.
        Outcome::Delivered(_, _) => 9,
    }
}

/// Returns the number of a fate.
pub(crate) fn fate_number(fate: Fate) -> u32
    ensures { result ≡ numbers.fate_number fate }
{
    match fate {
        Fate::Off => 0,
        Fate::Illegal => 1,
        Fate::Filtered => 2,
        Fate::Missed => 3,
        Fate::Stored => 4,
    }
}
