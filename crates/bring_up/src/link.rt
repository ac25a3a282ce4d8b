//! The PHY and its link ("13.4.7 MDI Control Register"; IEEE 802.3, clause 22).

ghost use Rattle.std.specs.Prelude.{◌≡◌, ◌⊎◌, ◌↔◌, IfErr, IsOkUnless, IsTrue};
ghost use Rattle.registers.specs.Bits.{Meet};
ghost use Rattle.registers.specs.Places.{alone};
ghost use Rattle.mdic_phy.specs.PhyPlaces.{status_complete, status_link};
ghost use Rattle.adapter.specs.Keeping.{Keeps};
ghost use Rattle.bring_up.specs.Link.{AwaitsLink, Commands, IsCommand, Negotiates};

use crate::MOST_READS;
use crate::init_error::InitError;
use adapter::Bus;
use adapter::offsets::MDIC;

/// The PHY's address, 1, in PHYADD, bits 25:21 of MDIC.
const PHY_ADDRESS: u32 = 1 << 21;

/// The PHY's register 1, its status, in REGADD, bits 20:16 of MDIC.
const STATUS_REGISTER: u32 = 1 << 16;

/// OP 01, a write, in bits 27:26 of MDIC.
const OP_WRITE: u32 = 0b01 << 26;

/// OP 10, a read, in bits 27:26 of MDIC.
const OP_READ: u32 = 0b10 << 26;

/// R, bit 28 of MDIC: the command has ended.
const READY: u32 = 1 << 28;

/// E, bit 30 of MDIC: the command has failed.
const ERROR: u32 = 1 << 30;

/// Autonegotiation is enabled: bit 12 of the PHY's register 0 (22.2.4.1).
const ENABLE: u32 = 1 << 12;

/// Autonegotiation restarts: bit 9 of the PHY's register 0.
const RESTART: u32 = 1 << 9;

/// Autonegotiation is complete: bit 5 of the PHY's register 1 (22.2.4.2).
const NEGOTIATED: u32 = 1 << 5;

/// The link is up: bit 2 of the PHY's register 1.
const LINK: u32 = 1 << 2;

/// Enables and restarts the PHY's autonegotiation, by one command to the PHY. Waits for the end of this command, but
/// not for the link ([`await_link`]). Over a lively bus that obeys the law, no error occurs.
///
/// # Errors
///
/// E13 [`PhyTimeout`](InitError::PhyTimeout) if 1,000 reads of MDIC didn't show R, or one showed R and E.
pub fn negotiate<B: Bus>(bus: &mut B) -> Result<(), InitError>
    ensures keeps { Keeps B.Bus bus.old bus.new }
    ensures error { IsOkUnless result InitError.PhyTimeout }
    ensures negotiates { B.honest bus.old → Negotiates B.Bus result bus.old bus.new }
{
    // REGADD is 0: the PHY's register 0, its control register.
    command(bus, OP_WRITE | PHY_ADDRESS | ENABLE | RESTART)?;
    Ok(())
}

/// Waits until the PHY's status shows a link that is up and negotiated, for at most 1,000 reads of the status. Over a
/// lively bus that obeys the law, E13 doesn't occur.
///
/// # Errors
///
/// - E14 [`NoLink`](InitError::NoLink): none of these reads showed a link that is up and negotiated.
/// - E13 [`PhyTimeout`](InitError::PhyTimeout): for a read of the status, 1,000 reads of MDIC didn't show R, or one
///   showed R and E.
pub fn await_link<B: Bus>(bus: &mut B) -> Result<(), InitError>
    ensures keeps { Keeps B.Bus bus.old bus.new }
    ensures errors { IfErr result (λ error. (error ≡ InitError.PhyTimeout) ⊎ (error ≡ InitError.NoLink)) }
    ensures awaits { B.honest bus.old → AwaitsLink B.Bus result bus.old bus.new }
{
    for _ in 0..MOST_READS {
        let status = command(bus, OP_READ | PHY_ADDRESS | STATUS_REGISTER)?;
        if shows_link(status) {
            return Ok(());
        }
    }
    Err(InitError::NoLink)
}

/// Returns whether the PHY's status shows that autonegotiation is complete (bit 5) and that the link is up (bit 2).
/// `status` is a value of MDIC: the PHY's status is in bits 15:0.
fn shows_link(status: u32) -> bool
    ensures { IsTrue result ↔ (Meet status (alone status_complete) × Meet status (alone status_link)) }
{
    status & NEGOTIATED != 0 && status & LINK != 0
}

/// Writes a command to MDIC, and waits until the command has ended. The command must be one of the two of
/// initialization (`IsCommand`). Returns the last value that was read from MDIC.
///
/// # Errors
///
/// E13 [`PhyTimeout`](InitError::PhyTimeout) if 1,000 reads of MDIC didn't show R, or one showed R and E.
fn command<B: Bus>(bus: &mut B, word: u32) -> Result<u32, InitError>
    requires { IsCommand word }
    ensures keeps { Keeps B.Bus bus.old bus.new }
    ensures error { IsOkUnless result InitError.PhyTimeout }
    ensures commands { B.honest bus.old → Commands B.Bus word result bus.old bus.new }
{
    bus.write(MDIC, word);
    for _ in 0..MOST_READS {
        let answer = bus.read(MDIC);
        if answer & READY != 0 {
            return if answer & ERROR == 0 {
                Ok(answer)
            } else {
                Err(InitError::PhyTimeout)
            };
        }
    }
    Err(InitError::PhyTimeout)
}
