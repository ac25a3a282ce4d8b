//! Finds the device: resets it, reads its EEPROM, and waits for its link.

ghost use Rattle.std.specs.Prelude.{IfErr};
ghost use Rattle.adapter.specs.Keeping.{Keeps};
ghost use Rattle.bring_up.specs.Device.{FindsDevice, IsBeforeAccess};

use crate::controls::{allocate_packet_buffer, reset_device, set_link_up};
use crate::eeprom_reading::read_image;
use crate::init_error::InitError;
use crate::link::{await_link, negotiate};
use adapter::Bus;
use eeprom::{Image, checksum_ok};

/// Resets the device, reads its EEPROM, assigns `kilobytes` of the packet buffer to received frames, and enables the
/// link. Then starts negotiation, and waits until the link is up and negotiated. Returns the image of the EEPROM.
/// `kilobytes` isn't checked. Over a lively bus that obeys the law, E11 and E13 don't occur, and E14 only if the link
/// needs more than 2,000 ticks or is never up.
///
/// # Errors
///
/// E10 and E15 are never returned (`errors`).
///
/// - E11 [`EepromTimeout`](InitError::EepromTimeout): 1,000 reads of EERD for one word didn't show DONE.
/// - E12 [`Checksum`](InitError::Checksum): the image's checksum is wrong.
/// - E13 [`PhyTimeout`](InitError::PhyTimeout): for a command to the PHY, 1,000 reads of MDIC didn't show R, or one
///   showed R and E.
/// - E14 [`NoLink`](InitError::NoLink): none of 1,000 reads of the PHY's status showed a link that is up and
///   negotiated.
pub fn find_device<B: Bus>(bus: &mut B, kilobytes: u8) -> Result<Image, InitError>
    ensures keeps { Keeps B.Bus bus.old bus.new }
    ensures errors { IfErr result (λ error. ¬ (IsBeforeAccess error)) }
    ensures finds { B.honest bus.old → FindsDevice B.Bus kilobytes result bus.old bus.new }
{
    reset_device(bus);
    let image = read_image(bus)?;
    if !checksum_ok(&image) {
        return Err(InitError::Checksum);
    }
    allocate_packet_buffer(bus, kilobytes);
    set_link_up(bus);
    negotiate(bus)?;
    await_link(bus)?;
    Ok(image)
}
