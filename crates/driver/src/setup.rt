// The setup with which a driver initializes its adapter again.

ghost use Rattle.std.specs.Prelude.{◌≡◌};
ghost use Rattle.bring_up.specs.Configuration.{HasRightNumbers};
ghost use Rattle.bring_up.specs.ConfiguredAdapters.{setup_of};
ghost use Rattle.driver.specs.InsideSetup.{IsRightSetup, setup_in};

use arrayvec::ArrayVec;
use bring_up::{Config, MOST_VLANS};

/// The parts of the configuration that a reset needs, and the adapter's address.
#[derive(Drop)]
pub(crate) struct Setup {
    /// The size in kilobytes of the packet buffer for received frames (PBA.RXA).
    pub(crate) rxa: u8,
    /// Whether frames to every destination pass the filter.
    pub(crate) promiscuous: bool,
    /// The VLANs whose tagged frames pass the filter; `None` if tagged frames of all VLANs pass.
    pub(crate) vlans: Option<ArrayVec<u16, MOST_VLANS>>,
    /// The Ethernet address in the adapter's EEPROM.
    pub(crate) address: [u8; 6],
}

impl Setup {
    /// Returns the setup of a configuration, with the adapter's address. RXA and the VLANs of the configuration must be
    /// valid. Its groups must be valid, too, only because `HasRightNumbers` is about the whole configuration.
    pub(crate) fn of(config: &Config, address: [u8; 6]) -> Setup
        requires { HasRightNumbers config.now }
        ensures is { setup_in result ≡ setup_of config.now address }
        ensures right { IsRightSetup result }
    {
        Setup {
            rxa: config.rxa,
            promiscuous: config.promiscuous,
            vlans: copied(&config.vlans),
            address,
        }
    }
}

/// Returns a copy of a list of VLANs, or `None` if there is no list.
fn copied(vlans: &Option<ArrayVec<u16, MOST_VLANS>>) -> Option<ArrayVec<u16, MOST_VLANS>>
    ensures { result ≡ vlans.now }
{
    let list = vlans.as_ref()?;
    let mut copy = ArrayVec::new();
    // The copy has the same capacity as `list`, so all VLANs fit, and the result is always Ok.
    let _fits = copy.try_extend_from_slice(list.as_slice());
    Some(copy)
}
