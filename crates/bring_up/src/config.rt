//! The configuration with which an adapter is initialized.

ghost use Rattle.std.specs.Prelude.{◌≡◌, ◌↔◌, IfErr, IfOk, IsOk, IsTrue};
ghost use Rattle.adapter.specs.PacketBuffer.{IsAllocation};

use crate::groups::is_group;
use crate::init_error::InitError;
use arrayvec::ArrayVec;
use dma_memory::Layout;

/// The greatest number of groups in a configuration (our choice).
pub const MOST_GROUPS: usize = 32;

/// The greatest number of VLANs in a configuration (our choice).
pub const MOST_VLANS: usize = 32;

/// The greatest number of kilobytes of the packet buffer for received frames (our choice).
const MOST_RECEIVE_KILOBYTES: u8 = 48;

/// The number of VLAN identifiers: an identifier has 12 bits (IEEE 802.1Q).
const VLAN_NUMBERS: u16 = 4096;

/// The configuration with which an adapter is initialized.
#[derive(Clone, Debug, Drop, PartialEq, Eq)]
pub struct Config {
    /// The number of receive descriptors: a multiple of 8 from 8 to 4,096.
    pub rx: u16,
    /// The number of transmit descriptors: a multiple of 8 from 8 to 4,096.
    pub tx: u16,
    /// The number of receive buffers: from `rx` to 8,192.
    pub buffers: u16,
    /// The size in kilobytes of the packet buffer for received frames (PBA.RXA): even, from 2 to 48.
    pub rxa: u8,
    /// Whether frames to every destination pass the filter (RCTL.UPE and RCTL.MPE). The VLAN filter still applies to
    /// these frames.
    pub promiscuous: bool,
    /// The groups whose frames pass the filter. Frames to other groups with the same bits 47:36 pass too. Each group
    /// has the low bit of its first byte set.
    pub groups: ArrayVec<[u8; 6], MOST_GROUPS>,
    /// The VLANs whose tagged frames pass the filter, each below 4,096; `None` if tagged frames of all VLANs pass.
    pub vlans: Option<ArrayVec<u16, MOST_VLANS>>,
}

impl Config {
    ghost use Rattle.bring_up.specs.Configuration.{IsValidIn, HasRightNumbers, configured_counts};
    ghost use Rattle.bring_up.specs.declared.init_error.InitError.TheVariants as InitError;

    /// Returns the places of rings and buffers in a memory of `size` bytes.
    ///
    /// # Errors
    ///
    /// E15 [`Config`](InitError::Config) exactly if the configuration isn't valid in such a memory.
    pub fn layout(&self, size: u64) -> Result<Layout, InitError>
        ensures ok { IsOk result ↔ IsValidIn self.now size }
        ensures counts { IfOk result (λ layout. layout ≡ configured_counts self.now) }
        ensures err { IfErr result (λ error. error ≡ InitError.Config) }
    {
        if !self.has_right_numbers() {
            return Err(InitError::Config);
        }
        let Ok(layout) = Layout::of(self.rx, self.tx, self.buffers) else {
            return Err(InitError::Config);
        };
        if layout.size() > size {
            return Err(InitError::Config);
        }
        Ok(layout)
    }

    /// Returns whether RXA, the groups and the VLANs are valid, as the comments of these fields state.
    fn has_right_numbers(&self) -> bool
        ensures { IsTrue result ↔ HasRightNumbers self.now }
    {
        is_allocation(self.rxa)
            && self.groups.iter().all(|group| is_group(group))
            && match &self.vlans {
                Some(vlans) => vlans.iter().all(|vlan| *vlan < VLAN_NUMBERS),
                None => true,
            }
    }
}

/// Returns whether this number of kilobytes is a valid value of PBA.RXA: even, from 2 to 48.
fn is_allocation(kilobytes: u8) -> bool
    ensures { IsTrue result ↔ IsAllocation kilobytes }
{
    kilobytes % 2 == 0 && 2 <= kilobytes && kilobytes <= MOST_RECEIVE_KILOBYTES
}
