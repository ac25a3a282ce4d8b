// The registers of the receive filter, and the frames that pass.

ghost use Rattle.std.specs.Prelude.{◌≡◌, ◌<◌, ◌≤◌, ◌↔◌, IsTrue, bit_and, fold, length, replicate};
ghost use Rattle.std.specs.Prelude.{slice_index, slice_set};
ghost use Rattle.registers.specs.Kept.{receive_control_mask};
ghost use Rattle.rx_filter.specs.Hashed.{filter_writes};
ghost use Rattle.rx_filter.specs.Passing.{AcceptsAddress, AcceptsGroup, AcceptsVlan, Passes};
ghost use Rattle.rx_filter.specs.Registers.{filter_of, address_high_mask};

use crate::address::{
    destination_of, ether_type_of, has_entry, hash_of, is_broadcast, is_group, vlan_number_of,
};
use crate::table::has_table_bit;
use bitflags::Flags;
use registers::Rctl;
use std::hash::{Hash, Hasher};
use std::marker::Model;

/// The number of receive addresses of the filter: the number of pairs RAL(n), RAH(n).
pub const RECEIVE_ADDRESSES: usize = 16;

/// The number of words of MTA, and also of VFTA.
pub const TABLE_WORDS: usize = 128;

/// The VLAN type of IEEE 802.1Q, for VET: bytes 12 and 13 of a tagged frame.
pub const VLAN_TYPE: u16 = 0x8100;

/// The bits of RAH that a write stores and a read returns: address bytes 4 and 5, and AV.
const ADDRESS_HIGH_BITS: u32 = 0x8000_FFFF;

/// The receive filter: its registers, which determine the frames that pass. No call allocates memory.
#[derive(Clone, Drop)]
pub struct Filter {
    ral: [u32; RECEIVE_ADDRESSES],
    rah: [u32; RECEIVE_ADDRESSES],
    mta: [u32; TABLE_WORDS],
    vfta: [u32; TABLE_WORDS],
    rctl: Rctl,
    vet: u16,
}

impl Model for Filter {
    ghost use Rattle.rx_filter.specs.Registers.{FilterRegisters};

    ghost Value = { FilterRegisters };

    ghost view = { λ f. record { ral = f.ral; rah = f.rah; mta = f.mta; vfta = f.vfta; rctl = f.rctl.0; vet = f.vet } };

    ghost inverse = { λ v. record
        { ral = v.ral; rah = v.rah; mta = v.mta; vfta = v.vfta; rctl = record { 0 = v.rctl }; vet = v.vet } };
}

impl Filter {
    /// Returns a filter whose registers are all 0: no frame passes.
    pub fn new() -> Filter
        ensures { result ≡ record {
          ral = replicate RECEIVE_ADDRESSES 0;
          rah = replicate RECEIVE_ADDRESSES 0;
          mta = replicate TABLE_WORDS 0;
          vfta = replicate TABLE_WORDS 0;
          rctl = 0;
          vet = 0;
        } }
    {
        Filter {
            ral: [0; RECEIVE_ADDRESSES],
            rah: [0; RECEIVE_ADDRESSES],
            mta: [0; TABLE_WORDS],
            vfta: [0; TABLE_WORDS],
            rctl: Rctl(0),
            vet: 0,
        }
    }

    /// Writes RAL(n), address bytes 0 to 3 of entry `n` (13.5.2). `n` is below 16.
    pub fn write_ral(&mut self, n: usize, value: u32)
        requires { n < RECEIVE_ADDRESSES }
        ensures { self.new ≡ record self.old { ral = slice_set self.old.ral n value } }
    {
        self.ral[n] = value;
    }

    /// Writes RAH(n), address bytes 4 and 5 of entry `n` in bits 15:0 and AV in bit 31 (13.5.3). The other bits aren't
    /// stored. `n` is below 16.
    pub fn write_rah(&mut self, n: usize, value: u32)
        requires { n < RECEIVE_ADDRESSES }
        ensures { self.new ≡ record self.old { rah = slice_set self.old.rah n (bit_and value address_high_mask) } }
    {
        self.rah[n] = value & ADDRESS_HIGH_BITS;
    }

    /// Writes word `i` of MTA, the group table (13.5.1). `i` is below 128.
    pub fn write_mta(&mut self, i: usize, value: u32)
        requires { i < TABLE_WORDS }
        ensures { self.new ≡ record self.old { mta = slice_set self.old.mta i value } }
    {
        self.mta[i] = value;
    }

    /// Writes word `i` of VFTA, the VLAN table (13.5.4). `i` is below 128.
    pub fn write_vfta(&mut self, i: usize, value: u32)
        requires { i < TABLE_WORDS }
        ensures { self.new ≡ record self.old { vfta = slice_set self.old.vfta i value } }
    {
        self.vfta[i] = value;
    }

    /// Writes RCTL: stores the register's kept bits of the value (13.4.22).
    pub fn write_rctl(&mut self, value: u32)
        ensures { self.new ≡ record self.old { rctl = bit_and value receive_control_mask } }
    {
        self.rctl = Rctl::kept(value);
    }

    /// Writes VET, the VLAN type (13.4.11).
    pub fn write_vet(&mut self, value: u16)
        ensures { self.new ≡ record self.old { vet = value } }
    {
        self.vet = value;
    }

    /// Writes RCTL and VET, which select what the filter's other registers accept.
    pub fn mode(&mut self, rctl: u32, vet: u16)
        ensures { self.new ≡ record self.old { rctl = bit_and rctl receive_control_mask; vet = vet } }
    {
        self.write_rctl(rctl);
        self.write_vet(vet);
    }

    /// Returns RAL(n). `n` is below 16.
    pub fn ral(&self, n: usize) -> u32
        requires { n < RECEIVE_ADDRESSES }
        ensures { result ≡ slice_index self.now.ral n }
    {
        self.ral[n]
    }

    /// Returns RAH(n). `n` is below 16.
    pub fn rah(&self, n: usize) -> u32
        requires { n < RECEIVE_ADDRESSES }
        ensures { result ≡ slice_index self.now.rah n }
    {
        self.rah[n]
    }

    /// Returns word `i` of MTA. `i` is below 128.
    pub fn mta(&self, i: usize) -> u32
        requires { i < TABLE_WORDS }
        ensures { result ≡ slice_index self.now.mta i }
    {
        self.mta[i]
    }

    /// Returns word `i` of VFTA. `i` is below 128.
    pub fn vfta(&self, i: usize) -> u32
        requires { i < TABLE_WORDS }
        ensures { result ≡ slice_index self.now.vfta i }
    {
        self.vfta[i]
    }

    /// Returns RCTL.
    pub fn rctl(&self) -> Rctl
        ensures { result.0 ≡ self.now.rctl }
    {
        self.rctl
    }

    /// Returns VET.
    pub fn vet(&self) -> u16
        ensures { result ≡ self.now.vet }
    {
        self.vet
    }

    /// Feeds all registers of the filter to a hasher. Equal filters feed the same bytes.
    pub fn feed<H: Hasher>(&self, hasher: &mut H)
        ensures { hasher.new ≡ fold H.write hasher.old (filter_writes self.now) }
    {
        hasher.write_u32(self.rctl.bits());
        hasher.write_u16(self.vet);
        self.ral.hash(hasher);
        self.rah.hash(hasher);
        self.mta.hash(hasher);
        self.vfta.hash(hasher);
    }

    /// Returns whether a frame passes: its destination and its VLAN are accepted (3.2.1 and chapter 9). The frame must
    /// have at least 16 bytes, because the filter reads bytes 0 to 15.
    pub fn passes(&self, frame: &[u8]) -> bool
        requires { 16 ≤ length frame.now }
        ensures { IsTrue result ↔ Passes (filter_of self.now) frame.now }
    {
        self.accepts_address(&destination_of(frame)) && self.accepts_vlan(frame)
    }

    /// Returns whether the filter accepts a destination address. A receive address is accepted. UPE accepts each
    /// individual address, MPE each group address, and BAM the broadcast address. The group table accepts a group
    /// address if the bit of its number is 1.
    fn accepts_address(&self, address: &[u8; 6]) -> bool
        ensures { IsTrue result ↔ AcceptsAddress (filter_of self.now) address.now }
    {
        let accepted = if is_group(address) {
            self.accepts_group(address)
        } else {
            self.rctl.accepts_all_individuals()
        };
        accepted || has_entry(&self.ral, &self.rah, address)
    }

    /// Returns whether MPE, BAM or the group table accepts this group address.
    #[tactic(auto, unfolding(crate::specs::Registers::filter_of, crate::specs::Passing::AcceptsGroup))]
    fn accepts_group(&self, address: &[u8; 6]) -> bool
        ensures { IsTrue result ↔ AcceptsGroup (filter_of self.now) address.now }
    {
        self.rctl.accepts_all_groups()
            || self.rctl.accepts_broadcast() && is_broadcast(address)
            || has_table_bit(&self.mta, hash_of(self.rctl.group_offset(), address))
    }

    /// Returns whether the filter accepts the VLAN of a frame of at least 16 bytes: RCTL.VFE is clear, the frame has no
    /// tag (its type isn't VET), or VFTA contains its VLAN number.
    #[tactic(auto, unfolding(crate::specs::Registers::filter_of, crate::specs::Passing::AcceptsVlan))]
    fn accepts_vlan(&self, frame: &[u8]) -> bool
        requires { 16 ≤ length frame.now }
        ensures { IsTrue result ↔ AcceptsVlan (filter_of self.now) frame.now }
    {
        !self.rctl.filters_vlans()
            || ether_type_of(frame) != self.vet
            || has_table_bit(&self.vfta, vlan_number_of(frame))
    }
}
