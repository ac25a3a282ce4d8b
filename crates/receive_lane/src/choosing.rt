//! The registers of the receive filter for the options of `pass`.
ghost use Rattle.std.specs.Prelude.{◌≡◌, ◌+◌, ◌*◌, ◌/◌, ◌%◌, ◌^◌, ◌≤◌, IfSome};
ghost use Rattle.adapter.specs.Registers.{after_write};
ghost use Rattle.rx_filter.specs.Addresses.{IsAddress};
ghost use Rattle.receive_lane.specs.Choosing.{with_address, with_group_bit, with_tables, with_vlan_bit, mode_for};
ghost use Rattle.receive_lane.specs.Options.{HasVlanNumber};

use crate::filter::PassFilter;
use adapter::Adapter;
use adapter::offsets::{MTA, RAL, REGISTER_BYTES, VET, VFTA};
use bitflags::Flags;
use registers::{GroupOffset, Rctl};
use rx_filter::{AddressWords, TableBit, VLAN_TYPE, hash_of};

/// The offset of RAH(0), which follows RAL(0).
const RAH: u32 = RAL + REGISTER_BYTES;

/// Writes RAL(0) and RAH(0): the address with AV, or 0 if no address is given. The 0 clears the address that a reset
/// loads from the EEPROM. (After a reset, MTA and VFTA are 0.)
fn write_address(adapter: &mut Adapter, address: &Option<[u8; 6]>)
    ensures written { adapter.new ≡ record adapter.old { filter = with_address address.now adapter.old.filter } }
    // A given address has 6 bytes, each below 256.
    ensures address { IfSome address.now IsAddress }
{
    let words = match address {
        Some(address) => AddressWords::of(address),
        None => AddressWords { low: 0, high: 0 },
    };
    adapter.write(RAL, words.low);
    adapter.write(RAH, words.high);
}

/// Writes the word of a table that contains the bit of a number: 1 in this bit, and 0 in the word's other bits. `table`
/// is the offset of the table, MTA or VFTA, and the number must be at most 4095.
fn write_table_word(adapter: &mut Adapter, table: u32, number: u16)
    requires table { table ≤ VFTA }
    requires number { number ≤ 4095 }
    ensures { adapter.new ≡ after_write (table + 4 * (number / 32)) (2 ^ (number % 32)) adapter.old }
{
    let place = TableBit::of(number);
    adapter.write(table + REGISTER_BYTES * u32::from(place.word), place.mask);
}

/// Writes the word of MTA that contains the bit of the group, if a group is given.
fn write_group(adapter: &mut Adapter, group: &Option<[u8; 6]>)
    ensures { adapter.new ≡ record adapter.old { filter = with_group_bit group.now adapter.old.filter } }
{
    if let Some(group) = group {
        write_table_word(adapter, MTA, hash_of(GroupOffset::Bits47To36, group));
    }
}

/// Writes the word of VFTA that contains the bit of the VLAN, if a VLAN is given. The VLAN must be at most 4095.
fn write_vlan(adapter: &mut Adapter, vlan: Option<u16>)
    requires { IfSome vlan (λ number. number ≤ 4095) }
    ensures { adapter.new ≡ record adapter.old { filter = with_vlan_bit vlan adapter.old.filter } }
{
    if let Some(number) = vlan {
        write_table_word(adapter, VFTA, number);
    }
}

/// Returns RCTL for these options: EN and BAM. UPE and MPE are also set if neither an address nor a group is given, and
/// VFE if a VLAN is given.
pub fn mode_of(options: &PassFilter) -> Rctl
    ensures { result.0 ≡ mode_for options.now }
{
    let mut mode = Rctl::EN.union(Rctl::BAM);
    if options.address.is_none() && options.group.is_none() {
        mode.insert(Rctl::UPE.union(Rctl::MPE));
    }
    if options.vlan.is_some() {
        mode.insert(Rctl::VFE);
    }
    mode
}

/// Writes the registers of the receive filter for these options, except RCTL. A given VLAN must be at most 4095.
pub fn write_filter(adapter: &mut Adapter, options: &PassFilter)
    requires { HasVlanNumber options.now }
    ensures written { adapter.new ≡ record adapter.old { filter = with_tables options.now adapter.old.filter } }
    // A given address has 6 bytes, each below 256.
    ensures address { IfSome options.now.address IsAddress }
{
    write_address(adapter, &options.address);
    write_group(adapter, &options.group);
    write_vlan(adapter, options.vlan);
    adapter.write(VET, u32::from(VLAN_TYPE));
}
