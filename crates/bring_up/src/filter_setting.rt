//! Sets up the receive filter, and returns the VLANs of a configuration.

ghost use Rattle.std.specs.Prelude.{◌≡◌, ◌<◌, All};
ghost use Rattle.rx_filter.specs.NumberTables.{table_numbers};
ghost use Rattle.adapter.specs.Keeping.{Keeps};
ghost use Rattle.bring_up.specs.Configuration.{vlans_of};
ghost use Rattle.bring_up.specs.FilterSetting.{SetsFilter};

use crate::config::MOST_VLANS;
use crate::filter_tables::{group_table, vlan_table, write_addresses, write_groups, write_vlans};
use adapter::Bus;
use arrayvec::ArrayVec;

/// Sets up the receive filter. Writes the group table with the bits of these groups, and the VLAN table with the bits
/// of these VLANs, whose numbers must be below 4,096. Then writes this address as the only receive address.
pub fn set_filter<B: Bus>(bus: &mut B, groups: &[[u8; 6]], vlans: &[u16], address: &[u8; 6])
    requires { All (λ vlan. vlan < table_numbers) vlans.now }
    ensures keeps { Keeps B.Bus bus.old bus.new }
    ensures sets { B.honest bus.old → SetsFilter B.Bus groups.now vlans.now address.now bus.old bus.new }
{
    let groups = group_table(groups);
    let vlans = vlan_table(vlans);
    write_groups(bus, &groups);
    write_vlans(bus, &vlans);
    write_addresses(bus, address);
}

/// Returns the VLANs of a configuration, or an empty list if tagged frames of all VLANs pass.
pub fn named_vlans(vlans: &Option<ArrayVec<u16, MOST_VLANS>>) -> &[u16]
    ensures { result.now ≡ vlans_of vlans.now }
{
    match vlans {
        Some(vlans) => vlans.as_slice(),
        None => &[],
    }
}
