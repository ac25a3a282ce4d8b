//! The code of the README of `bring_up`, word for word.

use crate::buses::good_bus;
use adapter::Bus;
use adapter::offsets::RDLEN;
use bring_up::{
    RingPlace, find_device, group_table, set_receive_ring, vlan_table, write_addresses,
    write_groups, write_vlans,
};
use std::test::Fail;

#[test]
fn the_code_of_the_readme_of_bring_up(rt: HostRuntime) -> Result<(), Fail> {
    let mut bus = good_bus(rt.alloc())?; // a lively bus with a new adapter
    let found = find_device(&mut bus, 40)?;
    write_groups(&mut bus, &group_table(&[]));
    write_vlans(&mut bus, &vlan_table(&[]));
    write_addresses(&mut bus, &found.address());
    set_receive_ring(
        &mut bus,
        RingPlace {
            base: 0,
            bytes: 128,
        },
    );
    assert!(rt; bus.read(RDLEN) == 128);
    Ok(())
}
