//! The code of the README of `rx_filter`, word for word.

use registers::GroupOffset;
use rx_filter::{AddressWords, Filter, TableBit, hash_of};

#[test]
fn the_code_of_the_readme_of_rx_filter(rt: HostRuntime) {
    let mut filter = Filter::new();
    // One receive address, and one group by its number: bits 47:36 of the group's address.
    let words = AddressWords::of(&[0x02, 0, 0, 0, 0, 0x01]);
    filter.write_ral(0, words.low);
    filter.write_rah(0, words.high);
    let number = hash_of(GroupOffset::Bits47To36, &[0x01, 0, 0x5E, 0, 0, 0x01]);
    let bit = TableBit::of(number);
    filter.write_mta(usize::from(bit.word), bit.mask);
    // A frame to the address, one to another address, and one to the group.
    let mut frame = [0; 60];
    frame[..6].copy_from_slice(&[0x02, 0, 0, 0, 0, 0x01]);
    assert!(rt; number == 16 && filter.passes(&frame));
    frame[5] = 0x02;
    assert!(rt; !filter.passes(&frame));
    frame[..6].copy_from_slice(&[0x01, 0, 0x5E, 0, 0, 0x01]);
    assert!(rt; filter.passes(&frame));
}
