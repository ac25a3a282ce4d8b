//! The code of the README of `eeprom`, word for word.

use eeprom::{Eerd, Image, checksum_ok};

#[test]
fn the_code_of_the_readme_of_eeprom(rt: HostRuntime) {
    let image = Image::with_address([0x02, 0, 0, 0, 0, 0x01]);
    assert!(rt; checksum_ok(&image));
    assert_eq!(rt; image.word(0), 0x0002); // the earlier byte in the low half
    let mut eerd = Eerd::new();
    eerd.write(0x0201); // START, ADDR 2
    assert_eq!(rt; eerd.read(), 0x0200); // pending: only ADDR
    assert!(rt; eerd.tick(&image)); // a read has ended
    assert_eq!(rt; eerd.read(), 0x0100_0210); // the word, ADDR and DONE
    assert!(rt; !eerd.tick(&image));
}
