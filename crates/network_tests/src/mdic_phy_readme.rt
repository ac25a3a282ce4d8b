//! The code of the README of `mdic_phy`, word for word.

use mdic_phy::{Link, Mdic, Phy};

#[test]
fn the_code_of_the_readme_of_mdic_phy(rt: HostRuntime) {
    let mut phy = Phy::new(Link::After(1));
    let mut mdic = Mdic::new();
    mdic.write(0x0420_1200); // OP 01, PHYADD 1, REGADD 0: bits 12 and 9 start the negotiation
    mdic.tick(&mut phy);
    assert_eq!(rt; mdic.read(), 0x1420_1200); // R: the command has ended
    mdic.tick(&mut phy);
    assert!(rt; phy.link_is_up());
}
