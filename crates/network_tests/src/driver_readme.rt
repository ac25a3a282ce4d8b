//! The code of the README of `driver`, word for word.

use crate::buses::good_bus;
use adapter::Bus;
use arrayvec::ArrayVec;
use driver::{Config, Driver};
use std::test::Fail;

#[test]
fn the_code_of_the_readme_of_driver(rt: HostRuntime) -> Result<(), Fail> {
    let mut bus = good_bus(rt.alloc())?;
    let config = Config {
        rx: 8, // receive slots
        tx: 8, // transmit slots
        buffers: 16,
        rxa: 48, // kilobytes of the packet buffer for receiving
        promiscuous: false,
        groups: ArrayVec::new(),
        vlans: None,
    };
    let mut driver = Driver::init(rt.alloc(), &mut bus, &config)?;
    // All receive slots but one are offered.
    assert!(rt; driver.receiving() == 7 && driver.layout().size() <= bus.size());
    let sent = driver.transmit(&mut bus, &[0xFF; 60]); // a broadcast frame
    assert!(rt; sent.is_ok() && driver.sending() == 1);
    Ok(())
}
