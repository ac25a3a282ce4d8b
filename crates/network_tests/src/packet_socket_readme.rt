//! The code of the README of `packet_socket`, word for word.

use crate::buses::{config, good_bus};
use adapter::{Bus, HonestBus, StepKind};
use arrayvec::ArrayVec;
use driver::Handled;
use packet_socket::{Host, SocketKind};
use std::test::Fail;

#[test]
fn the_code_of_the_readme_of_packet_socket(rt: HostRuntime) -> Result<(), Fail> {
    let mut bus = good_bus(rt.alloc())?;
    let mut table = ArrayVec::new();
    let _ = table.try_push(SocketKind::All);
    let mut host = Host::new(rt.alloc(), &mut bus, &config(), table)?;
    let frame = [0xFF; 60]; // a broadcast frame
    assert!(rt; host.layout().size() <= bus.size() && host.send(&mut bus, &frame).is_ok());
    bus.arrive(&frame);
    bus.step(StepKind::RxData);
    bus.step(StepKind::RxDone);
    assert!(rt; host.layout().size() <= bus.size());
    let handled = host.interrupt(&mut bus);
    let mut bytes = [0; 1518];
    let received = host.recv(&mut bus, 0, &mut bytes);
    assert!(rt;
        handled == Handled::Handled { taken: 1 } && received == Ok(60) && bytes.starts_with(&frame)
    );
    Ok(())
}
