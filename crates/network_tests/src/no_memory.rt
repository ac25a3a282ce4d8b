//! Calls of a host, its driver, its bus and its adapter that allocate no memory. The calls succeed even if every
//! allocation after the initialization fails.

use crate::buses::{good_bus, new_host};
use adapter::{Bus, HonestBus, SoloBus, SoloTick, StepKind};
use driver::Handled;
use packet_socket::Host;
use std::alloc::Global;
use std::process::Abort;

/// A broadcast frame.
const FRAME: [u8; 60] = [0xFF; 60];

/// A multicast group.
const GROUP: [u8; 6] = [0x01, 0x00, 0x5E, 0x00, 0x00, 0x01];

/// A host sends a frame, joins and leaves a group, and receives a frame that is in its ring.
fn calls<B: Bus>(rt: &impl Abort, host: &mut Host, bus: &mut B) {
    let size = host.layout().size();
    assert!(rt; size <= bus.size());
    let sent = host.send(bus, &FRAME).is_ok();
    let changed = host.join(bus, GROUP).is_ok() && host.leave(bus, GROUP).is_ok();
    let handled = host.interrupt(bus);
    let mut bytes = [0; 1518];
    let received = host.recv(bus, 0, &mut bytes);
    assert!(rt; sent && changed);
    assert!(rt; handled == Handled::Handled { taken: 1 } && received == Ok(60));
}

/// Plays an arrival, and the steps by which the adapter writes the frame to memory.
fn receives(rt: &impl Abort, bus: &mut SoloBus) {
    bus.arrive(&FRAME);
    assert_eq!(rt; bus.waiting(), 0);
    bus.play(&[
        SoloTick::Step(StepKind::RxData),
        SoloTick::Step(StepKind::RxDone),
    ]);
    bus.finish();
}

/// Plays the steps by which the adapter puts a frame on the wire, and returns whether a frame is then on the wire.
fn sends(bus: &mut SoloBus) -> bool {
    bus.step(StepKind::TxTake);
    bus.step(StepKind::TxPut);
    bus.take_put().is_some()
}

/// The host resets its adapter.
fn resets<B: Bus>(rt: &impl Abort, host: &mut Host, bus: &mut B) {
    let size = host.layout().size();
    assert!(rt; size <= bus.size());
    host.reset(bus);
}

/// A frame is received, the calls are made, the frame sent goes on the wire, and the host resets its adapter.
fn session(rt: &impl Abort, host: &mut Host, bus: &mut SoloBus) {
    receives(rt, bus);
    calls(rt, host, bus);
    assert!(rt; sends(bus));
    resets(rt, host, bus);
    assert!(rt; !bus.line());
}

/// Makes a host, and plays the session unless an allocation fails.
fn hosts(rt: &impl Abort, alloc: Global, bus: &mut SoloBus) {
    if let Ok(mut host) = new_host(alloc, bus) {
        session(rt, &mut host, bus);
    }
}

#[test]
fn calls_of_a_host_take_no_memory(rt: HostRuntime) {
    if let Ok(mut bus) = good_bus(rt.alloc()) {
        hosts(&rt, rt.alloc(), &mut bus);
    }
}
