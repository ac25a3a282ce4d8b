//! Failed allocations of a new host.

use crate::buses::{good_bus, new_host};
use adapter::{Bus, HonestBus};
use driver::InitError;
use std::alloc::Global;
use std::process::Abort;

/// Makes a host, and returns the error if there is one.
fn error_of<B: Bus>(alloc: Global, bus: &mut B) -> Option<InitError> {
    new_host(alloc, bus).err()
}

/// Makes a host. If an allocation fails, the error is `Memory`, no access was made, and a second call succeeds.
fn makes_host<B: HonestBus>(rt: &impl Abort, alloc: Global, bus: &mut B) {
    if let Some(error) = error_of(alloc, bus) {
        assert!(rt; error == InitError::Memory && bus.accesses() == 0);
        assert!(rt; error_of(alloc, bus).is_none());
    }
}

/// If an allocation fails, `Host::new` returns `Memory` without an access, and a second call succeeds.
/// `tests/refused_allocations` makes each allocation fail in turn.
#[test]
fn a_refused_allocation_of_a_host_is_memory(rt: HostRuntime) {
    if let Ok(mut bus) = good_bus(rt.alloc()) {
        makes_host(&rt, rt.alloc(), &mut bus);
    }
}
