//! The names of targets of each kind.

use access_names::{Engine, Target};
use adapter::offsets::{MTA_LAST, RAH_LAST, TDT, VFTA};
use std::alloc::{AllocError, Global};
use std::test::Fail;

fn has_name(alloc: Global, target: Target, name: &str) -> Result<bool, AllocError> {
    let text = target.to_string(alloc)?;
    Ok(text.as_str() == name)
}

/// A target of each kind, and its name.
const NAMES: [(Target, &str); 7] = [
    (Target::Register(TDT), "TDT"),
    (Target::Register(MTA_LAST), "MTA[127]"),
    (Target::Register(RAH_LAST), "RAH[15]"),
    (Target::Register(VFTA), "VFTA[0]"),
    (Target::Register(0x1FFF0), "register[0x1fff0]"),
    (
        Target::Descriptor {
            ring: Engine::Transmit,
            index: 12,
            byte: 0,
        },
        "tx[12]",
    ),
    (Target::Memory(0x10000), "0x10000"),
];

#[test]
fn names_of_each_kind(rt: HostRuntime) -> Result<(), Fail> {
    for (target, name) in NAMES {
        assert!(rt; has_name(rt.alloc(), target, name)?, "{name}");
    }
    Ok(())
}
