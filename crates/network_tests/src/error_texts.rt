//! The messages of the errors of drivers, sockets and networks, and the exit statuses of those of networks.

use driver::{GroupError, InitError, SendError};
use packet_socket::RecvError;
use std::alloc::{AllocError, Global};
use std::fmt::Display;
use std::test::Fail;
use wire::{PlanError, Stopped};

/// Returns whether this is the message of an error.
fn is_shown<T: Display>(alloc: Global, error: &T, text: &str) -> Result<bool, AllocError> {
    Ok(error.to_string(alloc)?.as_str() == text)
}

#[test]
fn errors_of_initializations(rt: HostRuntime) -> Result<(), Fail> {
    let errors = [
        (InitError::Memory, "E10 Memory"),
        (InitError::EepromTimeout, "E11 EepromTimeout"),
        (InitError::Checksum, "E12 Checksum"),
        (InitError::PhyTimeout, "E13 PhyTimeout"),
        (InitError::NoLink, "E14 NoLink"),
        (InitError::Config, "E15 Config"),
    ];
    for (error, text) in &errors {
        assert!(rt; is_shown(rt.alloc(), error, text)?, "{text}");
    }
    Ok(())
}

#[test]
fn errors_of_calls(rt: HostRuntime) -> Result<(), Fail> {
    let sends = [
        (SendError::TooShort, "E20 TooShort"),
        (SendError::TooLong, "E21 TooLong"),
        (SendError::RingFull, "E22 RingFull"),
    ];
    for (error, text) in &sends {
        assert!(rt; is_shown(rt.alloc(), error, text)?, "{text}");
    }
    let groups = [
        (GroupError::NotGroup, "E23 NotGroup"),
        (GroupError::GroupsFull, "E24 GroupsFull"),
        (GroupError::NotJoined, "E25 NotJoined"),
        (GroupError::Joined, "E26 Joined"),
    ];
    for (error, text) in &groups {
        assert!(rt; is_shown(rt.alloc(), error, text)?, "{text}");
    }
    assert!(rt; is_shown(rt.alloc(), &RecvError::Empty, "E30 Empty")?);
    assert!(rt; is_shown(rt.alloc(), &RecvError::NoSocket, "E31 NoSocket")?);
    Ok(())
}

#[test]
fn errors_of_networks(rt: HostRuntime) -> Result<(), Fail> {
    let errors = [
        (PlanError::Name, "E40 Name", 1),
        (PlanError::Ends, "E41 Ends", 1),
        (PlanError::Hosts, "E42 Hosts", 1),
        (PlanError::Address, "E43 Address", 1),
        (PlanError::Config, "E44 Config", 1),
        (PlanError::Memory, "E45 Memory", 4),
        (
            PlanError::Init(1, InitError::NoLink),
            "E46 Init: E14 NoLink",
            1,
        ),
        (
            PlanError::Init(15, InitError::Checksum),
            "E46 Init: E12 Checksum",
            1,
        ),
    ];
    for (error, text, status) in &errors {
        assert!(rt;
            is_shown(rt.alloc(), error, text)? && error.status() == *status,
            "{text}"
        );
    }
    assert!(rt; is_shown(rt.alloc(), &Stopped { done: 7 }, "E47 Memory")?);
    Ok(())
}
