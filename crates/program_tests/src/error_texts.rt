//! The texts of errors that the program prints, and its exit status for each.

use adapter_server::ServeError;
use driver::InitError;
use pcap_bench::{
    BenchError, Fault, InvalidValue, LineError, ReadError, Refusal, ValueOption, WriteError, line,
};
use std::alloc::{AllocError, Global};
use std::fmt::Display;
use std::test::Fail;
use wire::{PlanError, Stopped};

/// Returns whether this is the text of an error.
fn is_shown<T: Display>(alloc: Global, error: &T, text: &str) -> Result<bool, AllocError> {
    Ok(error.to_string(alloc)?.as_str() == text)
}

#[test]
fn errors_of_traces(rt: HostRuntime) -> Result<(), Fail> {
    let errors = [
        (ReadError::Header, "E60 Header", 1),
        (ReadError::Magic, "E61 Magic", 1),
        (ReadError::Version, "E62 Version", 1),
        (ReadError::LinkType, "E63 LinkType", 1),
        (ReadError::Record, "E64 Record", 1),
        (ReadError::Memory, "E65 Memory", 4),
        (ReadError::Read, "E66 Read", 3),
    ];
    for (error, text, status) in &errors {
        assert!(rt; is_shown(rt.alloc(), error, text)? && error.status() == *status);
    }
    let error = WriteError::Write;
    assert!(rt; is_shown(rt.alloc(), &error, "E67 Write")? && error.status() == 3);
    Ok(())
}

#[test]
fn refusals_of_scenarios(rt: HostRuntime) -> Result<(), Fail> {
    let faults = [
        (Fault::Word, "line 3: E50 Word"),
        (Fault::Count, "line 3: E51 Count"),
        (Fault::Value, "line 3: E52 Value"),
        (Fault::Name, "line 3: E53 Name"),
        (Fault::Order, "line 3: E54 Order"),
        (Fault::Long, "line 3: E55 Long"),
        (Fault::Text, "line 3: E56 Text"),
    ];
    for (fault, text) in &faults {
        let refusal = Refusal::Line {
            line: 3,
            fault: *fault,
        };
        assert!(rt; is_shown(rt.alloc(), &refusal, text)? && refusal.status() == 1);
    }
    let refusal = Refusal::Memory;
    assert!(rt; is_shown(rt.alloc(), &refusal, "E57 Memory")? && refusal.status() == 4);
    Ok(())
}

#[test]
fn errors_of_benches(rt: HostRuntime) -> Result<(), Fail> {
    let errors = [
        (BenchError::Plan(PlanError::Hosts), "E42 Hosts", 1),
        (BenchError::Plan(PlanError::Memory), "E45 Memory", 4),
        (
            BenchError::Plan(PlanError::Init(1, InitError::NoLink)),
            "E46 Init: E14 NoLink",
            1,
        ),
        (BenchError::Run(Stopped { done: 2 }), "E47 Memory", 4),
        (BenchError::Memory, "E57 Memory", 4),
        (BenchError::Write(WriteError::Write), "E67 Write", 3),
    ];
    for (error, text, status) in &errors {
        assert!(rt; is_shown(rt.alloc(), error, text)? && error.status() == *status);
    }
    Ok(())
}

#[test]
fn errors_of_servers(rt: HostRuntime) -> Result<(), Fail> {
    let errors = [
        (ServeError::Memory, "E57 Memory", 4),
        (ServeError::Read, "E66 Read", 3),
        (ServeError::Write, "E67 Write", 3),
    ];
    for (error, text, status) in &errors {
        assert!(rt; is_shown(rt.alloc(), error, text)? && error.status() == *status);
    }
    Ok(())
}

#[test]
fn errors_of_command_lines(rt: HostRuntime) -> Result<(), Fail> {
    let value = InvalidValue {
        option: ValueOption::Rxa,
        text: "3",
    };
    let errors = [
        (
            LineError::Value(value),
            "error: invalid value '3' for '--rxa <N>': kilobytes are an even number in decimal digits, such as 48\n\n\
            For more information, try '--help'.\n",
            2,
        ),
        (
            LineError::NotUnicode,
            "error: invalid UTF-8 was detected in one or more arguments\n\nUsage: nicbench <COMMAND>\n\n\
            For more information, try '--help'.\n",
            2,
        ),
        (LineError::Memory, "E57 Memory", 4),
    ];
    for (error, text, status) in &errors {
        assert!(rt; is_shown(rt.alloc(), error, text)? && error.status() == *status);
    }
    Ok(())
}

#[test]
fn numbers_beyond_bounds_have_the_text_of_clap(rt: HostRuntime) -> Result<(), Fail> {
    let words = ["nicbench", "pass", "--vlan", "4096", "in.pcap", "out.pcap"];
    let text = "error: invalid value '4096' for '--vlan <N>': 4096 is not in 0..=4095\n\n\
        For more information, try '--help'.\n";
    match line(rt.alloc(), words.as_slice()) {
        Err(error) => assert!(rt; is_shown(rt.alloc(), &error, text)? && error.status() == 2),
        Ok(_) => assert!(rt; false),
    }
    Ok(())
}
