//! The code of the README of `scenario`, word for word.

use scenario::{Fault, Refusal, Scenario};
use std::test::Fail;

#[test]
fn the_code_of_the_readme_of_scenario(rt: HostRuntime) -> Result<(), Fail> {
    let text = "host a 02:00:00:00:00:01 w\n\
        host b 02:00:00:00:00:02 w\n\
        socket b all\n\
        feed a frames.pcap\n\
        drain b\n";
    let scenario = Scenario::read(rt.alloc(), text.as_bytes())?;
    assert!(rt; scenario.plan.hosts.len() == 2 && scenario.commands.len() == 2);
    assert!(rt; scenario.trace_names().len() == 1); // frames.pcap
    let refusal = Refusal::Line {
        line: 2,
        fault: Fault::Name,
    };
    let refused = Scenario::read(rt.alloc(), b"# no host\ndrain b\n");
    assert!(rt; refused.err() == Some(refusal));
    Ok(())
}
