//! The commands of the program over memory: passes of traces, runs of scenarios, and the lines that they print.

ghost use Rattle.std.specs.Prelude.{◌<◌, All};

use crate::said::hex;
use crate::traces::{FailingSink, trace_of};
use driver::InitError;
use pcap_bench::{
    BenchError, Job, PassFilter, Refusal, Scenario, Sink, SliceSource, Summary, Trace, Unit,
    VecSink, bench, line, pass, print_pass, print_summary, show, socket_files,
};
use std::alloc::Global;
use std::process::Abort;
use std::test::Fail;
use wire::PlanError;

/// Two hosts on one wire. Host `b` has a socket for all frames.
const TWO: &str = "host a 02:00:00:00:00:01 w\nhost b 02:00:00:00:00:02 w\nsocket b all\n";

/// A frame goes from host `a` to host `b`.
const ONE_FRAME: &str = "send a 0200000000020200000000010800
tick txtake:a
tick txput:a
tick deliver:b
tick rxdata:b
tick rxdone:b
interrupt b
recv b 0
";

/// Two frames wait at host `b`, and one of them is delivered inside a reset.
const RESET: &str = "send a 0200000000020200000000010800
send a 0200000000020200000000010800
tick txtake:a
tick txtake:a
tick txput:a
tick txput:a
reset b / deliver:b go deliver:b
";

/// A frame waits in the receive packet buffer of host `b`, which is drained.
const DRAIN: &str = "send a 0200000000020200000000010800
tick txtake:a
tick txput:a
tick deliver:b
drain b
";

/// Returns a trace of frames: for each frame its destination, its bytes 12 to 15, and its length.
fn trace(alloc: Global, frames: &[([u8; 6], [u8; 4], usize)]) -> Result<Trace, Fail> {
    let mut bytes = trace_of(alloc, 0xA1B2_C3D4, false, &[])?;
    for (destination, kind, length) in frames {
        let mut frame = Vec::new(alloc);
        frame.extend_from_slice(destination)?;
        frame.extend_from_slice(&[0; 6])?;
        frame.extend_from_slice(kind)?;
        for _ in 16..*length {
            frame.push(0)?;
        }
        let frame = frame.get(..*length).unwrap_or(&[]);
        let one = trace_of(
            alloc,
            0xA1B2_C3D4,
            false,
            &[(frame, u32::try_from(*length).unwrap_or(0))],
        )?;
        bytes.extend_from_slice(one.get(24..).unwrap_or(&[]))?;
    }
    Ok(Trace::read(alloc, &mut SliceSource::new(&bytes))?)
}

/// Returns the times of a trace whose seconds are 0, in its unit.
fn times(alloc: Global, bytes: &[u8]) -> Result<String, Fail> {
    let mut text = String::new(alloc);
    let mut rest = bytes.get(24..).unwrap_or(&[]);
    for _ in 0..bytes.len() {
        let Some((header, packet)) = rest.split_first_chunk::<16>() else {
            break;
        };
        let [_, _, _, _, a, b, c, d, e, f, g, h, ..] = *header;
        text.push_str(format!(in alloc; "{} ", u32::from_le_bytes([a, b, c, d]))?.as_str())?;
        let length = u32::from_le_bytes([e, f, g, h]) as usize;
        rest = packet.get(length..).unwrap_or(&[]);
    }
    Ok(text)
}

/// Returns the filter of a pass with these options.
fn filter_of(alloc: Global, words: &[&str]) -> Option<PassFilter> {
    match line(alloc, words) {
        Ok(Job::Pass(job)) => Some(job.filter),
        _ => None,
    }
}

const B: [u8; 6] = [0x02, 0, 0, 0, 0, 0x02];

const IP: [u8; 4] = [0x08, 0, 0, 0];

/// Frames to addresses of groups, another address, and the broadcast address.
const GROUPS: [([u8; 6], [u8; 4], usize); 5] = [
    ([0x01, 0, 0x5E, 0, 0, 0x01], IP, 60),
    ([0x01, 0, 0x5F, 0, 0, 0x01], IP, 60),
    ([0x01, 0, 0x5E, 0, 0, 0x02], IP, 60),
    ([0x02, 0, 0x5E, 0, 0, 0x01], IP, 60),
    ([0xFF; 6], IP, 60),
];

/// Frames with and without VLAN tags.
const TAGS: [([u8; 6], [u8; 4], usize); 4] = [
    (B, [0x81, 0, 0, 0x05], 60),
    (B, [0x81, 0, 0, 0x06], 60),
    (B, [0x81, 0, 0x20, 0x05], 60),
    (B, IP, 60),
];

/// The words of a pass, the frames of its trace, the line that is printed, the size of the written trace in bytes, and
/// the times in it.
const PASSES: [(&[&str], &[([u8; 6], [u8; 4], usize)], &str, usize, &str); 4] = [
    (
        &["nicbench", "pass", "in", "out"],
        &[(B, IP, 14), (B, IP, 13), (B, IP, 1518)],
        "read 3 skipped 0 illegal 1 filtered 0 written 2 cut no\n",
        1634,
        "0 2 ",
    ),
    (
        &["nicbench", "pass", "in", "out"],
        &[],
        "read 0 skipped 0 illegal 0 filtered 0 written 0 cut no\n",
        24,
        "",
    ),
    (
        &[
            "nicbench",
            "pass",
            "--group",
            "01:00:5e:00:00:01",
            "in",
            "out",
        ],
        &GROUPS,
        "read 5 skipped 0 illegal 0 filtered 2 written 3 cut no\n",
        252,
        "0 1 4 ",
    ),
    (
        &["nicbench", "pass", "--vlan", "5", "in", "out"],
        &TAGS,
        "read 4 skipped 0 illegal 0 filtered 1 written 3 cut no\n",
        252,
        "0 2 3 ",
    ),
];

#[test]
fn frames_pass_through_a_filter(rt: HostRuntime) -> Result<(), Fail> {
    let alloc = rt.alloc();
    for (words, frames, wanted, size, stamps) in PASSES {
        let filter = filter_of(alloc, words).expect(&rt, "the words are right");
        assert!(rt; filter.vlan.is_none_or(|vlan| vlan <= 4095));
        let trace = trace(alloc, frames)?;
        let mut sink = VecSink::new(alloc);
        let counts = pass(alloc, &trace, &filter, Unit::Micros, &mut sink)?;
        let mut printed = VecSink::new(alloc);
        print_pass(&trace, &counts, &mut printed)?;
        assert!(rt;
            printed.bytes() == wanted.as_bytes() && sink.bytes().len() == size,
            "{wanted}"
        );
        assert!(rt; times(alloc, sink.bytes())?.as_str() == stamps, "{wanted}");
    }
    let empty = Trace::read(alloc, &mut SliceSource::new(&[]))
        .err()
        .expect(&rt, "there is no header");
    assert!(rt; format!(in alloc; "{empty}")?.as_str() == "E60 Header" && empty.status() == 1);
    // Wrong words end with status 2.
    for options in [
        ["--group", "02:00:00:00:00:01"],
        ["--group", "01:00:5e:00:00"],
        ["--vlan", "4096"],
        ["--vlan", "x"],
        ["--address", "02"],
        ["--nanos", "--nanos"],
    ] {
        let words = ["nicbench", "pass", options[0], options[1], "in", "out"];
        let refused = line(alloc, words.as_slice());
        assert!(rt;
            matches!(&refused, Err(error) if error.status() == 2),
            "{options:?}"
        );
    }
    Ok(())
}

/// Plays a scenario of two hosts.
fn played<W: Sink>(
    rt: &impl Abort,
    alloc: Global,
    text: &str,
    traces: &[Trace],
    unit: Unit,
    sinks: &mut [W],
) -> Result<Result<Summary, BenchError>, Fail>
    requires { All (λ (sink : W). W.failures sink < u64.MAX) sinks.old }
{
    let scenario = Scenario::read(alloc, text.as_bytes())?;
    let names = socket_files(alloc, scenario.plan.hosts.as_slice())?;
    assert!(rt; scenario.trace_names().len() == traces.len() && names.len() == sinks.len());
    Ok(bench(alloc, &scenario, traces, unit, sinks))
}

/// Plays a scenario of two hosts with one socket, and returns the trace of the socket and the printed summary.
fn run(
    rt: &impl Abort,
    alloc: Global,
    events: &str,
    traces: &[Trace],
    unit: Unit,
) -> Result<(Vec<u8>, Vec<u8>), Fail> {
    let text = format!(in alloc; "{TWO}{events}")?;
    let mut sinks = [VecSink::new(alloc)];
    let summary = played(rt, alloc, text.as_str(), traces, unit, &mut sinks)??;
    let mut printed = VecSink::new(alloc);
    print_summary(&summary, &mut printed)?;
    Ok((
        sinks[0].bytes().to_vec(alloc)?,
        printed.bytes().to_vec(alloc)?,
    ))
}

/// Events, the frames of the traces that they feed, the printed lines, and the times of the socket's frames.
const RUNS: [(&str, &[([u8; 6], [u8; 4], usize)], &str, &str); 6] = [
    (
        ONE_FRAME,
        &[],
        "a accepted 1 put 1 reached 0 stored 0 missed 0 exact given 0 unclaimed 0\nb accepted 0 put 0 reached 1 stored 1 missed 0 exact given 1 unclaimed 0\n",
        "7 ",
    ),
    (
        RESET,
        &[],
        "a accepted 2 put 2 reached 0 stored 0 missed 0 exact given 0 unclaimed 0\nb accepted 0 put 0 reached 2 stored 1 missed 0 exact given 0 unclaimed 0 givenup 0 1 off 1\n",
        "",
    ),
    (
        DRAIN,
        &[],
        "a accepted 1 put 1 reached 0 stored 0 missed 0 exact given 0 unclaimed 0\nb accepted 0 put 0 reached 1 stored 1 missed 0 exact given 1 unclaimed 0\n",
        "4 ",
    ),
    (
        "feed a in\n",
        &[(B, IP, 60); 20],
        "a accepted 20 put 20 reached 0 stored 0 missed 0 exact given 0 unclaimed 0\nb accepted 0 put 0 reached 20 stored 20 missed 0 exact given 20 unclaimed 0\n",
        "7 15 23 31 39 47 55 63 71 79 87 95 103 111 119 127 135 143 151 159 ",
    ),
    // A frame of 1,518 bytes has six pieces. A frame that is refused has one.
    (
        "feed a in\n",
        &[(B, IP, 1518), (B, IP, 13), (B, IP, 257)],
        "a accepted 2 put 2 reached 0 stored 0 missed 0 exact given 0 unclaimed 0\nb accepted 0 put 0 reached 2 stored 2 missed 0 exact given 2 unclaimed 0\n",
        "17 35 ",
    ),
    (
        "auto 0 1\n",
        &[],
        "a accepted 0 put 0 reached 0 stored 0 missed 0 exact given 0 unclaimed 0\nb accepted 0 put 0 reached 0 stored 0 missed 0 exact given 0 unclaimed 0\n",
        "",
    ),
];

#[test]
fn scenarios_are_run(rt: HostRuntime) -> Result<(), Fail> {
    let alloc = rt.alloc();
    for (events, frames, lines, stamps) in RUNS {
        let (sink, printed) = if frames.is_empty() {
            run(&rt, alloc, events, &[], Unit::Micros)?
        } else {
            run(&rt, alloc, events, &[trace(alloc, frames)?], Unit::Micros)?
        };
        assert!(rt; printed.as_slice() == lines.as_bytes(), "{events}");
        assert!(rt; times(alloc, &sink)?.as_str() == stamps, "{events}");
    }
    // The frame of 14 bytes, padded, and the lines of `show`.
    let (sink, _) = run(&rt, alloc, ONE_FRAME, &[], Unit::Micros)?;
    let said = hex(alloc, sink.get(24..54).unwrap_or(&[]))?;
    assert!(rt; said.as_str() == "00000000070000003c0000003c0000000200000000020200000000010800");
    assert!(rt; sink.len() == 100 && sink.get(54..) == Some([0; 46].as_slice()));
    let mut shown = VecSink::new(alloc);
    show(
        &Trace::read(alloc, &mut SliceSource::new(&sink))?,
        &mut shown,
    )?;
    let wanted = b"0 60 02:00:00:00:00:02 02:00:00:00:00:01 0800\nframes 1 skipped 0 cut no\n";
    assert!(rt; shown.bytes() == wanted.as_slice());
    let (sink, _) = run(&rt, alloc, ONE_FRAME, &[], Unit::Nanos)?;
    assert!(rt; times(alloc, &sink)?.as_str() == "7000 ");
    // Equal seeds have equal runs.
    let (first, counts) = run(&rt, alloc, "auto 10000 1\n", &[], Unit::Micros)?;
    let (second, others) = run(&rt, alloc, "auto 10000 1\n", &[], Unit::Micros)?;
    assert!(rt;
        first.as_slice() == second.as_slice()
            && counts.as_slice() == others.as_slice()
            && first.len() > 100
    );
    Ok(())
}

#[test]
fn scenarios_are_refused(rt: HostRuntime) -> Result<(), Fail> {
    let alloc = rt.alloc();
    // The line that is cut is the first faulty one.
    let text = format!(in alloc; "{TWO}{ONE_FRAME}")?;
    for length in 0..text.len() {
        let cut = text.as_bytes().get(..length).unwrap_or(&[]);
        let lines = cut.iter().filter(|byte| **byte == b'\n').count();
        if let Err(refusal) = Scenario::read(alloc, cut) {
            assert!(rt;
                matches!(refusal, Refusal::Line { line, .. } if lines.checked_add(1) == Some(line)),
                "{length}"
            );
            assert!(rt; refusal.status() == 1);
        }
    }
    // The network isn't made, and nothing is written.
    let never = "host a 02:00:00:00:00:01 w\nhost b 02:00:00:00:00:02 w link never\nsocket b all\n";
    let mut sinks = [VecSink::new(alloc)];
    let error = played(&rt, alloc, never, &[], Unit::Micros, &mut sinks)?
        .err()
        .expect(&rt, "no link");
    assert!(rt;
        error == BenchError::Plan(PlanError::Init(1, InitError::NoLink)) && error.status() == 1
    );
    assert!(rt;
        format!(in alloc; "{error}")?.as_str() == "E46 Init: E14 NoLink"
            && sinks[0].bytes().is_empty()
    );
    // The second of three sinks fails.
    let text = format!(in alloc; "{TWO}socket b 0806\nsocket a all\n{ONE_FRAME}")?;
    for (most, calls, length) in [(1000, 0, 0), (1, 10, 10), (1, 24, 24), (1, 110, 100)] {
        let mut sinks = [
            FailingSink::new(alloc, most, 1000),
            FailingSink::new(alloc, most, calls),
            FailingSink::new(alloc, most, 1000),
        ];
        let answer = played(&rt, alloc, text.as_str(), &[], Unit::Micros, &mut sinks)?;
        let fails = length < 100;
        assert!(rt; answer.is_err_and(|error| error.status() == 3) == fails);
        assert!(rt; sinks[0].bytes.len() == 24 && sinks[1].bytes.len() == length);
        assert!(rt; sinks[2].bytes.len() == if fails { 0 } else { 24 });
    }
    Ok(())
}
