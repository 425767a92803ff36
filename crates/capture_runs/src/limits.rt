//! A capture with more flows than a run numbers.
use super::runs::{Given, USUAL, check};
use run_driver::samples::{FILE_HEADER, SYN, Sent, frame, record_of, to_9000};
use std::alloc::Global;
use std::test::*;

/// A SYN from each port there is.
fn syns(alloc: Global) -> Result<Vec<u8>, Fail> {
    let mut bytes = FILE_HEADER.to_vec(alloc)?;
    for sport in 0..=u16::MAX {
        let sent = Sent {
            sport,
            ..to_9000(999, SYN, b"")
        };
        bytes.extend_from_slice(&record_of(alloc, &frame(alloc, &sent)?)?)?;
    }
    Ok(bytes)
}

/// The report of 65,535 flows without a byte.
fn report(alloc: Global) -> Result<String, Fail> {
    let mut text = String::new(alloc);
    text.push_str(
        "capture records 65535 tcp 65535 steered 65535 other 0 fragment 0 cut 0 bad 0\n",
    )?;
    text.push_str("app 0 port 9000 written 0 loans 0 copied 0 stopped no\n")?;
    for flow in 0..u16::MAX {
        let line = format!(in alloc; "flow {flow} port 9000 base 1000 bytes 0 fin no end open\n")?;
        text.push_str(&line)?;
    }
    text.push_str("pool fast 0 refill 0 slow 0 empty 0 strays 0\nstatus 10\n")?;
    Ok(text)
}

#[test]
fn replayed_flows_come_to_an_end(rt: HostRuntime) -> Result<(), Fail> {
    let bytes = syns(rt.alloc())?;
    let given = Given {
        setup: USUAL,
        turns: "",
        bytes: &bytes,
    };
    let report = report(rt.alloc())?;
    check(&rt, "too many flows", &given, &[], &report)
}
