//! Reports, as they are written.
use std::test::*;
use top_call::{Report, Unreported, answer, write_report};
use zr_io::MemSink;
use zr_kinds::{AppLine, FlowEnd, FlowLine, PoolStats, Stopped, Tally};

const LARGEST_TALLY: Tally = Tally {
    records: 4_294_967_295,
    tcp: 6,
    steered: 5,
    other: 4,
    fragment: 3,
    cut: 2,
    bad: 10,
};

const LARGEST_POOL: PoolStats = PoolStats {
    fast: 18_446_744_073_709_551_615,
    refill: 2,
    slow: 30,
    empty: 3,
    strays: 40,
};

const fn app(stopped: Stopped) -> AppLine {
    AppLine {
        port: 9000,
        written: 5,
        loans: 1,
        copied: 0,
        stopped,
    }
}

const LARGEST_APP: AppLine = AppLine {
    port: 65535,
    written: 18_446_744_073_709_551_615,
    loans: 12,
    copied: 11,
    stopped: Stopped::Quit,
};

const fn flow(end: FlowEnd) -> FlowLine {
    FlowLine {
        port: 9000,
        base: 1001,
        bytes: 5,
        fin: true,
        end,
    }
}

const LARGEST_FLOW: FlowLine = FlowLine {
    port: 1,
    base: 4_294_967_295,
    bytes: 0,
    fin: false,
    end: FlowEnd::Going,
};

/// The report of these, of three applications, four flows and three refused frames.
const LINES: &[u8] = b"\
capture records 4294967295 tcp 6 steered 5 other 4 fragment 3 cut 2 bad 10
app 0 port 65535 written 18446744073709551615 loans 12 copied 11 stopped quit
app 1 port 9000 written 5 loans 1 copied 0 stopped write
app 2 port 9000 written 5 loans 1 copied 0 stopped memory
flow 0 port 9000 base 1001 bytes 5 fin yes end whole
flow 1 port 1 base 4294967295 bytes 0 fin no end open
flow 2 port 9000 base 1001 bytes 5 fin yes end short
flow 3 port 9000 base 1001 bytes 5 fin yes end reset
refused 2
refused 16
refused 4294967295
pool fast 18446744073709551615 refill 2 slow 30 empty 3 strays 40
status 11
";

#[test]
fn lines_are_numbered_from_0(rt: HostRuntime) -> Result<(), Fail> {
    let mut sink = MemSink::new(rt.alloc(), 1000, Vec::new(rt.alloc()))?;
    let report = Report {
        tally: &LARGEST_TALLY,
        apps: &[LARGEST_APP, app(Stopped::Write), app(Stopped::Memory)],
        flows: &[
            flow(FlowEnd::Whole),
            LARGEST_FLOW,
            flow(FlowEnd::Short),
            flow(FlowEnd::Reset),
        ],
        refused: &[2, 16, 4_294_967_295],
        pool: &LARGEST_POOL,
        status: 11,
    };
    assert!(rt; write_report(rt.alloc(), &report, &mut sink).is_ok());
    assert!(rt; sink.bytes() == LINES);
    Ok(())
}

#[test]
fn an_answer_tells_a_lost_report(rt: HostRuntime) {
    assert!(rt; answer(11, Ok(())) == 11);
    assert!(rt; answer(11, Err(Unreported::Memory)) == 1);
    assert!(rt; answer(11, Err(Unreported::Write)) == 9);
    assert!(rt; answer(1, Err(Unreported::Write)) == 1);
}
