//! One capture under every short text of turns.
use super::runs::{EAGER, Given, Setup, USUAL, check};
use run_driver::samples::{PSH_ACK, capture_of, stream_bytes, to};
use std::alloc::Global;
use std::process::Abort;
use std::random::RandomSource;
use std::test::*;
use zr_kinds::Behaviour;

/// Quits after 100 bytes, and keeps two loans until then.
const QUITTING: Behaviour = Behaviour {
    leak: 2,
    quit: Some(100),
    ..EAGER
};

/// The text of a number in base 3, with so many digits.
fn text_of(alloc: Global, number: u32, digits: u32) -> Result<String, Fail> {
    let mut text = String::new(alloc);
    let mut left = number;
    for _ in 0..digits {
        text.push(['n', '0', '1'][(left % 3) as usize])?;
        left /= 3;
    }
    Ok(text)
}

/// The report where nobody quits.
const READ: &str = "\
capture records 4 tcp 4 steered 4 other 0 fragment 0 cut 0 bad 0
app 0 port 9000 written 160 loans 2 copied 0 stopped no
app 1 port 9001 written 160 loans 2 copied 0 stopped no
flow 0 port 9000 base 100 bytes 160 fin no end open
flow 1 port 9001 base 100 bytes 160 fin no end open
pool fast 0 refill 0 slow 1 empty 0 strays 0
status 0
";

/// The report where both quit.
const QUIT: &str = "\
capture records 4 tcp 4 steered 4 other 0 fragment 0 cut 0 bad 0
app 0 port 9000 written 100 loans 2 copied 0 stopped quit
app 1 port 9001 written 100 loans 2 copied 0 stopped quit
flow 0 port 9000 base 100 bytes 100 fin no end open
flow 1 port 9001 base 100 bytes 100 fin no end open
pool fast 0 refill 0 slow 1 empty 0 strays 0
status 0
";

/// The text comes before the rounds and changes nothing of what is left.
fn check_text(
    rt: &(impl Abort + AllocGlobal + RandomSource),
    bytes: &[u8],
    turns: &str,
    stream: &[u8],
) -> Result<(), Fail> {
    let setup = Setup {
        both: true,
        ..USUAL
    };
    let given = Given {
        setup,
        turns,
        bytes,
    };
    check(rt, turns, &given, stream, READ)?;
    let (front, _) = stream.split_at_checked(100).ok_or("too short")?;
    let given = Given {
        setup: Setup {
            how: QUITTING,
            ..setup
        },
        ..given
    };
    check(rt, turns, &given, front, QUIT)
}

/// Two payloads to each of two ports, by turns of up to four roles.
#[test]
fn no_text_changes_what_is_left(rt: HostRuntime) -> Result<(), Fail> {
    let alloc = rt.alloc();
    let stream = stream_bytes(alloc, 160)?;
    let (front, rest) = stream.split_at_checked(80).ok_or("too short")?;
    let sent = [
        to(9000, 100, PSH_ACK, front),
        to(9001, 100, PSH_ACK, front),
        to(9000, 180, PSH_ACK, rest),
        to(9001, 180, PSH_ACK, rest),
    ];
    let bytes = capture_of(alloc, &sent)?;
    for (digits, texts) in [(0, 1), (1, 3), (2, 9), (3, 27), (4, 81)] {
        for number in 0..texts {
            let turns = text_of(alloc, number, digits)?;
            check_text(&rt, &bytes, &turns, &stream)?;
        }
    }
    Ok(())
}
