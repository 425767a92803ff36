//! Plans and behaviours at the ends of their ranges, in every combination: each run ends, and leaves what plain copying without
//! the refused frames has.
ghost use Rattle.std.specs.Prelude.{◌<◌};

use super::drawn::check_plain;
use super::runs::{Given, Setup};
use frame_headers::{Seen, read_frame};
use run_driver::samples::{PSH_ACK, capture, frame, stream_bytes, to};
use std::alloc::Global;
use std::test::*;
use zr_kinds::{Behaviour, Stopped};

/// How many combinations there are.
const SETUPS: usize = 128;

/// The combination with this number.
fn setup_of(number: usize) -> Setup {
    Setup {
        both: true,
        ring: [1, 64][number % 2],
        buffers: [1, 3][number / 2 % 2],
        size: 1024,
        split: [0, 256][number / 4 % 2],
        how: Behaviour {
            hold: [0, 300][number / 8 % 2],
            leak: [0, 2][number / 16 % 2],
            stray: [0, 16][number / 32 % 2],
            quit: [None, Some(100)][number / 64 % 2],
        },
    }
}

/// Payloads by turns to two ports: 300 bytes to the first, and 60 to the second.
fn frames(alloc: Global) -> Result<Vec<Vec<u8>>, Fail> {
    let stream = stream_bytes(alloc, 100)?;
    let (front, _) = stream.split_at_checked(20).ok_or("too short")?;
    let mut frames = Vec::new(alloc);
    for (first, second) in [(100, 500), (200, 520), (300, 540)] {
        frames.push(frame(alloc, &to(9000, first, PSH_ACK, &stream))?)?;
        frames.push(frame(alloc, &to(9001, second, PSH_ACK, front))?)?;
    }
    Ok(frames)
}

#[test]
fn runs_end_at_the_ends_of_all_ranges(rt: HostRuntime) -> Result<(), Fail> {
    let alloc = rt.alloc();
    let frames = frames(alloc)?;
    let bytes = capture(alloc, &frames)?;
    let seen: Vec<Seen<'_>> = frames.iter().map(|frame| read_frame(frame)).collect(alloc)?;
    assert!(&rt; seen.len() < 100);
    for number in 0..SETUPS {
        let given = Given {
            setup: setup_of(number),
            turns: "",
            bytes: &bytes,
        };
        let name = format!(in alloc; "setup {number}")?;
        let left = check_plain(&rt, &name, &given, &seen)?;
        // The first payload fits, so the first application quits where it is to; the second has too few bytes for that.
        let first = match given.setup.how.quit {
            Some(_) => Stopped::Quit,
            None => Stopped::No,
        };
        let stopped = left.outcome.apps.iter().map(|line| line.stopped);
        assert!(&rt; stopped.eq([first, Stopped::No]), "{name}");
    }
    Ok(())
}
