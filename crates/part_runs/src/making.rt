ghost use Rattle.std.specs.Prelude.{◌≡◌};
ghost use Rattle.cap_make.specs.GeneratedCapture.{drawn_after};

use cap_make::make;
use std::process::Abort;
use zr_io::{Failed, MemSink};

/// More bytes than any capture here has.
const ROOM: usize = 60_000;

/// The capture of a seed and a number of frames, in a sink whose calls fail as `fails` says.
fn made(
    rt: &(impl Abort + AllocGlobal),
    seed: u32,
    frames: u32,
    fails: &[(u64, usize)],
    outcome: Result<(), Failed>,
) -> MemSink {
    let fails = fails.to_vec(rt.alloc()).expect(rt, "memory");
    let mut sink = MemSink::new(rt.alloc(), ROOM, fails).expect(rt, "memory");
    assert!(rt; make(seed, frames, &mut sink) == outcome);
    sink
}

/// A number for a list of bytes, modulo 2^32.
fn digest(bytes: &[u8]) -> u32 {
    let mut sum = 0u32;
    for &byte in bytes {
        sum = sum.wrapping_mul(31).wrapping_add(u32::from(byte));
    }
    sum
}

/// The capture of seed 7 with so many frames has so many bytes, and `part` from the byte `at` on.
fn expect_part(rt: &(impl Abort + AllocGlobal), frames: u32, len: usize, at: usize, part: &[u8]) {
    let sink = made(rt, 7, frames, &[], Ok(()));
    assert!(rt; sink.bytes().len() == len);
    let behind = sink.bytes().get(at..).unwrap_or(&[]);
    assert!(rt; behind.starts_with(part));
}

/// The capture of a seed with 50 frames has so many bytes, with this digest.
fn expect_digest(rt: &(impl Abort + AllocGlobal), seed: u32, len: usize, sum: u32) {
    let sink = made(rt, seed, 50, &[], Ok(()));
    assert!(rt; sink.bytes().len() == len, "seed {seed}");
    assert!(rt; digest(sink.bytes()) == sum, "seed {seed}");
}

/// The numbers that another program draws with seed 7 are those of the definition by which `make` draws. It does nothing:
/// its contract says it.
fn seed_7_draws_these()
    ensures first { drawn_after 7 ≡ 1025555898 }
    ensures second { drawn_after 1025555898 ≡ 3923423697 }
{}

#[test]
fn numbers_drawn_with_seed_7() {
    seed_7_draws_these();
}

#[test]
fn first_frame(rt: HostRuntime) {
    let header = [
        0xd4, 0xc3, 0xb2, 0xa1, 2, 0, 4, 0, 0, 0, 0, 0, 0, 0, 0, 0, 0, 0, 4, 0, 1, 0, 0, 0,
    ];
    expect_part(&rt, 0, 24, 0, &header);
    let record = [
        0, 0, 0, 0, 0, 0, 0, 0, 0x1e, 4, 0, 0, 0x1e, 4, 0, 0, 2, 0, 0, 0, 0, 2, 2, 0, 0, 0, 0, 1,
        8, 0, 0x45, 0, 4, 0x10, 0, 0, 0x40, 0, 0x40, 6, 0, 0, 10, 0, 0, 1, 10, 0, 0, 2, 0x9c, 0x40,
        0x23, 0x28, 0xff, 0xff, 0xe3, 0x80, 0, 0, 0, 0, 0x50, 24, 0xff, 0xff, 0, 0, 0, 0, 7, 8, 9,
    ];
    expect_part(&rt, 1, 1094, 24, &record);
}

/// Lengths and digests of the captures that another program makes: tools/compare_make.py.
#[test]
fn captures_of_another_program(rt: HostRuntime) {
    expect_digest(&rt, 7, 53_724, 3_134_627_900);
    expect_digest(&rt, 0, 53_824, 3_463_796_935);
    expect_digest(&rt, u32::MAX, 53_824, 3_079_434_984);
    expect_digest(&rt, 123_456_789, 53_924, 4_282_037_776);
}

#[test]
fn sink_that_fails_at_the_second_record(rt: HostRuntime) {
    let whole = made(&rt, 7, 2, &[], Ok(()));
    let sink = made(&rt, 7, 2, &[(3, 10)], Err(Failed));
    assert!(rt; sink.bytes().len() == 1104);
    assert!(rt; whole.bytes().starts_with(sink.bytes()));
}
