//! Long texts, each of whose letters tells in what is left.
use super::runs::{Given, Setup, USUAL, check};
use run_driver::samples::{FILE_HEADER, PSH_ACK, frame, record_of, to_9000};
use std::alloc::Global;
use std::process::Abort;
use std::random::RandomSource;
use std::test::*;

/// One buffer, which a payload fills.
const NARROW: Setup = Setup {
    buffers: 1,
    size: 1024,
    ..USUAL
};

/// So many times two turns of the card and one of the application, behind some letters.
fn text_of(alloc: Global, first: &str, groups: u16) -> Result<String, Fail> {
    let mut text = String::new(alloc);
    text.push_str(first)?;
    for _ in 0..groups {
        text.push_str("nn0")?;
    }
    Ok(text)
}

/// A payload, and so many more, each of them sent twice: the stream, and the capture.
fn sent_twice(alloc: Global, more: u16) -> Result<(Vec<u8>, Vec<u8>), Fail> {
    let mut stream = Vec::new(alloc);
    let mut bytes = FILE_HEADER.to_vec(alloc)?;
    let mut seq = 1000u32;
    for place in 0..=more {
        let text = [(place % 251) as u8; 1024];
        let record = record_of(alloc, &frame(alloc, &to_9000(seq, PSH_ACK, &text))?)?;
        if place > 0 {
            bytes.extend_from_slice(&record)?;
        }
        bytes.extend_from_slice(&record)?;
        stream.extend_from_slice(&text)?;
        seq = seq.wrapping_add(1024);
    }
    Ok((stream, bytes))
}

/// The report of such groups: the second frame of each is refused.
fn report(alloc: Global, groups: u16) -> Result<String, Fail> {
    let loans = u32::from(groups) + 1;
    let (records, bytes) = (loans + u32::from(groups), 1024 * loans);
    let mut text = format!(in alloc;
        "capture records {records} tcp {records} steered {records} other 0 fragment 0 cut 0 bad 0
app 0 port 9000 written {bytes} loans {loans} copied 0 stopped no
flow 0 port 9000 base 1000 bytes {bytes} fin no end open
"
    )?;
    for group in 1..=groups {
        let refused = 2 * u32::from(group);
        text.push_str(&format!(in alloc; "refused {refused}\n")?)?;
    }
    text.push_str(&format!(in alloc;
        "pool fast 0 refill {groups} slow 1 empty {groups} strays 0\nstatus 0\n"
    )?)?;
    Ok(text)
}

/// Behind its first letters, in which nothing is done, each group of the text reads two frames, and the buffer comes back behind
/// them: the second is refused. So each letter of a group tells: had it been left out, or been another role's, another frame would
/// have come right behind the return.
fn check_groups(
    rt: &(impl Abort + AllocGlobal + RandomSource),
    first: &str,
    groups: u16,
    letters: usize,
) -> Result<(), Fail> {
    let alloc = rt.alloc();
    let turns = text_of(alloc, first, groups)?;
    assert!(rt; turns.len() == letters);
    let (stream, bytes) = sent_twice(alloc, groups)?;
    let given = Given {
        setup: NARROW,
        turns: &turns,
        bytes: &bytes,
    };
    check(rt, "a long text", &given, &stream, &report(alloc, groups)?)
}

/// The last letter is the 65th. By rounds alone no frame would be refused.
#[test]
fn letters_behind_the_64th_are_played(rt: HostRuntime) -> Result<(), Fail> {
    check_groups(&rt, "00", 21, 65)
}

#[test]
fn all_letters_of_the_longest_text_are_played(rt: HostRuntime) -> Result<(), Fail> {
    check_groups(&rt, "0", 1365, 4096)
}
