//! The words that have a reading, and what it is; and those that have none, and what is wrong with them. A line has words, and
//! behind `=>` what is told of them.
use command_words::{Command, Make, Replay, USAGE, read_words, what_is_wrong};
use std::alloc::Global;
use std::process::Abort;
use std::test::*;
use zr_kinds::Options;

/// A number behind its name, where it isn't the usual one.
fn push(text: &mut String, name: &str, number: u64, usual: u64) -> Result<(), Fail> {
    if number != usual {
        let part = format!(in *text.allocator(); " {name} {number}")?;
        text.push_str(&part)?;
    }
    Ok(())
}

/// The ports, and each area by its number of buffers and their size, where there isn't the usual one.
fn ports_and_areas(alloc: Global, replay: &Replay<'_>) -> Result<String, Fail> {
    let mut text = String::new(alloc);
    for port in &replay.ports {
        text.push_str(&format!(in alloc; " {port}")?)?;
    }
    if replay.areas.as_slice() == [(64, 4096)].as_slice() {
        return Ok(text);
    }
    for (buffers, size) in &replay.areas {
        text.push_str(&format!(in alloc; " {buffers}:{size}")?)?;
    }
    Ok(text)
}

/// What a replay is told, but for what is as usual.
fn replay_told(alloc: Global, replay: &Replay<'_>) -> Result<String, Fail> {
    let mut text = ports_and_areas(alloc, replay)?;
    let Options {
        ring,
        split,
        how,
        polled,
        forward,
        events,
    } = replay.options;
    push(&mut text, "ring", u64::from(ring), 64)?;
    push(&mut text, "split", u64::from(split), 0)?;
    push(&mut text, "hold", u64::from(how.hold), 0)?;
    push(&mut text, "leak", u64::from(how.leak), 0)?;
    push(&mut text, "stray", u64::from(how.stray), 0)?;
    push(&mut text, "quit", how.quit.unwrap_or(u64::MAX), u64::MAX)?;
    push(&mut text, "polled", u64::from(polled), 0)?;
    push(
        &mut text,
        "forward",
        forward.map_or(99, |delay| u64::from(delay)),
        99,
    )?;
    push(&mut text, "events", u64::from(events), 0)?;
    if let Some(turns) = replay.turns {
        text.push_str(" turns ")?;
        text.push_str(turns)?;
    }
    Ok(text)
}

/// What words are read as.
fn told(alloc: Global, words: &[&str]) -> Result<String, Fail> {
    match read_words(alloc, words)? {
        Some(Command::Replay(replay)) => replay_told(alloc, &replay),
        Some(Command::Make(Make { seed, frames })) => {
            Ok(format!(in alloc; " make {seed} {frames}")?)
        }
        Some(Command::Check) => Ok(format!(in alloc; " check")?),
        None => Ok(format!(in alloc; " nothing")?),
    }
}

/// The words of each line are read so.
fn expect(rt: &(impl Abort + AllocGlobal), lines: &str) -> Result<(), Fail> {
    for line in lines.lines() {
        let (words, wanted) = line.split_once(" =>").ok_or("nothing is wanted")?;
        let words: Vec<&str> = words.split(' ').collect(rt.alloc())?;
        let told = told(rt.alloc(), &words)?;
        assert!(rt; told.as_str() == wanted, "{line}:{told}");
    }
    Ok(())
}

#[test]
fn ports_are_read_in_their_order(rt: HostRuntime) -> Result<(), Fail> {
    let lines = "\
replay 9000 => 9000
replay 9001 9000 => 9001 9000
replay 09000 => 9000
replay 000000000000065535 => 65535
replay -- 9000 => 9000
replay 9000 -- 9001 => 9000 9001
replay 1 2 3 4 5 6 7 8 => 1 2 3 4 5 6 7 8";
    expect(&rt, lines)
}

/// `make` and `check` too.
#[test]
fn the_other_commands_are_read(rt: HostRuntime) -> Result<(), Fail> {
    let lines = "\
make 7 2000 => make 7 2000
make 0 0 => make 0 0
make 4294967295 1000000 => make 4294967295 1000000
make -- 007 000000000000000001 => make 7 1
make 1 -- 2 => make 1 2
make 1 2 -- => make 1 2
check => check";
    expect(&rt, lines)
}

#[test]
fn numbers_of_options_are_read(rt: HostRuntime) -> Result<(), Fail> {
    let lines = "\
replay --ring 1 9 => 9 ring 1
replay --ring 256 9 => 9 ring 256
replay --split 0 9 => 9
replay --split 256 9 => 9 split 256
replay --hold=4096 9 => 9 hold 4096
replay --leak=4096 9 => 9 leak 4096
replay --stray=16 9 => 9 stray 16
replay --quit=0 9 => 9 quit 0
replay --quit 999999999999999999 9 => 9 quit 999999999999999999
replay --size=2048 9 --ring 7 8 --hold=3 => 9 8 64:2048 ring 7 hold 3
replay --ring 7 -- 9 => 9 ring 7";
    expect(&rt, lines)
}

/// Each way of an application, by what stands for it.
#[test]
fn polling_and_forwarding_are_read(rt: HostRuntime) -> Result<(), Fail> {
    let lines = "\
replay --polled 9000 => 9000 polled 1
replay 9000 --polled => 9000 polled 1
replay --polled -- 9000 => 9000 polled 1
replay --split=64 --polled --ring 7 9 => 9 ring 7 split 64 polled 1
replay --forward 0 9000 => 9000 forward 0
replay --forward=63 9000 => 9000 forward 63
replay 9000 --forward 0063 => 9000 forward 63
replay --turns n --hold=1 9000 => 9000 hold 1 turns n
replay --quit=1 --leak=0 --stray=0 9000 => 9000 quit 1";
    expect(&rt, lines)
}

/// The record of a run is asked for by a flag, before or behind its turns, whose letters are of applications that are there. Options
/// and flags stand before, between and behind the ports, and behind `--` are ports alone.
#[test]
fn turns_and_events_are_read(rt: HostRuntime) -> Result<(), Fail> {
    let lines = "\
replay --turns n 9000 => 9000 turns n
replay --turns=nn0n 9000 => 9000 turns nn0n
replay 9 8 --turns 1n0 => 9 8 turns 1n0
replay --turns 7 1 2 3 4 5 6 7 8 => 1 2 3 4 5 6 7 8 turns 7
replay --turns n --events 9000 => 9000 events 1 turns n
replay --events --turns=n0 9000 => 9000 events 1 turns n0
replay 9000 --hold 1 --events --turns 0 => 9000 hold 1 events 1 turns 0
replay --turns=n --split=64 9000 --events => 9000 split 64 events 1 turns n
replay --size=1024 9000 --events --turns 2n 9001 -- 9002 => 9000 9001 9002 64:1024 events 1 turns 2n";
    expect(&rt, lines)
}

/// Each area by its number of buffers and their size.
#[test]
fn areas_are_read(rt: HostRuntime) -> Result<(), Fail> {
    let lines = "\
replay --buffers 1 9 => 9 1:4096
replay 9 --buffers=4096 => 9 4096:4096
replay --size=1024 9 => 9 64:1024
replay --size=0016384 9 => 9 64:16384
replay --size 65536 9 => 9 64:65536
replay --buffers=1024 --size=65536 9 => 9 1024:65536
replay --areas 1:1024 9 => 9 1:1024
replay --areas=4096:1024 9 => 9 4096:1024
replay --areas=2:1024,1:2048 9 => 9 2:1024 1:2048
replay 9 --areas 01:01024,1:1024 => 9 1:1024 1:1024
replay --areas=1:65536,2:1024,3:4096 9 => 9 1:65536 2:1024 3:4096
replay --areas=1023:65536,1:16384,1:16384,2:16384 9 => 9 1023:65536 1:16384 1:16384 2:16384
replay --areas 1024:1024,1024:1024,1024:2048,1024:1024 9 => 9 1024:1024 1024:1024 1024:2048 1024:1024";
    expect(&rt, lines)
}

/// Words have no reading, and what is wrong with them is told, so, where it is said.
fn refuse(rt: &(impl Abort + AllocGlobal), words: &[&str], wanted: &str) -> Result<(), Fail> {
    let alloc = rt.alloc();
    assert!(rt;
        read_words(alloc, words)?.is_none(),
        "{words:?} have a reading"
    );
    let told = match what_is_wrong(words) {
        Some(wrong) => format!(in alloc; "{wrong}")?,
        None => String::new(alloc),
    };
    let wanted = if wanted.is_empty() {
        told.as_str()
    } else {
        wanted
    };
    assert!(rt;
        !told.is_empty() && told.as_str() == wanted,
        "{words:?}: {told}"
    );
    Ok(())
}

/// The words of each line have no reading.
fn refuse_all(rt: &(impl Abort + AllocGlobal), lines: &str) -> Result<(), Fail> {
    for line in lines.lines() {
        let (words, wanted) = line.split_once(" => ").unwrap_or((line, ""));
        let words: Vec<&str> = words.split(' ').collect(rt.alloc())?;
        refuse(rt, &words, wanted)?;
    }
    Ok(())
}

#[test]
fn other_words_have_no_reading(rt: HostRuntime) -> Result<(), Fail> {
    let lines = "\
replay 9000 9000
replay 65536
replay 0000000000000009000
replay\x20
replay +9000
replay -9000
replay 9000 -
replay 9000x
replay ٩
replay --help
replay -h
replay help
replay --version
replay --port=9000
replay --=9000
replay --sizes 1024 9000
replay 9000 -- --
replay -- -9000
help
-- replay 9000
9000
Replay 9000
check --
check\x20
check check
check --events
-- check
checks
make
make 7 0 0
make 7 -- 0 --
make 4294967296 0
make 0 1000001
make 0000000000000000007 0
make 7 -0
make --seed=7 0
make --polled 7 0
check --polled
make 7 ٩";
    refuse_all(&rt, lines)?;
    refuse(&rt, &["replay", "--turns", "n n", "9000"], "")?;
    refuse(&rt, &[], "there is no command")
}

/// A flag out of its form, a delay out of range, two ways at once, whichever their values, and events without turns.
#[test]
fn other_ways_have_no_reading(rt: HostRuntime) -> Result<(), Fail> {
    let lines = "\
replay --polled --polled 9000
replay --polled 9000 --polled
replay --polled= 9000
replay --polled=x 9000
replay --polled=true 9000
replay --Polled 9000
replay --poll 9000
replay -polled 9000
replay --polled
replay polled 9000
replay -- --polled 9000
replay 9000 -- --polled
replay --hold --polled 9000
replay --polled yes 9000
replay --polled --turns n 9000
replay --polled --hold 0 9000
replay --hold=1 9000 --polled
replay --polled --leak 0 9000
replay --polled --stray 0 9000
replay --polled --quit 9 9000
replay --polled --forward 0 9000
replay --forward 0 --polled 9000
replay --forward 64 9000
replay --forward -1 9000
replay --forward= 9000
replay --forward 9000
replay --forward=1 --forward=1 9000
replay --forward=1 --hold=0 9000
replay --turns=n --forward=1 9000
replay --forward=1 --leak=0 --stray=0 --quit=0 9000
replay --events 9000
replay --hold=0 --events 9000
replay --events --polled 9000
replay --events --polled --turns=n 9000
replay --forward=0 --events 9000
replay --events --turns=n 9000 --events
replay --events=1 --turns=n 9000
replay --turns --events 9000
replay --turns=n 9000 -- --events";
    refuse_all(&rt, lines)
}

#[test]
fn other_areas_have_no_reading(rt: HostRuntime) -> Result<(), Fail> {
    let lines = "\
replay --areas  9000
replay --areas 1024 9000
replay --areas 0:1024 9000
replay --areas 4097:1024 9000
replay --areas 1:512 9000
replay --areas 1:1025 9000
replay --areas 1:131072 9000
replay --areas +1:1024 9000
replay --areas 1:1024:1 9000
replay --areas 1:1024, 9000
replay --areas ,1:1024 9000
replay --areas 1:1024,1:1024,1:1024,1:1024,1:1024 9000
replay --areas 2048:1024,2049:1024 9000
replay --areas=1023:65536,1:16384,1:16384,3:16384 9000
replay --areas 1:1024 --size 1024 9000
replay --buffers=64 9000 --areas=1:1024
replay --areas=1:1024 --areas=1:1024 9000";
    refuse_all(&rt, lines)
}

/// Out of range, twice, without a value, or out of form: a flag with a value, an abbreviation, and a single dash.
#[test]
fn other_options_have_no_reading(rt: HostRuntime) -> Result<(), Fail> {
    let lines = "\
replay --buffers 0 9000
replay --buffers 4097 9000
replay --buffers  9000
replay --buffers +64 9000
replay --buffers 0000000000000000064 9000
replay --size 0 9000
replay --size 512 9000
replay --size 1000 9000
replay --size 1025 9000
replay --size 131072 9000
replay --buffers=1025 --size=65536 9000
replay --buffers=4096 --size=65536 9000
replay --ring 0 9000
replay --ring 257 9000
replay --split 257 9000
replay --hold 4097 9000
replay --leak 4097 9000
replay --stray 17 9000
replay --stray=-1 9000
replay --quit 1000000000000000000 9000
replay --quit none 9000
replay --turns= 9000
replay --turns 1 9000
replay --turns n1 9000
replay --turns 8 1 2 3 4 5 6 7 8
replay --turns N 9000
replay --turns n/ 9000
replay --turns n\u{0660} 9000
replay --ring 7 --ring 7 9000
replay --ring=7 9000 --ring 8
replay 9000 --ring
replay -- --ring 7 9000
replay --Ring 7 9000
replay -ring 7 9000
replay --turns=n --events=--size 9000
replay --s=1024 9000
replay --siz=1024 9000
replay --size -- 9000
replay --size --ring=7 9000
replay -s 1024 9000";
    refuse_all(&rt, lines)
}

#[test]
fn turns_have_at_most_4096_characters(rt: HostRuntime) -> Result<(), Fail> {
    let mut turns = String::new(rt.alloc());
    for _ in 0..4096 {
        turns.push('n')?;
    }
    let words = ["replay", "--turns", turns.as_str(), "9000"];
    assert!(&rt; read_words(rt.alloc(), &words)?.is_some());
    turns.push('n')?;
    refuse(&rt, &["replay", "--turns", turns.as_str(), "9000"], "")
}

#[test]
fn the_first_wrong_word_is_named(rt: HostRuntime) -> Result<(), Fail> {
    let lines = "\
--help => '--help' is no command
replay => there is no port
replay -- => there is no port
replay --ring 9000 => --ring takes a number from 1 to 256, not '9000'
replay --size=1000 9000 => --size takes a power of two from 1024 to 65536, not '1000'
replay --size=1024=2 9000 => --size takes a power of two from 1024 to 65536, not '1024=2'
replay --size -5 9000 => --size wants a value
replay --sizes=1 9000 => there is no option '--sizes=1'
replay -h 9000 => there is no option '-h'
replay --hold 1 --hold=1 1 => --hold stands twice
replay 9000 --hold => --hold wants a value
replay --hold --leak 9000 => --hold wants a value
replay --polled 1 --polled => --polled stands twice
replay --polled= 1 => --polled takes no value
replay --polled=x 1 => --polled takes no value
replay --forward 64 1 => --forward takes a number from 0 to 63, not '64'
replay --polled --hold 0 1 => --polled stands without --hold
replay --quit=9 --turns=n --forward=0 1 => --forward stands without --turns
replay --forward=0 --polled 1 => --polled stands without --forward
replay --events 1 => --events stands only with --turns
replay --forward=0 --events 1 => --events stands only with --turns
replay --events= 1 => --events takes no value
replay 0 => '0' is no port, a number from 1 to 65535
replay -- --hold => '--hold' is no port, a number from 1 to 65535
replay --size=1024 -- --events => '--events' is no port, a number from 1 to 65535
replay 9000 09000 => port 09000 stands twice
replay 1 2 3 4 5 6 7 8 9 => '9' is a ninth port, and there may be 8
replay --buffers 4096 --size 65536 1 => --buffers times --size is above 67108864
replay --areas 1:1000 1 => --areas takes parts COUNT:SIZE, a number from 1 to 4096 and a power of two from 1024 to 65536, not '1:1000'
replay --areas 1:1024,5000:1024 1 => --areas takes parts COUNT:SIZE, a number from 1 to 4096 and a power of two from 1024 to 65536, not '5000:1024'
replay --areas 1:1024,1:1024,1:1024,1:1024,1:2048 1 => --areas takes 1 to 4 areas as COUNT:SIZE, with commas between, not '1:1024,1:1024,1:1024,1:1024,1:2048'
replay --areas 4096:1024,1:1024 1 => --areas has more than 4096 buffers, or more than 67108864 bytes, together
replay --areas 1:1024 --buffers 64 1 => --areas stands without --buffers and --size
replay --turns n1 1 => --turns takes 1 to 4096 letters n and digits of the ports, counted from 0, not 'n1'
make 7 => make wants two numbers
make 4294967296 1 => make takes a seed from 0 to 4294967295, not '4294967296'
make 1 1000001 => make takes 0 to 1000000 frames, not '1000001'
make 7 1 --polled => make takes no option, as '--polled'
mak 1 1 => 'mak' is no command
check it => check takes no word more, as 'it'";
    refuse_all(&rt, lines)
}

/// Usage has twelve lines or fewer, of no more than 100 characters.
#[test]
fn usage_is_short(rt: HostRuntime) {
    assert!(&rt; USAGE.lines().count() <= 12);
    assert!(&rt; USAGE.lines().all(|line| line.len() <= 100));
}
