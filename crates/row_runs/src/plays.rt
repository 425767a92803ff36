//! Plays a row.
use crate::case::Case;
use crate::changes::Change;
use crate::judge::judge;
use crate::row::Row;
use crate::told::Told;
use run_driver::{Given, Left, run};
use std::alloc::Global;
use std::random::RandomSource;
use std::sync::Wait;
use std::test::Fail;
use std::thread::Threads;

/// How many bytes more than wanted go to a flow or the sink before they are full.
const SPARE: usize = 200;

/// How many bytes go out where not all is said.
const SENT: usize = 100_000;

/// How many bytes a made capture has at most.
const MADE: usize = 2_500_000;

/// The words of a line. One that is two quotes is empty.
fn split_words(alloc: Global, line: &str) -> Result<Vec<&str>, Fail> {
    let mut words = Vec::new(alloc);
    for word in line.split_ascii_whitespace() {
        words.push(if word == "\"\"" { "" } else { word })?;
    }
    Ok(words)
}

/// A call of these words where nothing fails.
fn plain_call<'a>(words: &'a [&'a str], bytes: &'a [u8]) -> Given<'a> {
    Given {
        words,
        bytes,
        most: SENT,
        source_fails: &[],
        shelf_fails: &[],
        sink_fails: &[],
        stream_room: 0,
        sink_room: SENT,
    }
}

/// The capture that `make` writes by these words, and then these bytes.
fn with_made(
    rt: &(impl AllocGlobal + RandomSource + Threads + Wait + Sync),
    made: &str,
    bytes: &[u8],
) -> Result<Vec<u8>, Fail> {
    let mut words = split_words(rt.alloc(), made)?;
    words.insert(0, "make")?;
    let given = Given {
        sink_room: MADE,
        ..plain_call(&words, &[])
    };
    let Left { sent, .. } = run(rt, &given)?;
    let mut sent = sent;
    sent.extend_from_slice(bytes)?;
    Ok(sent)
}

/// How many bytes the longest stream has that is wanted.
fn longest(row: &Row<'_>) -> usize {
    let mut most = 0;
    for stream in row.wanted.streams.iter() {
        most = stream.bytes.len().max(most);
    }
    most
}

/// Plays a row, and tells what differs.
pub fn play_row(
    rt: &(impl AllocGlobal + RandomSource + Threads + Wait + Sync),
    row: &Row<'_>,
    told: &mut Told,
) -> Result<(), Fail> {
    if !row.is_said() {
        told.add(row.name, "the row", "what goes out", "nothing of it")?;
    }
    let input = &row.input;
    match input.made {
        Some(made) => play_words(rt, row, &with_made(rt, made, &input.bytes)?, told),
        None => play_words(rt, row, &input.bytes, told),
    }
}

/// Plays it by each line of words.
fn play_words(
    rt: &(impl AllocGlobal + RandomSource + Threads + Wait + Sync),
    row: &Row<'_>,
    bytes: &[u8],
    told: &mut Told,
) -> Result<(), Fail> {
    for words in row.input.words.iter() {
        play_most(rt, row, bytes, words, told)?;
    }
    Ok(())
}

/// Plays it with each number of bytes that a call of the source gives.
fn play_most(
    rt: &(impl AllocGlobal + RandomSource + Threads + Wait + Sync),
    row: &Row<'_>,
    bytes: &[u8],
    words: &str,
    told: &mut Told,
) -> Result<(), Fail> {
    for most in row.input.most.iter() {
        play_changes(rt, row, bytes, words, *most, told)?;
    }
    Ok(())
}

/// Plays it with each change.
fn play_changes(
    rt: &(impl AllocGlobal + RandomSource + Threads + Wait + Sync),
    row: &Row<'_>,
    bytes: &[u8],
    words: &str,
    most: usize,
    told: &mut Told,
) -> Result<(), Fail> {
    for (before, change) in row.input.changes.iter().enumerate() {
        let name = format!(in rt.alloc(); "{} ({words}, most {most}, play {before})", row.name)?;
        match Case::of_row(rt.alloc(), row, bytes, change) {
            Ok(case) => play(rt, row, &name, words, most, &case, told)?,
            Err(wrong) => told.add(&name, "the row", "sense", wrong.0)?,
        }
    }
    Ok(())
}

/// Plays one case of it.
fn play(
    rt: &(impl AllocGlobal + RandomSource + Threads + Wait + Sync),
    row: &Row<'_>,
    name: &str,
    words: &str,
    most: usize,
    case: &Case,
    told: &mut Told,
) -> Result<(), Fail> {
    let words = split_words(rt.alloc(), words)?;
    let given = Given {
        most,
        source_fails: &case.source_fails,
        shelf_fails: &row.input.shelf_fails,
        sink_fails: &case.sink_fails,
        stream_room: longest(row).saturating_add(SPARE),
        ..plain_call(&words, &case.bytes)
    };
    let left = run(rt, &given)?;
    if row.wanted.is_legal {
        play_check(rt, name, &left.sent, told)?;
    }
    judge(rt.alloc(), told, name, &row.wanted, case, left)
}

/// `check` answers 0 of the record behind the report, and 14 of it without its last event.
fn play_check(
    rt: &(impl AllocGlobal + RandomSource + Threads + Wait + Sync),
    name: &str,
    sent: &[u8],
    told: &mut Told,
) -> Result<(), Fail> {
    let text = str::from_utf8(sent).unwrap_or("");
    let (_, record) = text.split_once("\nrun ").unwrap_or(("", ""));
    let record = record.strip_suffix("\nend\n").unwrap_or("");
    let (fewer, _) = record.rsplit_once('\n').unwrap_or(("", ""));
    let whole = check(rt, record)?;
    told.number(name, "status of the record", 0, u64::from(whole))?;
    let short = check(rt, fewer)?;
    told.number(
        name,
        "status of the record without an event",
        14,
        u64::from(short),
    )
}

/// What `check` answers of a record of which these lines stand between `run` and `end`.
fn check(
    rt: &(impl AllocGlobal + RandomSource + Threads + Wait + Sync),
    lines: &str,
) -> Result<u8, Fail> {
    let record = format!(in rt.alloc(); "run {lines}\nend\n")?;
    let given = plain_call(&["check"], record.as_bytes());
    Ok(run(rt, &given)?.status)
}
