//! Tells what differs in what a play left.
use crate::case::Case;
use crate::told::Told;
use crate::wanted::Wanted;
use run_driver::{FLOWS, Left};
use std::alloc::Global;
use std::test::Fail;
use zr_io::MemShelf;

/// Tells each thing in which what is left is not what a row wants.
pub fn judge(
    alloc: Global,
    told: &mut Told,
    name: &str,
    wanted: &Wanted<'_>,
    case: &Case,
    left: Left,
) -> Result<(), Fail> {
    if let Some(sent) = &case.sent {
        judge_sent(told, name, sent, &left.sent)?;
    }
    judge_words(told, name, wanted, &left.sent)?;
    told.number(
        name,
        "status",
        u64::from(case.status),
        u64::from(left.status),
    )?;
    for (app, shelf) in left.shelves.iter().enumerate() {
        judge_shelf(alloc, told, name, wanted, app, shelf)?;
    }
    if wanted.is_unread && left.next.as_slice() != case.bytes.as_slice() {
        told.add(name, "source", "nothing read", "less")?;
    }
    judge_board(alloc, told, name, wanted.buffers, left.free)
}

/// What goes out has to be this. The first line that differs is told.
fn judge_sent(told: &mut Told, name: &str, wanted: &[u8], came: &[u8]) -> Result<(), Fail> {
    if wanted == came {
        return Ok(());
    }
    let came = str::from_utf8(came).unwrap_or("no text");
    let mut came_lines = came.lines();
    for line in str::from_utf8(wanted).unwrap_or("bytes").lines() {
        let other = came_lines.next().unwrap_or("no line more");
        if line != other {
            return told.add(name, "goes out", line, other);
        }
    }
    let more = came_lines.next().unwrap_or("other bytes");
    told.add(name, "goes out", "no more", more)
}

/// These words stand in a line that goes out, and those in none.
fn judge_words(told: &mut Told, name: &str, wanted: &Wanted<'_>, came: &[u8]) -> Result<(), Fail> {
    let text = str::from_utf8(came).unwrap_or("");
    for words in wanted.has.iter() {
        if !stand_in(text, words) {
            told.add(name, "words", words, "none such")?;
        }
    }
    for words in wanted.lacks.iter() {
        if stand_in(text, words) {
            told.add(name, "words", "none such", words)?;
        }
    }
    Ok(())
}

/// Whether these words stand in a line.
fn stand_in(text: &str, words: &str) -> bool {
    for line in text.lines() {
        if has_words(line, words) {
            return true;
        }
    }
    false
}

/// Whether these words stand in the line, between spaces or its ends.
fn has_words(line: &str, words: &str) -> bool {
    let mut rest = line;
    for _ in 0..=line.len() {
        if let Some(behind) = rest.strip_prefix(words) {
            if behind.is_empty() || behind.starts_with(' ') {
                return true;
            }
        }
        match rest.split_once(' ') {
            Some((_, behind)) => rest = behind,
            None => return false,
        }
    }
    false
}

/// A shelf has the streams of its application, and nothing else.
fn judge_shelf(
    alloc: Global,
    told: &mut Told,
    name: &str,
    wanted: &Wanted<'_>,
    app: usize,
    shelf: &MemShelf,
) -> Result<(), Fail> {
    for flow in 0..FLOWS {
        let (stream, came) = (wanted.stream(app, flow), shelf.flow(flow));
        if stream != came {
            let what = format!(in alloc; "flow {flow} of application {app}, in bytes")?;
            let (wanted, came) = (stream.len(), came.len());
            let wanted = format!(in alloc; "{wanted}")?;
            let came = format!(in alloc; "{came}, or others")?;
            told.add(name, &what, &wanted, &came)?;
        }
    }
    Ok(())
}

/// There is a board just where one is wanted, and each of its buffers is free once.
fn judge_board(
    alloc: Global,
    told: &mut Told,
    name: &str,
    buffers: Option<u32>,
    free: Option<Vec<u32>>,
) -> Result<(), Fail> {
    match (buffers, free) {
        (None, None) => Ok(()),
        (None, Some(_)) => told.add(name, "board", "none", "one"),
        (Some(_), None) => told.add(name, "board", "one", "none"),
        (Some(buffers), Some(mut free)) => {
            free.sort()?;
            let all: Vec<u32> = (0..buffers).collect(alloc)?;
            if free.as_slice() == all.as_slice() {
                return Ok(());
            }
            told.add(name, "board", "each buffer free once", "others")
        }
    }
}
