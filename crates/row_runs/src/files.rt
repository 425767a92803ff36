//! Reads and plays the rows of a file.
use crate::plays::play_row;
use crate::row::Row;
use crate::told::Told;
use crate::wrong::Wrong;
use std::random::RandomSource;
use std::sync::Wait;
use std::test::Fail;
use std::thread::Threads;

/// Plays each row of a text.
pub fn play_all(
    rt: &(impl AllocGlobal + RandomSource + Threads + Wait + Sync),
    file: &str,
    text: &str,
    told: &mut Told,
) -> Result<(), Fail> {
    let alloc = rt.alloc();
    let mut row = Row::new(alloc, "", false);
    for (before, line) in text.lines().enumerate() {
        let name = line.strip_prefix("row ");
        if let Some(name) = name.or(line.strip_prefix("part ")) {
            end(rt, &mut row, told)?;
            row = Row::new(alloc, name, line.starts_with("row "));
        } else if let Err(wrong) = read_line(&mut row, text, line) {
            let number = before.saturating_add(1);
            let what = format!(in alloc; "line {number} of {file}, {}", wrong.0)?;
            told.add(row.name, &what, "another", line)?;
        }
    }
    end(rt, &mut row, told)
}

/// Reads a line of a row, of this text.
fn read_line<'a>(row: &mut Row<'a>, text: &'a str, line: &'a str) -> Result<(), Wrong> {
    match line.strip_prefix("use ") {
        Some(name) => row.read_part(text, name),
        None => row.read(line),
    }
}

/// Plays the row that ends here, if one does, and then another begins.
fn end(
    rt: &(impl AllocGlobal + RandomSource + Threads + Wait + Sync),
    row: &mut Row<'_>,
    told: &mut Told,
) -> Result<(), Fail> {
    if row.is_played {
        row.complete()?;
        play_row(rt, row, told)?;
        told.end();
    }
    told.begin();
    Ok(())
}
