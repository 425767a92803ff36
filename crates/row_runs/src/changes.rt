//! What differs between the plays of one row.
use crate::wrong::Wrong;

/// The most plays of one line.
const MOST: u64 = 10_000;

/// What a number of a line says.
#[derive(Clone, Copy)]
pub enum Kind {
    /// The source has so many bytes alone.
    Front,
    /// So many bytes at its end are missing.
    Cut,
    /// The byte behind so many is another.
    Set(u8),
    /// This call of the source fails.
    SourceFails,
    /// Call 1 of the sink fails behind so many bytes.
    SinkFails,
}

/// What one play has beside what the row says.
#[derive(Clone, Copy)]
pub enum Change<'a> {
    Nothing,
    Numbered(Kind, u64),
    /// This line of the text is another, and what goes out is `bad` with this number.
    Line {
        number: usize,
        text: &'a str,
        bad: u32,
    },
}

/// `N to M`.
pub fn read_range(text: &str) -> Result<Option<(u64, u64)>, Wrong> {
    let Some((first, last)) = text.split_once(" to ") else {
        return Ok(None);
    };
    let (first, last) = (first.parse::<u64>()?, last.parse::<u64>()?);
    if first > last || last > first.saturating_add(MOST) {
        return Err(Wrong("no range"));
    }
    Ok(Some((first, last)))
}

/// A play for each of these numbers.
pub fn push_range(
    changes: &mut Vec<Change<'_>>,
    kind: Kind,
    (first, last): (u64, u64),
) -> Result<(), Wrong> {
    for number in first..=last {
        changes.push(Change::Numbered(kind, number))?;
    }
    Ok(())
}

/// `B line N TEXT`.
pub fn read_bad(text: &str) -> Result<Change<'_>, Wrong> {
    let (bad, line) = text.split_once(" line ").ok_or(Wrong("no line"))?;
    let (number, text) = line.split_once(' ').unwrap_or((line, ""));
    Ok(Change::Line {
        number: number.parse::<usize>()?,
        text,
        bad: bad.parse::<u32>()?,
    })
}
