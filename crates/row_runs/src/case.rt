//! What one play of a row is given, and what it wants to go out.
use crate::changes::{Change, Kind};
use crate::row::Row;
use crate::wrong::Wrong;
use std::alloc::Global;

#[derive(Drop)]
pub struct Case {
    pub bytes: Vec<u8>,
    pub source_fails: Vec<u64>,
    pub sink_fails: Vec<(u64, usize)>,
    /// All that goes out, where it is said.
    pub sent: Option<Vec<u8>>,
    pub status: u8,
}

impl Case {
    /// That of a row over these bytes, with this change.
    pub fn of_row(
        alloc: Global,
        row: &Row<'_>,
        bytes: &[u8],
        change: &Change<'_>,
    ) -> Result<Case, Wrong> {
        let sent = match &row.wanted.sent {
            Some(sent) => Some(Vec::from_slice(alloc, sent)?),
            None => None,
        };
        let mut case = Case {
            bytes: Vec::from_slice(alloc, bytes)?,
            source_fails: Vec::from_slice(alloc, &row.input.source_fails)?,
            sink_fails: Vec::from_slice(alloc, &row.input.sink_fails)?,
            sent,
            status: row.wanted.status,
        };
        match *change {
            Change::Nothing => {}
            Change::Numbered(kind, number) => case.change(kind, number)?,
            Change::Line { number, text, bad } => case.replace(alloc, number, text, bad)?,
        }
        Ok(case)
    }

    fn change(&mut self, kind: Kind, number: u64) -> Result<(), Wrong> {
        let count = usize::try_from(number)?;
        match kind {
            Kind::Front => self.bytes.truncate(count),
            Kind::Cut => {
                let left = self.bytes.len().saturating_sub(count);
                self.bytes.truncate(left);
            }
            Kind::Set(byte) => {
                let old = self.bytes.get_mut(count);
                *old.ok_or(Wrong("behind the end"))? = byte;
            }
            Kind::SourceFails => self.source_fails.push(number)?,
            Kind::SinkFails => {
                self.sink_fails.push((1, count))?;
                let sent = self.sent.as_mut().ok_or(Wrong("no lines"))?;
                sent.truncate(count);
            }
        }
        Ok(())
    }

    /// This line of the text becomes another, and `check` answers that this line is bad.
    fn replace(
        &mut self,
        alloc: Global,
        number: usize,
        other: &str,
        bad: u32,
    ) -> Result<(), Wrong> {
        let Ok(text) = str::from_utf8(&self.bytes) else {
            return Err(Wrong("no text"));
        };
        let mut replaced = Vec::new(alloc);
        for (before, line) in text.lines().enumerate() {
            let is_other = before.saturating_add(1) == number;
            let line = if is_other { other } else { line };
            replaced.extend_from_slice(line.as_bytes())?;
            replaced.push(b'\n')?;
        }
        let answer = format!(in alloc; "bad {bad}\n")?;
        self.sent = Some(Vec::from_slice(alloc, answer.as_bytes())?);
        self.status = 14;
        self.bytes = replaced;
        Ok(())
    }
}
