//! A row: what the command is given, and what it has to leave.
use crate::changes::{Change, read_bad};
use crate::input::Input;
use crate::wanted::Wanted;
use crate::wrong::Wrong;
use std::alloc::{AllocError, Global};

/// How many bytes a call of the source gives at most, where nothing is said.
const MOST: usize = 65_536;

#[derive(Drop)]
pub struct Row<'a> {
    /// Nothing before the first row.
    pub name: &'a str,
    /// Whether it is no part of other rows.
    pub is_played: bool,
    pub input: Input<'a>,
    pub wanted: Wanted<'a>,
}

impl<'a> Row<'a> {
    /// A row, or a part, where nothing was said yet.
    pub fn new(alloc: Global, name: &'a str, is_played: bool) -> Row<'a> {
        Row {
            name,
            is_played,
            input: Input::new(alloc),
            wanted: Wanted::new(alloc),
        }
    }

    /// Reads a line of the row.
    pub fn read(&mut self, line: &'a str) -> Result<(), Wrong> {
        let (first, rest) = line.split_once(' ').unwrap_or((line, ""));
        if first.is_empty() || first == "#" {
            return Ok(());
        }
        if self.name.is_empty() {
            return Err(Wrong("no row yet"));
        }
        let is_read = self.input.read_capture(first, rest)?
            || self.input.read_call(first, rest)?
            || self.input.read_fault(first, rest)?
            || self.wanted.read_sent(first, rest)?
            || self.wanted.read_left(first, rest)?;
        if is_read {
            return Ok(());
        }
        Err(Wrong("no such line"))
    }

    /// Reads the lines of a part of this text.
    pub fn read_part(&mut self, text: &'a str, name: &str) -> Result<(), Wrong> {
        let (mut is_there, mut is_within) = (false, false);
        for line in text.lines() {
            if let Some(other) = line.strip_prefix("part ") {
                is_within = other == name;
                is_there = is_there || is_within;
            } else if line.starts_with("row ") {
                is_within = false;
            } else if is_within {
                self.read(line)?;
            }
        }
        if is_there {
            return Ok(());
        }
        Err(Wrong("no such part"))
    }

    /// Adds what is usual where nothing else was said.
    pub fn complete(&mut self) -> Result<(), AllocError> {
        if self.input.words.is_empty() {
            self.input.words.push("replay 9000")?;
        }
        if self.input.most.is_empty() {
            self.input.most.push(MOST)?;
        }
        if self.input.changes.is_empty() {
            self.input.changes.push(Change::Nothing)?;
        }
        Ok(())
    }

    /// Whether it says what goes out.
    pub fn is_said(&self) -> bool {
        let wanted = &self.wanted;
        wanted.sent.is_some() || !wanted.has.is_empty() || self.input.is_bad
    }
}
