//! What a row wants to be left.
use crate::changes::{push_range, read_range};
use crate::texts::read_bytes;
use crate::wrong::Wrong;
use std::alloc::Global;

/// The stream of a flow, on the shelf of its application.
#[derive(Drop)]
pub struct Stream {
    pub app: usize,
    pub flow: u32,
    pub bytes: Vec<u8>,
}

#[derive(Drop)]
pub struct Wanted<'a> {
    alloc: Global,
    pub status: u8,
    /// All that goes out, where it is said.
    pub sent: Option<Vec<u8>>,
    /// What stands in a line that goes out.
    pub has: Vec<&'a str>,
    /// What doesn't.
    pub lacks: Vec<&'a str>,
    pub streams: Vec<Stream>,
    /// How many buffers the board has, if there is one.
    pub buffers: Option<u32>,
    pub is_unread: bool,
    /// Whether a legal record stands behind the report.
    pub is_legal: bool,
}

impl<'a> Wanted<'a> {
    /// Where nothing was said yet.
    pub fn new(alloc: Global) -> Wanted<'a> {
        Wanted {
            alloc,
            status: 0,
            sent: None,
            has: Vec::new(alloc),
            lacks: Vec::new(alloc),
            streams: Vec::new(alloc),
            buffers: Some(64),
            is_unread: false,
            is_legal: false,
        }
    }

    /// Reads a line of what goes out, if it is one.
    pub fn read_sent(&mut self, first: &str, rest: &'a str) -> Result<bool, Wrong> {
        match first {
            "|" => self.add_line(rest)?,
            "refused" => self.add_refused(rest)?,
            "sent" => {
                let bytes = read_bytes(self.alloc, rest, 0)?;
                self.add_sent(&bytes)?;
            }
            "has" => self.has.push(rest)?,
            "lacks" => self.lacks.push(rest)?,
            _ => return Ok(false),
        }
        Ok(true)
    }

    /// Reads a line of what else is left, if it is one.
    pub fn read_left(&mut self, first: &str, rest: &str) -> Result<bool, Wrong> {
        match (first, rest) {
            ("status", _) => self.status = rest.parse::<u8>()?,
            ("flow", _) => self.add_stream(rest)?,
            ("free", _) => self.buffers = Some(rest.parse::<u32>()?),
            ("no", "board") => self.buffers = None,
            ("unread", "") => self.is_unread = true,
            ("legal", "") => self.is_legal = true,
            _ => return Ok(false),
        }
        Ok(true)
    }

    /// What a flow has to be on a shelf: nothing, where nothing is said.
    pub fn stream(&self, app: usize, flow: u32) -> &[u8] {
        for stream in self.streams.iter() {
            if stream.app == app && stream.flow == flow {
                return &stream.bytes;
            }
        }
        &[]
    }

    fn add_sent(&mut self, bytes: &[u8]) -> Result<(), Wrong> {
        let mut sent = self.sent.take().unwrap_or(Vec::new(self.alloc));
        sent.extend_from_slice(bytes)?;
        self.sent = Some(sent);
        Ok(())
    }

    fn add_line(&mut self, line: &str) -> Result<(), Wrong> {
        self.add_sent(line.as_bytes())?;
        self.add_sent(b"\n")
    }

    /// `N to M`.
    fn add_refused(&mut self, text: &str) -> Result<(), Wrong> {
        let (first, last) = read_range(text)?.ok_or(Wrong("no range"))?;
        for number in first..=last {
            let line = format!(in self.alloc; "refused {number}")?;
            self.add_line(&line)?;
        }
        Ok(())
    }

    /// `FLOW BYTES`, or `FLOW@APP BYTES`.
    fn add_stream(&mut self, text: &str) -> Result<(), Wrong> {
        let (numbers, text) = text.split_once(' ').ok_or(Wrong("no bytes"))?;
        let (flow, app) = numbers.split_once('@').unwrap_or((numbers, "0"));
        let (flow, app) = (flow.parse::<u32>()?, app.parse::<usize>()?);
        let bytes = read_bytes(self.alloc, text, 0)?;
        for stream in self.streams.iter_mut() {
            if stream.app == app && stream.flow == flow {
                stream.bytes.extend_from_slice(&bytes)?;
                return Ok(());
            }
        }
        self.streams.push(Stream { app, flow, bytes })?;
        Ok(())
    }
}
