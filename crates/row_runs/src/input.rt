//! What a row gives the command.
use crate::changes::{Change, Kind, push_range, read_bad, read_range};
use crate::frames::{FILE_HEADER, Form, read_frame, record_header};
use crate::texts::{read_bytes, read_hex};
use crate::wrong::Wrong;
use run_driver::ShelfFail;
use std::alloc::Global;

#[derive(Drop)]
pub struct Input<'a> {
    alloc: Global,
    /// The words behind `zcrx`, a play for each of these lines.
    pub words: Vec<&'a str>,
    /// How many bytes a call of the source gives at most, a play for each.
    pub most: Vec<usize>,
    pub bytes: Vec<u8>,
    /// The words behind `make`, where its capture comes before these bytes.
    pub made: Option<&'a str>,
    pub source_fails: Vec<u64>,
    pub shelf_fails: Vec<ShelfFail>,
    pub sink_fails: Vec<(u64, usize)>,
    /// What else the plays differ in.
    pub changes: Vec<Change<'a>>,
    /// Whether each play has a line that is bad.
    pub is_bad: bool,
    /// How many bytes the payloads had.
    place: usize,
}

impl<'a> Input<'a> {
    /// Where nothing was said yet.
    pub fn new(alloc: Global) -> Input<'a> {
        Input {
            alloc,
            words: Vec::new(alloc),
            most: Vec::new(alloc),
            bytes: Vec::new(alloc),
            made: None,
            source_fails: Vec::new(alloc),
            shelf_fails: Vec::new(alloc),
            sink_fails: Vec::new(alloc),
            changes: Vec::new(alloc),
            is_bad: false,
            place: 0,
        }
    }

    /// Reads a line of the capture, if it is one.
    pub fn read_capture(&mut self, first: &str, rest: &'a str) -> Result<bool, Wrong> {
        match first {
            "frame" => self.add_frame(Form::Ipv4, rest)?,
            "times" => self.add_frames(rest)?,
            "frame6" => self.add_frame(Form::Ipv6, rest)?,
            "tagged" => self.add_frame(Form::Tagged, rest)?,
            "bare" => {
                let frame = self.frame_of(Form::Ipv4, rest)?;
                self.bytes.extend_from_slice(&frame)?;
            }
            "record" => self.add_record(&read_hex(self.alloc, rest)?)?,
            "header" => self.bytes.extend_from_slice(&FILE_HEADER)?,
            "bytes" => {
                let bytes = read_bytes(self.alloc, rest, 0)?;
                self.bytes.extend_from_slice(&bytes)?;
            }
            "<" => {
                self.bytes.extend_from_slice(rest.as_bytes())?;
                self.bytes.push(b'\n')?;
            }
            "made" => self.made = Some(rest),
            _ => return Ok(false),
        }
        Ok(true)
    }

    /// Reads a line of how the capture is given, if it is one.
    pub fn read_call(&mut self, first: &str, rest: &'a str) -> Result<bool, Wrong> {
        match first {
            "words" => self.words.push(rest)?,
            "most" => self.most.push(rest.parse::<usize>()?)?,
            "front" => match read_range(rest)? {
                Some(range) => push_range(&mut self.changes, Kind::Front, range)?,
                None => self.bytes.truncate(rest.parse::<usize>()?),
            },
            "cut" => match read_range(rest)? {
                Some(range) => push_range(&mut self.changes, Kind::Cut, range)?,
                None => self.cut(rest.parse::<usize>()?),
            },
            "set" => self.set(rest)?,
            _ => return Ok(false),
        }
        Ok(true)
    }

    /// Reads a line of what fails or is bad, if it is one.
    pub fn read_fault(&mut self, first: &str, rest: &'a str) -> Result<bool, Wrong> {
        match first {
            "source-fails" => match read_range(rest)? {
                Some(range) => push_range(&mut self.changes, Kind::SourceFails, range)?,
                None => self.source_fails.push(rest.parse::<u64>()?)?,
            },
            "shelf-fails" => self.shelf_fails.push(read_shelf_fail(rest)?)?,
            "sink-fails" => self.add_sink_fail(rest)?,
            "bad" => {
                self.changes.push(read_bad(rest)?)?;
                self.is_bad = true;
            }
            _ => return Ok(false),
        }
        Ok(true)
    }

    fn cut(&mut self, count: usize) {
        self.bytes.truncate(self.bytes.len().saturating_sub(count));
    }

    /// `AT HH ..`, or `N to M HH`.
    fn set(&mut self, text: &str) -> Result<(), Wrong> {
        if let Some((numbers, digits)) = text.rsplit_once(' ') {
            if let Some(range) = read_range(numbers)? {
                let byte = read_hex(self.alloc, digits)?.pop().ok_or(Wrong("no byte"))?;
                return push_range(&mut self.changes, Kind::Set(byte), range);
            }
        }
        let (at, digits) = text.split_once(' ').ok_or(Wrong("no byte"))?;
        let bytes = read_hex(self.alloc, digits)?;
        let mut place = at.parse::<usize>()?;
        for byte in bytes.iter() {
            let old = self.bytes.get_mut(place);
            *old.ok_or(Wrong("behind the end"))? = *byte;
            place = place.saturating_add(1);
        }
        Ok(())
    }

    /// `CALL after N`, or `1 after N to M`.
    fn add_sink_fail(&mut self, text: &str) -> Result<(), Wrong> {
        let (call, count) = text.split_once(" after ").ok_or(Wrong("no `after`"))?;
        let call = call.parse::<u64>()?;
        match read_range(count)? {
            Some(range) if call == 1 => push_range(&mut self.changes, Kind::SinkFails, range)?,
            Some(_) => return Err(Wrong("another call than 1")),
            None => self.sink_fails.push((call, count.parse::<usize>()?))?,
        }
        Ok(())
    }

    /// The frame of a line.
    fn frame_of(&mut self, form: Form, text: &str) -> Result<Vec<u8>, Wrong> {
        let (frame, count) = read_frame(self.alloc, form, text, self.place)?;
        self.place = self.place.saturating_add(count);
        Ok(frame)
    }

    fn add_frame(&mut self, form: Form, text: &str) -> Result<(), Wrong> {
        let frame = self.frame_of(form, text)?;
        self.add_record(&frame)
    }

    /// `N frame ..`.
    fn add_frames(&mut self, text: &str) -> Result<(), Wrong> {
        let (count, frame) = text.split_once(" frame ").ok_or(Wrong("no frame"))?;
        for _ in 0..count.parse::<u16>()? {
            self.add_frame(Form::Ipv4, frame)?;
        }
        Ok(())
    }

    /// The record of a frame. The file header stands before the first.
    fn add_record(&mut self, frame: &[u8]) -> Result<(), Wrong> {
        if self.bytes.is_empty() {
            self.bytes.extend_from_slice(&FILE_HEADER)?;
        }
        self.bytes.extend_from_slice(&record_header(frame.len())?)?;
        self.bytes.extend_from_slice(frame)?;
        Ok(())
    }
}

/// `CALL after N`, where `CALL@APP` names another application than 0.
fn read_shelf_fail(text: &str) -> Result<ShelfFail, Wrong> {
    let (call, count) = text.split_once(" after ").ok_or(Wrong("no `after`"))?;
    let (call, app) = call.split_once('@').unwrap_or((call, "0"));
    Ok(ShelfFail {
        app: app.parse::<usize>()?,
        call: call.parse::<u64>()?,
        bytes: count.parse::<usize>()?,
    })
}
