//! The steps of a run: what the card and the application do, each with what has to come of it.
use crate::card::{CardMove, Told};
use app_worker::{Turn, Why};
use board_face::Entry;
use std::process::Abort;
use zc_poll::Waits;
use zr_kinds::{Note, Place, Stopped};

/// One step of a run. Of the card's moves each must be made.
#[derive(Clone, Copy)]
pub enum Step<'a> {
    /// The card sweeps the free list and takes a buffer.
    First,
    /// It closes its buffer, if it has one, and takes the next.
    Next,
    /// It places a payload of this flow from this sequence number on, and sends its note.
    Send(u32, u32, &'a [u8]),
    /// It sends a payload in the note itself.
    Short(u32, u32, &'a [u8]),
    /// The same, and then the application takes a turn that does something.
    Taken(u32, u32, &'a [u8]),
    ShortTaken(u32, u32, &'a [u8]),
    /// Counted bytes of flow 0, from this position on, so many of them, in the area or in the note.
    Long(u32, u32),
    ShortLong(u32, u32),
    /// It places a piece of such a payload: behind so many of its bytes, so many of them.
    Piece(u32, u32, u32, u32),
    /// It sends this note with these bytes, which lie in the area or travel in the note.
    Drawn(Note, &'a [u8]),
    /// It deals with a refill entry.
    Dealt(Entry),
    /// It closes its buffer.
    Shut,
    /// It closes its buffer and ends.
    End,
    /// The application takes a turn, with this answer.
    Takes(Turn),
    /// It takes a turn, with any answer, and the card deals with all entries.
    TakesAny,
    /// So it goes on until a turn has this answer.
    TakesUntil(Turn),
    /// The stream gives an item: of this flow, from this position on, these bytes, and whether they were copied.
    Gives(u32, u64, &'a [u8], bool),
    /// It gives an item of flow 0 from its begin on, and is stopped before these bytes are read.
    GivesLast(&'a [u8]),
    /// It waits.
    Waits(Waits),
    /// It has ended.
    Ends,
    /// It is stopped.
    Stops,
}

pub const DID: Step = Step::Takes(Turn::Did);

pub const NO_NOTE: Step = Step::Takes(Turn::Idle(Why::NoNote));

pub const NOT_QUIET: Step = Step::Takes(Turn::Idle(Why::NotQuiet));

pub const REFILL_FULL: Step = Step::Takes(Turn::Idle(Why::RefillFull));

pub const RESERVE_HELD: Step = Step::Takes(Turn::Idle(Why::ReserveHeld));

pub const UNSETTLED: Step = Step::Takes(Turn::Idle(Why::Unsettled));

pub const FINISHED: Step = Step::Takes(Turn::Finished);

pub const FREED: Step = Step::Dealt(Entry::Freed);

pub const HONOURED: Step = Step::Dealt(Entry::Honoured);

pub const STRAY: Step = Step::Dealt(Entry::Stray);

pub const EMPTY: Step = Step::Dealt(Entry::Empty);

/// What an application tells of itself: how many bytes it wrote, its loans, those of them that were copied, and what stopped it.
#[derive(Clone, Copy, PartialEq, Eq)]
pub struct Line(pub u64, pub u64, pub u64, pub Stopped);

/// A piece of a payload of so many bytes, behind so many of them. The card fills in where it lies.
pub fn piece(frame: u32, flow: u32, base: u32, seq: u32, at: u32, total: u32) -> Note {
    Note {
        frame,
        flow,
        base,
        seq,
        at,
        total,
        place: Place {
            buffer: 0,
            offset: 0,
            len: total,
        },
        split: true,
        fin: false,
    }
}

/// A payload that travels in its note.
pub fn short(frame: u32, flow: u32, base: u32, seq: u32, total: u32) -> Note {
    Note {
        split: false,
        ..piece(frame, flow, base, seq, 0, total)
    }
}

pub fn length_of(text: &[u8]) -> u32 {
    u32::try_from(text.len()).unwrap_or(0)
}

/// So many bytes behind so many.
pub fn part(bytes: &[u8], at: u32, len: u32) -> &[u8] {
    let end = at.saturating_add(len);
    bytes.get(at as usize..end as usize).unwrap_or(&[])
}

/// The card's move with a note and its bytes.
fn sending<'a>(note: Note, bytes: &'a [u8]) -> CardMove<'a> {
    if note.split {
        CardMove::Send(note, bytes)
    } else {
        CardMove::SendLinear(note, bytes)
    }
}

/// The card's move that a step is, as the frame of this number, and what it must come to; `None` where the application's it is.
/// Flows begin at `base`, and counted bytes are these.
pub fn move_of<'a>(
    step: Step<'a>,
    base: u32,
    frame: u32,
    counted: &'a [u8],
) -> Option<(CardMove<'a>, Told)> {
    let next = match step {
        Step::First => CardMove::First,
        Step::Next => CardMove::Take,
        Step::Send(flow, seq, text) | Step::Taken(flow, seq, text) => {
            CardMove::Send(piece(frame, flow, base, seq, 0, length_of(text)), text)
        }
        Step::Short(flow, seq, text) | Step::ShortTaken(flow, seq, text) => {
            CardMove::SendLinear(short(frame, flow, base, seq, length_of(text)), text)
        }
        Step::Long(from, len) => {
            let note = piece(frame, 0, base, base.wrapping_add(from), 0, len);
            CardMove::Send(note, part(counted, from, len))
        }
        Step::ShortLong(from, len) => {
            let note = short(frame, 0, base, base.wrapping_add(from), len);
            CardMove::SendLinear(note, part(counted, from, len))
        }
        Step::Piece(from, total, at, len) => {
            let note = piece(1, 0, base, base.wrapping_add(from), at, total);
            CardMove::Send(note, part(counted, from.saturating_add(at), len))
        }
        Step::Drawn(note, bytes) => sending(note, bytes),
        Step::Dealt(entry) => return Some((CardMove::Entry, Told::Entry(entry))),
        Step::Shut => CardMove::Shut,
        Step::End => CardMove::End,
        _ => return None,
    };
    Some((next, Told::Done))
}

/// A step of this number went as it was to.
pub fn went(rt: &impl Abort, name: &str, number: u32, well: bool) {
    assert!(rt; well, "{name}: step {number}");
}

/// An application told this of itself.
pub fn same_line(rt: &impl Abort, name: &str, line: Line, wanted: Line) {
    let Line(bytes, loans, copied, _) = line;
    assert!(rt;
        line == wanted,
        "{name}: {bytes} bytes, {loans} loans, {copied} of them copied"
    );
}

/// A flow has these bytes.
pub fn same_bytes(rt: &impl Abort, name: &str, flow: u32, bytes: &[u8], wanted: &[u8]) {
    assert_eq!(rt; bytes, wanted, "{name}: flow {flow}");
}
