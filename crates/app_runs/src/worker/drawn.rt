//! Drawn lists of notes, against the marks that are worked out by the book.
use super::cases::{CASE, Case, played};
use crate::plain::{PlainMark, plain_marks};
use crate::step::{Line, Step, length_of, part, piece, same_bytes, short};
use app_worker::{Turn, Why};
use board_face::TakenNote;
use std::alloc::{AllocError, Global};
use std::collections::LinkedList;
use std::process::Abort;
use std::test::*;
use zr_kinds::Note;

/// Pieces in a buffer of 4,096 bytes, which lie 64 bytes apart.
const PIECES: u32 = 64;

/// A generator of numbers.
#[derive(Drop)]
struct Draws {
    last: u32,
}

impl Draws {
    /// A number below 65,536.
    fn next(&mut self) -> u32 {
        self.last = self
            .last
            .wrapping_mul(1_664_525)
            .wrapping_add(1_013_904_223);
        self.last >> 16
    }

    fn below(&mut self, end: u32) -> u32 {
        self.next() % end.max(1)
    }
}

/// The steps of a list, and the notes that the card sends in them, with the bytes of each.
#[derive(Drop)]
struct List<'a> {
    alloc: Global,
    steps: Vec<Step<'a>>,
    notes: Vec<TakenNote>,
    texts: Vec<&'a [u8]>,
    /// How many pieces lie in the card's buffer.
    used: u32,
}

impl<'a> List<'a> {
    /// The byte at a mark.
    fn byte_at(&self, mark: PlainMark) -> Option<u8> {
        self.texts.get(mark.note)?.get(mark.place as usize).copied()
    }

    /// The bytes at the marks of a flow.
    fn stream(&self, flow: u32) -> Result<Vec<u8>, Fail> {
        let mut stream = Vec::new(self.alloc);
        for mark in &plain_marks(self.alloc, flow, &self.notes)? {
            stream.push(self.byte_at(*mark).ok_or("a mark of no byte")?)?;
        }
        Ok(stream)
    }

    /// The card sends a note with its bytes. A piece that its buffer has no room for goes to the next.
    fn send(&mut self, mut note: Note, bytes: &'a [u8]) -> Result<(), AllocError> {
        if note.split && self.used == PIECES {
            self.steps.push(Step::Next)?;
            self.used = 0;
        }
        if note.split {
            self.used = self.used.wrapping_add(1);
        }
        note.place.len = length_of(bytes);
        let none = LinkedList::new(self.alloc);
        self.notes.push(TakenNote { note, bytes: none })?;
        self.texts.push(bytes)?;
        self.steps.push(Step::Drawn(note, bytes))?;
        Ok(())
    }

    /// A payload in pieces, one behind another.
    fn draw_pieces(
        &mut self,
        draws: &mut Draws,
        noise: &'a [u8],
        whole: Note,
    ) -> Result<(), AllocError> {
        let mut at = 0u32;
        for _ in 0..whole.total {
            if at >= whole.total {
                break;
            }
            let left = whole.total - at;
            let drawn = if draws.below(2) == 0 {
                left
            } else {
                draws.below(left).saturating_add(1)
            };
            let len = drawn.min(left);
            let bytes = part(noise, draws.below(4000), len);
            self.send(Note { at, ..whole }, bytes)?;
            at += len;
        }
        Ok(())
    }

    /// A payload of the frame of this number, in the area in one piece or more, or in its note.
    fn draw_frame(
        &mut self,
        draws: &mut Draws,
        noise: &'a [u8],
        frame: u32,
        first: u32,
    ) -> Result<(), AllocError> {
        let flow = draws.below(3);
        let base = first.wrapping_add(flow);
        // Some begin before the flow does.
        let seq = base.wrapping_add(draws.below(28)).wrapping_sub(4);
        let total = draws.below(24).saturating_add(1);
        if draws.below(3) > 0 {
            return self.draw_pieces(draws, noise, piece(frame, flow, base, seq, 0, total));
        }
        let bytes = part(noise, draws.below(4000), total);
        self.send(short(frame, flow, base, seq, total), bytes)
    }

    /// The card sends drawn frames, and now and then the application takes a turn.
    fn draw(&mut self, draws: &mut Draws, noise: &'a [u8]) -> Result<(), AllocError> {
        self.steps.push(Step::First)?;
        // The sequence numbers of half of the lists wrap.
        let first = if draws.below(2) == 0 {
            4_294_967_280
        } else {
            draws.next()
        };
        for frame in 0..16 {
            self.draw_frame(draws, noise, frame, first)?;
            if draws.below(2) > 0 {
                self.steps.push(Step::TakesAny)?;
            }
        }
        self.steps.push(Step::TakesUntil(Turn::Idle(Why::NoNote)))?;
        self.steps.push(Step::End)?;
        self.steps.push(Step::TakesUntil(Turn::Finished))?;
        Ok(())
    }
}

fn drawn_bytes(alloc: Global, draws: &mut Draws) -> Result<Vec<u8>, AllocError> {
    let mut bytes = Vec::new(alloc);
    for _ in 0..4096 {
        bytes.push((draws.next() % 256) as u8)?;
    }
    Ok(bytes)
}

/// Plays a drawn list, and compares each flow with the bytes at its marks.
fn drawn_list(
    rt: &impl Abort,
    alloc: Global,
    draws: &mut Draws,
    noise: &[u8],
) -> Result<Line, Fail> {
    let hold = draws.below(3);
    let mut list = List {
        alloc,
        steps: Vec::new(alloc),
        notes: Vec::new(alloc),
        texts: Vec::new(alloc),
        used: 0,
    };
    list.draw(draws, noise)?;
    let case = Case {
        name: "a drawn list",
        board: (8, 4096, 256),
        how: (hold, 0, 0, None),
        ..CASE
    };
    let (line, shelf) = played(rt, alloc, &case, &list.steps, b"")?;
    for flow in 0..3 {
        let stream = list.stream(flow)?;
        same_bytes(rt, case.name, flow, shelf.flow(flow), &stream);
    }
    Ok(line)
}

/// Notes that overlap, repeat, leave gaps and come out of order, of several flows, in pieces and with their bytes.
#[test]
fn drawn_notes(rt: HostRuntime) -> Result<(), Fail> {
    let mut draws = Draws { last: 1 };
    let noise = drawn_bytes(rt.alloc(), &mut draws)?;
    let mut written = 0u64;
    let mut loans = 0u64;
    let mut copied = 0u64;
    for _list in 0..400 {
        let line = drawn_list(&rt, rt.alloc(), &mut draws, &noise)?;
        written = written.saturating_add(line.0);
        loans = loans.saturating_add(line.1);
        copied = copied.saturating_add(line.2);
    }
    // Many bytes come to be in order, and many short payloads are copied.
    let many = written > 9_000 && loans > 1_000 && copied > 200;
    assert!(&rt; many, "{written} {loans} {copied}");
    Ok(())
}
