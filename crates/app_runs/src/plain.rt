//! The marks of a flow by the book: slowly, and with no thought of memory.
ghost use Rattle.std.specs.{Prelude.{◌≡◌, ◌<◌, ◌≤◌, ◌^◌, ◌+◌, nat_eq, IfOk, OnOk}, Map.{lookup}};
ghost use Rattle.zr_kinds.specs.CopyingReceiver.{lead, next_missing, filled_by_values, front_of, nothing_placed};
ghost use Rattle.flow_queues.specs.Marks.{Mark, marks_from, numbered_notes, notes_of_flow, frames_with_note, frames_of_notes, base_of, marks_of, received_frame};
ghost use Rattle.flow_queues.specs.Marks.{received_frames};
ghost use Rattle.app_runs.specs.Plain.{placed_in};

use board_face::TakenNote;
use std::alloc::{AllocError, Global};
use std::marker::Model;
use zr_kinds::Note;

/// No position is above this.
const END: u64 = 1 << 62;

/// No byte lies more than this far ahead of the first that is missing.
const WINDOW: u64 = 1 << 30;

/// Distances are signed. With this much more they aren't below 0.
const BIAS: u64 = 1 << 31;

/// A byte of the piece of a note, by the note's number from 0 and the byte's place.
#[derive(Clone, Copy)]
pub struct PlainMark {
    pub note: usize,
    pub place: u32,
}

impl Model for PlainMark {
    ghost Value = { Mark };

    ghost view = { λ m. record { note = m.note; place = m.place } };

    ghost inverse = { λ m. record { note = m.note; place = m.place } };
}

/// What was taken of a frame, with the marks of its pieces, in order.
#[derive(Drop)]
struct PlainFrame {
    number: u32,
    seq: u32,
    total: u32,
    marks: Vec<PlainMark>,
}

impl Model for PlainFrame {
    ghost use Rattle.flow_queues.specs.Marks.{Frame};

    ghost Value = { Frame };

    ghost view = { λ f. record { number = f.number; seq = f.seq; total = f.total; marks = f.marks.items } };
}

/// The marks of a note's first bytes, so many.
fn marks_of_note(alloc: Global, note: usize, len: u32) -> Result<Vec<PlainMark>, AllocError>
    ensures { IfOk result (λ marks. marks.items ≡ marks_from note 0 len) }
{
    let mut marks = Vec::new(alloc);
    for place in 0..len {
        marks.push(PlainMark { note, place })?;
    }
    Ok(marks)
}

/// The frames, once this note comes before them.
fn with_note(
    alloc: Global,
    number: usize,
    note: &Note,
    frames: &mut Vec<PlainFrame>,
) -> Result<(), AllocError>
    ensures { OnOk result
        (frames.new.items ≡ frames_with_note (record { number = number; note = note.now })
        frames.old.items) }
{
    let mut marks = marks_of_note(alloc, number, note.place.len)?;
    if !frames.is_empty() && frames[0].number == note.frame {
        let first = frames.remove(0);
        marks.extend_from_slice(&first.marks)?;
        frames.insert(0, PlainFrame { marks, ..first })?;
    } else {
        let frame = PlainFrame {
            number: note.frame,
            seq: note.seq,
            total: note.total,
            marks,
        };
        frames.insert(0, frame)?;
    }
    Ok(())
}

/// The base that the first of a flow's notes has, 0 where there is none; and the frames of these notes.
fn frames_of(
    alloc: Global,
    flow: u32,
    taken: &[TakenNote],
) -> Result<(u32, Vec<PlainFrame>), AllocError>
    ensures base { IfOk result (λ r. r.0 ≡ base_of
        (notes_of_flow flow (numbered_notes 0 taken.now))) }
    ensures frames { IfOk result
        (λ r. r.1.items ≡ frames_of_notes (notes_of_flow flow (numbered_notes 0 taken.now))) }
{
    let mut base = 0u32;
    let mut frames = Vec::new(alloc);
    let mut number = taken.len();
    while number > 0 {
        number -= 1;
        let note = taken[number].note;
        if note.flow == flow {
            base = note.base;
            with_note(alloc, number, &note, &mut frames)?;
        }
    }
    Ok((base, frames))
}

/// The distance of the sequence number s from that of position n, signed, and 2^31 more.
#[tactic(auto, unfolding(zr_kinds::specs::CopyingReceiver::lead))]
fn lead(base: u32, n: u64, s: u32) -> u64
    ensures exact { result ≡ lead base n s }
    ensures small { result < 2 ^ 32 }
{
    let low = (n % (1 << 32)) as u32;
    let distance = s.wrapping_sub(base.wrapping_add(low)).cast_signed();
    (i64::from(distance) + (1 << 31)) as u64
}

/// Marks at positions, each with 2^31 more. Where several are at one position the first of the list counts.
#[derive(Drop)]
struct PlainPlaced {
    marks: Vec<(u64, PlainMark)>,
    /// From here on none stands.
    top: u64,
    ghost low: { top ≤ 2 ^ 62 + 2 ^ 63 },
}

impl PlainPlaced {
    fn at(&self, place: u64) -> Option<PlainMark>
        ensures { result ≡ lookup (nat_eq place) self.now.marks.items }
    {
        for &(other, mark) in &self.marks {
            if other == place {
                return Some(mark);
            }
        }
        None
    }

    /// The marks up to the first position where none stands.
    fn front(&self, alloc: Global) -> Result<Vec<PlainMark>, AllocError>
        ensures front { IfOk result
            (λ front. front.items ≡ front_of (placed_in self.now.marks.items self.now.top)) }
    {
        let mut front = Vec::new(alloc);
        for position in 0..self.top {
            let Some(mark) = self.at(position + BIAS) else {
                break;
            };
            front.push(mark)?;
        }
        Ok(front)
    }

    /// The least position where none stands.
    fn next_missing(&self, alloc: Global) -> Result<u64, AllocError>
        ensures exact { IfOk result
            (λ n. n ≡ next_missing (placed_in self.now.marks.items self.now.top)) }
        ensures small { IfOk result (λ n. n < 2 ^ 63) }
    {
        Ok(self.front(alloc)?.len() as u64)
    }

    /// Places the marks from the position `from` less 2^31 on, as far as that isn't below 0.
    fn fill(&mut self, from: u64, marks: &[PlainMark]) -> Result<(), AllocError>
        requires { from ≤ 2 ^ 62 + 2 ^ 31 }
        ensures { OnOk result (placed_in self.new.marks.items self.new.top
            ≡ filled_by_values (placed_in self.old.marks.items self.old.top) from marks.now) }
    {
        for (i, mark) in marks.iter().enumerate() {
            self.marks.push((from + i as u64, *mark))?;
        }
        let end = (from + marks.len() as u64).saturating_sub(BIAS);
        self.top = self.top.max(end);
        Ok(())
    }

    /// Takes what was taken of a frame: it is judged as a whole, and what is there enters.
    fn receive(&mut self, alloc: Global, base: u32, frame: &PlainFrame) -> Result<(), AllocError>
        ensures { OnOk result (placed_in self.new.marks.items self.new.top
            ≡ received_frame base (placed_in self.old.marks.items self.old.top) frame.now) }
    {
        let n = self.next_missing(alloc)?;
        let ahead = lead(base, n, frame.seq);
        let total = u64::from(frame.total);
        if ahead + total <= WINDOW + BIAS && n + ahead + total <= END + BIAS {
            self.fill(n + ahead, &frame.marks)?;
        }
        Ok(())
    }
}

/// What stands after these frames were received.
fn receive_all(alloc: Global, base: u32, frames: &[PlainFrame]) -> Result<PlainPlaced, AllocError>
    ensures { IfOk result
        (λ placed. placed_in placed.marks.items placed.top
        ≡ received_frames base nothing_placed frames.now) }
{
    let mut placed = PlainPlaced {
        marks: Vec::new(alloc),
        top: 0,
    };
    for frame in frames {
        placed.receive(alloc, base, frame)?;
    }
    Ok(placed)
}

/// What stands at each position of a flow, from 0 on, of the notes that were taken, worked out by the book.
pub fn plain_marks(
    alloc: Global,
    flow: u32,
    taken: &[TakenNote],
) -> Result<Vec<PlainMark>, AllocError>
    ensures { IfOk result (λ marks. marks.items ≡ marks_of flow taken.now) }
{
    let (base, frames) = frames_of(alloc, flow, taken)?;
    receive_all(alloc, base, &frames)?.front(alloc)
}
