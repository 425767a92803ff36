//! What waits in the queues of flows: pieces are cut by what the flow still wants, and enter.
ghost use Rattle.std.specs.Prelude.{◌≡◌, true, false, ◌+◌, ◌-◌, ◌^◌, ◌<◌, ◌≤◌, IfSome, OnOk, List, Some, slice_get};
ghost use Rattle.zr_kinds.specs.CopyingReceiver.{Placed};
ghost use Rattle.tcp_reorder.specs.{Queue.{IsSound}, Values.{Holds}};
ghost use Rattle.board_face.specs.declared.views.app.TakenNote.{TakenNote};
ghost use Rattle.flow_queues.specs.{Marks.{Mark}, Core.{HoldsApart, IsIn, held_piece, marks_of_waiting, received_note, IsOfNote, Each}, Pieces.{CameWith, OnlyHelds, GaveFront, CutFirst, whole_piece, over_others, IsOut, given_back}, Lent.{is_short}, Taking.{EntersPiece}};

use board_face::{AppFace, Held, Loan};
use tcp_reorder::RecvQueue;
use zr_kinds::Note;

/// A piece of a note that waits in a flow's queue: bytes of the note that was taken as this one, from one of its bytes on.
#[derive(Drop)]
pub struct NotePiece {
    pub note: u64,
    pub at: u32,
    pub held: Held,
}

/// Bytes of a note in which they travelled, from one of its bytes on: in memory of their own while they wait.
#[derive(Drop)]
pub struct Short {
    pub note: u64,
    pub at: u32,
    pub bytes: Vec<u8>,
}

/// What waits in a flow's queue.
#[derive(Drop)]
pub enum Waiting {
    /// A piece that lies in the area.
    InArea(NotePiece),
    /// Bytes that are copied into a buffer when it is their turn.
    Copied(Short),
}

impl Waiting {
    /// Whether these are bytes that came with their note.
    pub fn is_short(&self) -> bool
        ensures { result ≡ is_short self.now }
    {
        match self {
            Waiting::InArea(_) => false,
            Waiting::Copied(_) => true,
        }
    }
}

/// A loan, with the mark of its first byte.
#[derive(Drop)]
pub struct Lending {
    pub note: u64,
    pub at: u32,
    pub loan: Loan,
}

/// What a flow keeps: its queue, and how many of its bytes are done with.
#[derive(Drop)]
pub struct FlowQueue {
    pub number: u32,
    pub queue: RecvQueue<Waiting>,
    pub bytes: u64,
}

impl FlowQueue {
    /// The queue is sound, and so no position of it is wider than its type. Only an answer of its own says so.
    pub fn has_sound_queue(&self)
        ensures { IsSound self.now.queue }
    {
        let _ = self.queue.next_position();
    }
}

/// Gives the first bytes of a piece up.
fn skip<F: AppFace>(face: &mut F, piece: NotePiece, n: u32) -> NotePiece
    requires holds { HoldsApart (F.seen face.old) }
    requires out { IsIn (held_piece piece) (F.seen face.old).helds }
    requires part { n < piece.held.len }
    requires small { piece.at + piece.held.len < 2 ^ 32 }
    ensures gave { GaveFront (F.seen face.old) (F.seen face.new) piece n result }
    ensures beside { F.beside face.new ≡ F.beside face.old }
{
    if n == 0 {
        return piece;
    }
    let NotePiece { note, at, held } = piece;
    let (front, rest) = face.cut(held, n);
    face.release(front);
    NotePiece {
        note,
        at: at + n,
        held: rest,
    }
}

/// Takes the first bytes of a piece off, and the others if there are any.
fn split<F: AppFace>(face: &mut F, piece: NotePiece, n: u32) -> (NotePiece, Option<NotePiece>)
    requires holds { HoldsApart (F.seen face.old) }
    requires out { IsIn (held_piece piece) (F.seen face.old).helds }
    requires some { 0 < n }
    requires part { n ≤ piece.held.len }
    requires small { piece.at + piece.held.len < 2 ^ 32 }
    ensures cut { CutFirst (F.seen face.old) (F.seen face.new) piece n result.0 result.1 }
    ensures beside { F.beside face.new ≡ F.beside face.old }
{
    if n == piece.held.place().len {
        return (piece, None);
    }
    let NotePiece { note, at, held } = piece;
    let (front, rest) = face.cut(held, n);
    (
        NotePiece {
            note,
            at,
            held: front,
        },
        Some(NotePiece {
            note,
            at: at + n,
            held: rest,
        }),
    )
}

/// There was no memory.
#[derive(Clone, Copy, Debug, PartialEq, Eq)]
pub struct Wanting;

/// The parts of a piece that its flow still wants enter the flow's queue, and the others are given up.
pub fn enter<F: AppFace>(
    face: &mut F,
    queue: &mut RecvQueue<Waiting>,
    note: &Note,
    number: u64,
    held: Held,
) -> Result<(), Wanting>
    requires came { CameWith (F.seen face.old) note.now number held }
    ensures some { EntersPiece (F.seen face.old) (F.seen face.new) queue.old queue.new
        (whole_piece number held) }
    ensures same { (queue.new.base ≡ queue.old.base) × (queue.new.popped ≡ queue.old.popped) }
    ensures enters { OnOk result ((placed : Placed Mark) → Holds marks_of_waiting queue.old placed →
        Holds marks_of_waiting queue.new
        (received_note queue.old.base placed (record { number = number; note = note.now }))) }
    ensures notes { (taken : List TakenNote) (t : TakenNote) → slice_get taken number ≡ Some t
        → t.note.split ≡ true
        → Each (λ k. IsOfNote taken k.piece) queue.old.kept
        → Each (λ k. IsOfNote taken k.piece) queue.new.kept }
    ensures beside { F.beside face.new ≡ F.beside face.old }
{
    if !queue.accepts(note.seq, note.total) {
        face.release(held);
        return Ok(());
    }
    let seq = note.seq.wrapping_add(note.at);
    let mut left = Some(NotePiece {
        note: number,
        at: 0,
        held,
    });
    while let Some(piece) = left {
        let from = seq.wrapping_add(piece.at);
        let len = piece.held.place().len;
        let Some(gap) = queue.gap(from, len) else {
            face.release(piece.held);
            return Ok(());
        };
        let wanted = skip(face, piece, gap.skip);
        let (first, others) = split(face, wanted, gap.len);
        match queue.take(from.wrapping_add(gap.skip), gap.len, Waiting::InArea(first)) {
            Ok(()) => left = others,
            Err(back) => {
                give_back(face, back);
                give_up(face, others);
                return Err(Wanting);
            }
        }
    }
    Ok(())
}

/// Gives up what was to wait: a piece in the area is released.
pub fn give_back<F: AppFace>(face: &mut F, waiting: Waiting)
    requires holds { HoldsApart (F.seen face.old) }
    requires out { IsOut (F.seen face.old) waiting }
    ensures view { F.seen face.new ≡ given_back (F.seen face.old) waiting }
    ensures beside { F.beside face.new ≡ F.beside face.old }
{
    match waiting {
        Waiting::InArea(piece) => face.release(piece.held),
        Waiting::Copied(_short) => {}
    }
}

/// Gives a piece up, if there is one.
fn give_up<F: AppFace>(face: &mut F, piece: Option<NotePiece>)
    requires holds { HoldsApart (F.seen face.old) }
    requires out { IfSome piece (λ p. IsIn (held_piece p) (F.seen face.old).helds) }
    ensures only { OnlyHelds (F.seen face.old) (F.seen face.new) (λ f. over_others f piece)
        (λ f. 0) }
    ensures beside { F.beside face.new ≡ F.beside face.old }
{
    if let Some(piece) = piece {
        face.release(piece.held);
    }
}
