ghost use Rattle.std.specs.Prelude.{◌≡◌, ◌↔◌, IsTrue};
ghost use Rattle.board_face.specs.{Texts.{IsSplitNote, IsLinearNote}, Opened.{new_nic_view}, declared.views.parts.Setting.{Setting}};
ghost use Rattle.face_table.specs.CardHand.{IsCardHand};

use crate::{Answer, Text};
use board_face::{NicFace, Own, Piece};
use zr_kinds::{LONGEST_PAYLOAD, Note, Place};

/// A call of the card, by the name of the face's call, with what it takes but for tokens.
#[derive(Clone, Copy)]
pub enum CardCall {
    Apps,
    Places,
    Size,
    FreeWords,
    Cached,
    Take,
    Sweep(u32),
    Entry(u32),
    Place(Text),
    Send(u32, Note),
    SendLinear(u32, Note, Text),
    Shut,
    End,
    Left(u32),
}

/// The card's tokens that are out, one of each kind at most, and what is known of its face.
#[derive(Drop)]
pub struct CardHand {
    own: Option<Own>,
    piece: Option<Piece>,
    ended: bool,
}

impl CardHand {
    /// The hand at a board that was just opened.
    pub fn new() -> CardHand
        ensures { (setting : Setting) → IsCardHand (new_nic_view setting) result }
    {
        CardHand {
            own: None,
            piece: None,
            ended: false,
        }
    }

    /// Whether the card has ended.
    pub fn ended(&self) -> bool
        ensures { result ≡ self.now.ended }
    {
        self.ended
    }
}

/// Makes a call of the card, and answers what it answered; `Skipped` where the hand doesn't show that it may be made.
pub fn card_call<F: NicFace>(face: &mut F, hand: &mut CardHand, call: CardCall) -> Answer
    requires { IsCardHand (F.seen face.old) hand.old }
    ensures hand { IsCardHand (F.seen face.new) hand.new }
    ensures beside { F.beside face.new ≡ F.beside face.old }
{
    match call {
        CardCall::Apps => Answer::Number(face.apps()),
        CardCall::Places => Answer::Number(face.places()),
        CardCall::Size => Answer::Number(face.size()),
        CardCall::FreeWords => Answer::Number(face.free_words()),
        CardCall::Cached => Answer::Number(face.cached()),
        CardCall::Take => take(face, hand),
        CardCall::Sweep(word) => sweep(face, hand, word),
        CardCall::Entry(app) => entry(face, hand, app),
        CardCall::Place(text) => place(face, hand, text.bytes()),
        CardCall::Send(app, note) => send(face, hand, app, note),
        CardCall::SendLinear(app, note, text) => send_linear(face, hand, app, note, text.bytes()),
        CardCall::Shut => shut(face, hand),
        CardCall::End => end(face, hand),
        CardCall::Left(app) => left(face, hand, app),
    }
}

/// Takes a buffer: its number, or `NoBuffer` where none is cached. `Skipped` where one is out, or the card has ended.
pub fn take<F: NicFace>(face: &mut F, hand: &mut CardHand) -> Answer
    requires { IsCardHand (F.seen face.old) hand.old }
    ensures hand { IsCardHand (F.seen face.new) hand.new }
    ensures beside { F.beside face.new ≡ F.beside face.old }
{
    if hand.ended || hand.own.is_some() {
        return Answer::Skipped;
    }
    match face.take() {
        Some(own) => {
            let buffer = own.buffer();
            hand.own = Some(own);
            Answer::Buffer(buffer)
        }
        None => Answer::NoBuffer,
    }
}

/// Sweeps a word: how many buffers it had. `Skipped` where 64 are cached, or there is no such word.
pub fn sweep<F: NicFace>(face: &mut F, hand: &CardHand, word: u32) -> Answer
    requires { IsCardHand (F.seen face.old) hand.now }
    ensures hand { IsCardHand (F.seen face.new) hand.now }
    ensures beside { F.beside face.new ≡ F.beside face.old }
{
    if face.cached() >= 64 || word >= face.free_words() {
        return Answer::Skipped;
    }
    Answer::Number(face.sweep(word))
}

/// Deals with the next entry of an application. `Skipped` where there is no such application.
pub fn entry<F: NicFace>(face: &mut F, hand: &CardHand, app: u32) -> Answer
    requires { IsCardHand (F.seen face.old) hand.now }
    ensures hand { IsCardHand (F.seen face.new) hand.now }
    ensures beside { F.beside face.new ≡ F.beside face.old }
{
    if app >= face.apps() {
        return Answer::Skipped;
    }
    Answer::Entry(face.entry(app))
}

/// Places bytes in the buffer that is out: where they lie. `Skipped` where there are none or they don't fit, no buffer or a
/// piece is out, or the card has ended.
pub fn place<F: NicFace>(face: &mut F, hand: &mut CardHand, bytes: &[u8]) -> Answer
    requires { IsCardHand (F.seen face.old) hand.old }
    ensures hand { IsCardHand (F.seen face.new) hand.new }
    ensures beside { F.beside face.new ≡ F.beside face.old }
{
    if hand.ended || hand.piece.is_some() || bytes.is_empty() {
        return Answer::Skipped;
    }
    let Some(own) = &mut hand.own else {
        return Answer::Skipped;
    };
    if bytes.len() > (own.size() - own.start()) as usize {
        return Answer::Skipped;
    }
    let piece = face.place(own, bytes);
    let place = piece.place();
    hand.piece = Some(piece);
    Answer::At(place)
}

/// Sends a note of the piece that is out; where the answer is `Full`, the piece stays out. `Skipped` where the note isn't of that
/// piece, or may not be sent.
pub fn send<F: NicFace>(face: &mut F, hand: &mut CardHand, app: u32, note: Note) -> Answer
    requires { IsCardHand (F.seen face.old) hand.old }
    ensures hand { IsCardHand (F.seen face.new) hand.new }
    ensures beside { F.beside face.new ≡ F.beside face.old }
{
    if hand.ended || app >= face.apps() || !is_split_note(&note) {
        return Answer::Skipped;
    }
    match hand.piece.take() {
        Some(piece) if piece.place() == note.place => match face.send(app, note, piece) {
            Ok(()) => Answer::Done,
            Err(piece) => {
                hand.piece = Some(piece);
                Answer::Full
            }
        },
        other => {
            hand.piece = other;
            Answer::Skipped
        }
    }
}

/// Sends a note in which these bytes travel: whether its slot was free. `Skipped` where the note may not be sent, or tells of
/// another number of bytes.
pub fn send_linear<F: NicFace>(
    face: &mut F,
    hand: &CardHand,
    app: u32,
    note: Note,
    bytes: &[u8],
) -> Answer
    requires { IsCardHand (F.seen face.old) hand.now }
    ensures hand { IsCardHand (F.seen face.new) hand.now }
    ensures beside { F.beside face.new ≡ F.beside face.old }
{
    if hand.ended || app >= face.apps() {
        return Answer::Skipped;
    }
    if !is_linear_note(&note) || note.total as usize != bytes.len() {
        return Answer::Skipped;
    }
    Answer::Flag(face.send_linear(app, note, bytes))
}

/// Closes the buffer that is out. `Skipped` where none is, or the card has ended.
pub fn shut<F: NicFace>(face: &mut F, hand: &mut CardHand) -> Answer
    requires { IsCardHand (F.seen face.old) hand.old }
    ensures hand { IsCardHand (F.seen face.new) hand.new }
    ensures beside { F.beside face.new ≡ F.beside face.old }
{
    if hand.ended {
        return Answer::Skipped;
    }
    match hand.own.take() {
        Some(own) => {
            face.shut(own);
            Answer::Done
        }
        None => Answer::Skipped,
    }
}

/// Ends. `Skipped` where a buffer or a piece is out.
pub fn end<F: NicFace>(face: &mut F, hand: &mut CardHand) -> Answer
    requires { IsCardHand (F.seen face.old) hand.old }
    ensures hand { IsCardHand (F.seen face.new) hand.new }
    ensures beside { F.beside face.new ≡ F.beside face.old }
{
    if hand.own.is_some() || hand.piece.is_some() {
        return Answer::Skipped;
    }
    face.end();
    hand.ended = true;
    Answer::Done
}

/// Asks whether an application has left. `Skipped` where there is no such application.
pub fn left<F: NicFace>(face: &mut F, hand: &CardHand, app: u32) -> Answer
    requires { IsCardHand (F.seen face.old) hand.now }
    ensures hand { IsCardHand (F.seen face.new) hand.now }
    ensures beside { F.beside face.new ≡ F.beside face.old }
{
    if app >= face.apps() {
        return Answer::Skipped;
    }
    Answer::Flag(face.left(app))
}

/// Whether a note may be sent of a piece in the area.
fn is_split_note(note: &Note) -> bool
    ensures { IsTrue result ↔ IsSplitNote note.now }
{
    note.split
        && note.total <= LONGEST_PAYLOAD
        && note.at <= note.total
        && note.place.len <= note.total - note.at
}

/// Whether a note may be sent in which the whole payload travels.
fn is_linear_note(note: &Note) -> bool
    ensures { IsTrue result ↔ IsLinearNote note.now }
{
    let place = Place {
        buffer: 0,
        offset: 0,
        len: note.total,
    };
    !note.split && note.total >= 1 && note.total <= 256 && note.at == 0 && note.place == place
}
