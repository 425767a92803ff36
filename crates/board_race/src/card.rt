//! The card's half: it sends a stream of notes to each application.
ghost use Rattle.std.specs.Prelude.{◌≡◌, ◌<◌, ◌≤◌, length, true, None, IsTrue};
ghost use Rattle.zr_kinds.specs.Limits.{longest_payload};
ghost use Rattle.board_face.specs.NicCalls.{apps_of};
ghost use Rattle.board_race.specs.Halves.{IsSender, IsSenderWith};

use crate::texts::{note_of, write_text};
use board_face::{Entry, NicFace, Own, Piece};
use zr_kinds::LONGEST_PAYLOAD;

/// A card that sends as many notes to each application, in turn, each with a text of as many bytes.
#[derive(Drop)]
pub struct Sender {
    own: Option<Own>,
    piece: Option<Piece>,
    sent: u32,
}

impl Sender {
    /// A card that has sent nothing.
    pub fn new() -> Sender
        ensures own { result.own ≡ None }
        ensures piece { result.piece ≡ None }
    {
        Sender {
            own: None,
            piece: None,
            sent: 0,
        }
    }

    /// How many notes were sent so far.
    pub fn sent(&self) -> u32 {
        self.sent
    }

    /// Sends the next notes until `notes` were sent to each application, or nothing more can be sent. `text` has room for one
    /// text. It answers whether it sent one; where it sent none it deals with the entries that have come.
    pub fn go<F: NicFace>(&mut self, face: &mut F, notes: u32, text: &mut [u8]) -> bool
        requires hand { IsSender (F.seen face.old) self.old.own self.old.piece }
        requires fits { length text.old ≤ longest_payload }
        ensures hand { IsSender (F.seen face.new) self.new.own self.new.piece }
        ensures room { length text.new ≡ length text.old }
        ensures beside { F.beside face.new ≡ F.beside face.old }
    {
        let apps = face.apps();
        let before = self.sent;
        let all = notes.saturating_mul(apps);
        for _ in before..all {
            if !self.send_next(face, apps, text) {
                break;
            }
        }
        if self.sent != before {
            return true;
        }
        gather(face);
        false
    }

    /// Sends the next note.
    fn send_next<F: NicFace>(&mut self, face: &mut F, apps: u32, text: &mut [u8]) -> bool
        requires hand { IsSender (F.seen face.old) self.old.own self.old.piece }
        requires apps { apps ≡ apps_of (F.seen face.old).setting }
        requires some { 1 ≤ apps }
        requires fits { length text.old ≤ longest_payload }
        ensures hand { IsSender (F.seen face.new) self.new.own self.new.piece }
        ensures room { length text.new ≡ length text.old }
        ensures apps { (F.seen face.new).setting ≡ (F.seen face.old).setting }
        ensures beside { F.beside face.new ≡ F.beside face.old }
    {
        let app = self.sent % apps;
        let number = self.sent / apps;
        if self.piece.is_none() {
            write_text(app, number, text);
            self.place_next(face, text);
        }
        let Some(piece) = self.piece.take() else {
            return false;
        };
        let place = piece.place();
        if place.len > LONGEST_PAYLOAD {
            self.piece = Some(piece);
            return false;
        }
        match face.send(app, note_of(app, number, place), piece) {
            Ok(()) => {
                self.sent = self.sent.saturating_add(1);
                true
            }
            Err(piece) => {
                self.piece = Some(piece);
                false
            }
        }
    }

    /// Places a text, in a new buffer where the one that is filled has no room for it.
    fn place_next<F: NicFace>(&mut self, face: &mut F, text: &[u8])
        requires hand { IsSender (F.seen face.old) self.old.own self.old.piece }
        requires none { self.old.piece ≡ None }
        requires fits { length text.now ≤ longest_payload }
        ensures hand { IsSender (F.seen face.new) self.new.own self.new.piece }
        ensures setting { (F.seen face.new).setting ≡ (F.seen face.old).setting }
        ensures beside { F.beside face.new ≡ F.beside face.old }
    {
        if text.is_empty() {
            return;
        }
        self.renew(face, text.len() as u32);
        let Some(own) = &mut self.own else {
            return;
        };
        if text.len() as u32 <= own.size() - own.start() {
            self.piece = Some(face.place(own, text));
        }
    }

    /// Closes a buffer without so much room, and takes the next.
    fn renew<F: NicFace>(&mut self, face: &mut F, len: u32)
        requires hand { IsSender (F.seen face.old) self.old.own self.old.piece }
        ensures hand { IsSender (F.seen face.new) self.new.own self.new.piece }
        ensures piece { self.new.piece ≡ self.old.piece }
        ensures setting { (F.seen face.new).setting ≡ (F.seen face.old).setting }
        ensures beside { F.beside face.new ≡ F.beside face.old }
    {
        if let Some(own) = self.own.take() {
            if own.size() - own.start() >= len {
                self.own = Some(own);
                return;
            }
            face.shut(own);
        }
        if face.cached() == 0 {
            gather(face);
        }
        self.own = face.take();
    }

    /// Ends the card, where it has sent all that it began. It answers whether it has ended.
    pub fn end<F: NicFace>(&mut self, face: &mut F) -> bool
        requires { IsSender (F.seen face.old) self.old.own self.old.piece }
        ensures ended { IsTrue result → (F.seen face.new).ended ≡ true }
        ensures beside { F.beside face.new ≡ F.beside face.old }
    {
        if self.piece.is_some() {
            return false;
        }
        if let Some(own) = self.own.take() {
            face.shut(own);
        }
        face.end();
        true
    }
}

/// Sends all notes, ends, and sees the applications off. Where nothing can be done it looks again, at most `looks` times each
/// for the notes and for the leaving. It answers whether all have left.
pub(crate) fn send_all<F: NicFace>(
    face: &mut F,
    sender: &mut Sender,
    notes: u32,
    looks: u64,
    text: &mut [u8],
) -> bool
    requires hand { IsSender (F.seen face.old) sender.old.own sender.old.piece }
    requires fits { length text.old ≤ longest_payload }
    ensures ended { IsTrue result → (F.seen face.new).ended ≡ true }
    ensures beside { F.beside face.new ≡ F.beside face.old }
{
    let all = notes.saturating_mul(face.apps());
    for _ in 0..looks {
        sender.go(face, notes, text);
        if sender.sent() >= all {
            return sender.end(face) && see_off(face, looks);
        }
    }
    false
}

/// Deals with entries until all applications have left, at most so often.
fn see_off<F: NicFace>(face: &mut F, looks: u64) -> bool
    ensures same { IsSenderWith (F.seen face.old) (F.seen face.new) }
    ensures beside { F.beside face.new ≡ F.beside face.old }
{
    for _ in 0..looks {
        gather(face);
        if count_left(face) == face.apps() {
            return true;
        }
    }
    false
}

/// How many applications have left.
fn count_left<F: NicFace>(face: &mut F) -> u32
    ensures same { IsSenderWith (F.seen face.old) (F.seen face.new) }
    ensures beside { F.beside face.new ≡ F.beside face.old }
{
    let mut count: u32 = 0;
    for app in 0..face.apps() {
        if face.left(app) {
            count = count.saturating_add(1);
        }
    }
    count
}

/// Deals with the entries that have come, and sweeps the free list.
pub(crate) fn gather<F: NicFace>(face: &mut F)
    ensures same { IsSenderWith (F.seen face.old) (F.seen face.new) }
    ensures beside { F.beside face.new ≡ F.beside face.old }
{
    for app in 0..face.apps() {
        drain(face, app);
    }
    for word in 0..face.free_words() {
        if face.cached() < 64 {
            face.sweep(word);
        }
    }
}

/// Deals with as many entries of an application as its ring has places, or with those that have come.
fn drain<F: NicFace>(face: &mut F, app: u32)
    requires { app < apps_of (F.seen face.old).setting }
    ensures same { IsSenderWith (F.seen face.old) (F.seen face.new) }
    ensures beside { F.beside face.new ≡ F.beside face.old }
{
    for _ in 0..face.places() {
        if matches!(face.entry(app), Entry::Empty) {
            return;
        }
    }
}
