//! An application's half: it takes a stream of notes, checks each text and gives it back.
ghost use Rattle.std.specs.Prelude.{◌≡◌, true, None, IsTrue};
ghost use Rattle.board_race.specs.Halves.{IsReceiver, HasOneHeld};

use crate::texts::is_text;
use board_face::{AppFace, Held, Loan, Polled};
use zr_kinds::Note;

/// What a look for a note came to.
#[derive(Clone, Copy)]
pub enum Took {
    /// A note.
    Note,
    /// Nothing yet, or the refill ring was full.
    Nothing,
    /// No note comes any more.
    End,
}

/// An application that takes its notes.
#[derive(Drop)]
pub struct Receiver {
    app: u32,
    loan: Option<Loan>,
    /// How many notes it has taken.
    taken: u32,
    /// How many of them had another number or text than the next one sent.
    wrong: u32,
}

impl Receiver {
    /// An application that has taken nothing.
    pub fn new(app: u32) -> Receiver
        ensures { result.loan ≡ None }
    {
        Receiver {
            app,
            loan: None,
            taken: 0,
            wrong: 0,
        }
    }

    /// How many notes it has taken, each the next one with its text; `None` where one wasn't.
    pub fn taken(&self) -> Option<u32> {
        if self.wrong == 0 {
            Some(self.taken)
        } else {
            None
        }
    }

    /// Gives the last loan back where that is still due, and then looks for the next note. `into` has as many bytes as a text;
    /// one of another length is wrong.
    pub fn go<F: AppFace>(&mut self, face: &mut F, into: &mut [u8]) -> Took
        requires { IsReceiver (F.seen face.old) self.old.loan }
        ensures hand { IsReceiver (F.seen face.new) self.new.loan }
        ensures number { (F.seen face.new).app ≡ (F.seen face.old).app }
        ensures ended { result ≡ Took.End
            → ((F.seen face.new).ended ≡ true) × (self.new.loan ≡ None) }
        ensures beside { F.beside face.new ≡ F.beside face.old }
    {
        if !self.give_back(face) {
            return Took::Nothing;
        }
        let mut linear = [0; 256];
        match face.poll(&mut linear) {
            Polled::Note(note, held) => {
                self.read_held(face, note, held, into);
                Took::Note
            }
            Polled::Linear(_) | Polled::Empty => Took::Nothing,
            Polled::Ended => Took::End,
        }
    }

    /// Lends a held piece, and reads it. It is wrong where it isn't the next note's, with as many bytes as there is room for.
    fn read_held<F: AppFace>(&mut self, face: &mut F, note: Note, held: Held, into: &mut [u8])
        requires { HasOneHeld (F.seen face.old) held }
        ensures number { (F.seen face.new).app ≡ (F.seen face.old).app }
        ensures hand { IsReceiver (F.seen face.new) self.new.loan }
        ensures beside { F.beside face.new ≡ F.beside face.old }
    {
        let room = into.len();
        let loan = face.lend(held);
        let len = loan.place().len as usize;
        let text = &mut into[..len.min(room)];
        face.read(&loan, 0, text);
        if note.frame != self.taken || len != room || !is_text(self.app, self.taken, text) {
            self.wrong = self.wrong.saturating_add(1);
        }
        self.taken = self.taken.saturating_add(1);
        self.loan = Some(loan);
    }

    /// Gives the loan back, if one is out. `false` says that the refill ring was full.
    fn give_back<F: AppFace>(&mut self, face: &mut F) -> bool
        requires { IsReceiver (F.seen face.old) self.old.loan }
        ensures hand { IsReceiver (F.seen face.new) self.new.loan }
        ensures number { (F.seen face.new).app ≡ (F.seen face.old).app }
        ensures gone { IsTrue result → self.new.loan ≡ None }
        ensures beside { F.beside face.new ≡ F.beside face.old }
    {
        let Some(loan) = self.loan.take() else {
            return true;
        };
        match face.give(loan) {
            Ok(()) => true,
            Err(loan) => {
                self.loan = Some(loan);
                false
            }
        }
    }
}

/// Once it was told the end the application leaves: it looks at most so often whether its refill slots are quiet. It answers
/// whether it has left.
pub(crate) fn leave<F: AppFace>(face: &mut F, looks: u64) -> bool
    requires hand { IsReceiver (F.seen face.old) None }
    requires ended { (F.seen face.old).ended ≡ true }
    ensures number { (F.seen face.new).app ≡ (F.seen face.old).app }
    ensures left { IsTrue result → (F.seen face.new).left ≡ true }
    ensures beside { F.beside face.new ≡ F.beside face.old }
{
    for _ in 0..looks {
        if face.quiet() {
            face.scrub();
            face.leave();
            return true;
        }
    }
    false
}

/// Takes the notes that are there, at most so many. It answers whether the application was told the end.
pub(crate) fn take_all<F: AppFace>(
    face: &mut F,
    receiver: &mut Receiver,
    looks: u64,
    into: &mut [u8],
) -> bool
    requires { IsReceiver (F.seen face.old) receiver.old.loan }
    ensures hand { IsReceiver (F.seen face.new) receiver.new.loan }
    ensures ended { IsTrue result → ((F.seen face.new).ended ≡ true) × (receiver.new.loan ≡ None) }
    ensures beside { F.beside face.new ≡ F.beside face.old }
{
    for _ in 0..looks {
        match receiver.go(face, into) {
            Took::Note => {}
            Took::Nothing => return false,
            Took::End => return true,
        }
    }
    false
}

/// Takes all notes, and leaves. Where no note is there it looks again, at most `looks` times in all. It answers whether the
/// application has left.
pub(crate) fn receive_all<F: AppFace>(
    face: &mut F,
    receiver: &mut Receiver,
    looks: u64,
    into: &mut [u8],
) -> bool
    requires { IsReceiver (F.seen face.old) receiver.old.loan }
    ensures number { (F.seen face.new).app ≡ (F.seen face.old).app }
    ensures left { IsTrue result → (F.seen face.new).left ≡ true }
    ensures beside { F.beside face.new ≡ F.beside face.old }
{
    for _ in 0..looks {
        if matches!(receiver.go(face, into), Took::End) {
            return leave(face, looks);
        }
    }
    false
}
