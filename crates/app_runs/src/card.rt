//! The card, played by the hand of `face_table`: each call is made only where the hand shows that it may be.
ghost use Rattle.std.specs.Prelude.{◌≡◌};
ghost use Rattle.face_table.specs.CardHand.{IsCardHand};

use board_face::{Entry, NicFace};
use face_table::{Answer, CardHand, end, entry, place, send, send_linear, shut, sweep, take};
use zr_kinds::Note;

/// What the card does next, in one call of its face or two.
#[derive(Clone, Copy)]
pub enum CardMove<'a> {
    /// It sweeps the first word of the free list.
    Sweep,
    /// The same, and then it takes a buffer.
    First,
    /// It closes its buffer, if it has one, and takes the next.
    Take,
    /// It places the bytes, and sends the note with their place.
    Send(Note, &'a [u8]),
    /// It sends a note in which the bytes travel.
    SendLinear(Note, &'a [u8]),
    /// It deals with a refill entry.
    Entry,
    /// It closes its buffer.
    Shut,
    /// It closes its buffer, if it has one, and ends.
    End,
}

/// What came of a move of the card.
#[derive(Clone, Copy, PartialEq, Eq)]
pub enum Told {
    Done,
    /// There was no buffer, no room or no slot, or the call may not be made. What was done before it stands: a buffer closed, a
    /// piece placed.
    Refused,
    Entry(Entry),
}

impl Told {
    /// What a face's answer comes to. To sweep no buffer is to do nothing.
    fn of(answer: Answer) -> Told {
        match answer {
            Answer::Entry(entry) => Told::Entry(entry),
            Answer::Done | Answer::Buffer(_) | Answer::Flag(true) => Told::Done,
            Answer::Number(swept) if swept > 0 => Told::Done,
            _ => Told::Refused,
        }
    }
}

/// Makes a move of the card. Notes go to the first application.
pub fn card_move<F: NicFace>(face: &mut F, card: &mut CardHand, next: CardMove<'_>) -> Told
    requires { IsCardHand (F.seen face.old) card.old }
    ensures card { IsCardHand (F.seen face.new) card.new }
    ensures beside { F.beside face.new ≡ F.beside face.old }
{
    let answer = match next {
        CardMove::Sweep => sweep(face, card, 0),
        CardMove::First => {
            sweep(face, card, 0);
            take(face, card)
        }
        CardMove::Take => {
            shut(face, card);
            take(face, card)
        }
        CardMove::Send(note, bytes) => place_and_send(face, card, note, bytes),
        CardMove::SendLinear(note, bytes) => send_linear(face, card, 0, note, bytes),
        CardMove::Entry => entry(face, card, 0),
        CardMove::Shut => shut(face, card),
        CardMove::End => {
            shut(face, card);
            end(face, card)
        }
    };
    Told::of(answer)
}

/// Places the bytes, and sends the note with the place of their piece.
fn place_and_send<F: NicFace>(face: &mut F, card: &mut CardHand, note: Note, bytes: &[u8]) -> Answer
    requires { IsCardHand (F.seen face.old) card.old }
    ensures card { IsCardHand (F.seen face.new) card.new }
    ensures beside { F.beside face.new ≡ F.beside face.old }
{
    match place(face, card, bytes) {
        Answer::At(place) => send(face, card, 0, Note { place, ..note }),
        refused => refused,
    }
}
