ghost use Rattle.std.specs.Prelude.{◌≡◌};
ghost use Rattle.board_face.specs.AppCalls.{IsHere, HasLoan, CanLend};
ghost use Rattle.face_table.specs.Reader.{ReadsOf, HasNothing, Serves, Stopped};

use board_face::{AppFace, Loan, Polled};

/// Why `serve` stopped.
#[derive(Clone, Copy, PartialEq, Eq)]
pub enum Served {
    /// It took as many notes as it was to take.
    All,
    /// There was no note.
    NoNote,
    /// No note comes any more.
    Ended,
    /// The refill ring was full; the last loan was abandoned.
    RefillFull,
}

/// Reads the bytes of a loan, 256 at a time.
pub fn read_whole<F: AppFace>(face: &mut F, loan: &Loan)
    requires here { IsHere (F.seen face.old) }
    requires out { HasLoan (F.seen face.old) loan.now }
    ensures reads { ReadsOf (F.seen face.old) (F.seen face.new) loan.now loan.now.len }
    ensures beside { F.beside face.new ≡ F.beside face.old }
{
    let len = loan.place().len;
    let mut bytes = [0; 256];
    let mut from = 0;
    while from < len {
        let count = (len - from).min(256);
        face.read(loan, from, &mut bytes[..count as usize]);
        from += count;
    }
}

/// Takes up to `notes` notes, and reads and gives back each piece.
pub fn serve<F: AppFace>(face: &mut F, notes: u32) -> Served
    requires here { IsHere (F.seen face.old) }
    requires can { CanLend (F.seen face.old) }
    requires nothing { HasNothing (F.seen face.old) }
    ensures here { IsHere (F.seen face.new) }
    ensures can { CanLend (F.seen face.new) }
    ensures nothing { HasNothing (F.seen face.new) }
    ensures serves { Serves (F.seen face.old) (F.seen face.new) }
    ensures stopped { Stopped (F.seen face.old) (F.seen face.new) notes result }
    ensures beside { F.beside face.new ≡ F.beside face.old }
{
    let mut linear = [0; 256];
    for _ in 0..notes {
        match face.poll(&mut linear) {
            Polled::Note(_, held) => {
                let loan = face.lend(held);
                read_whole(face, &loan);
                if let Err(loan) = face.give(loan) {
                    face.abandon(loan);
                    return Served::RefillFull;
                }
            }
            Polled::Linear(_) => {}
            Polled::Empty => return Served::NoNote,
            Polled::Ended => return Served::Ended,
        }
    }
    Served::All
}
