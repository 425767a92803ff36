//! A loan is read, and what was read is appended; and a loan is given back.
ghost use Rattle.std.specs.Prelude.{◌≡◌, false, ◌+◌, ◌-◌, ◌^◌, ◌<◌, ◌≤◌, IfSome, MatchBool, Some, ◌⊎◌};
ghost use Rattle.area_layout.specs.Layout.{IsLayout, judged};
ghost use Rattle.board_face.specs.{AppCalls.{IsHere, IsLive, AppOnlySaw}, AppEvents.{app_gist, pushed_raw}, declared.views.app.AppLook.TheVariants.{RefillInUse}};
ghost use Rattle.flow_queues.specs.Core.{LieApart, IsIn, lent_piece};
ghost use Rattle.app_worker.specs.Steps.{MayRead, as_front, ReadsThrough, CountsFront, AppendsFront, CountsShelf, Given, KeptDue, NotKept, MayPushStrays, Pushes};

use crate::stack::Stray;
use board_face::AppFace;
use circular_buffer::HeapCircularBuffer;
use flow_queues::{CHUNK, Lending};
use zr_io::{Failed, Shelf};
use zr_kinds::Rqe;

/// Reads the first `most` bytes of a loan, and appends them to a flow of the shelf. `bytes` counts the appends that went
/// well. Bytes that stand in `chunk` are written over.
pub fn read_loan<F: AppFace, T: Shelf>(
    face: &mut F,
    lending: &Lending,
    most: u32,
    flow: u32,
    bytes: &mut u64,
    chunk: &mut [u8; CHUNK],
    shelf: &mut T,
) -> Result<(), Failed>
    requires may { MayRead (F.seen face.old) lending.now }
    requires part { most ≤ lending.now.loan.len }
    requires room { bytes.old + most < 2 ^ 64 }
    ensures reads { ReadsThrough (F.seen face.old) (F.seen face.new)
        (as_front lending.now most flow) result }
    ensures counted { CountsFront most bytes.old bytes.new result }
    ensures kept { AppendsFront (F.seen face.old) (F.seen face.new) (T.kept shelf.old)
        (T.kept shelf.new) (as_front lending.now most flow) (bytes.new - bytes.old) result }
    ensures counts { CountsShelf (bytes.new - bytes.old) (T.counts shelf.old) (T.counts shelf.new)
        result }
    ensures beside { F.beside face.new ≡ F.beside face.old }
{
    let mut done = 0;
    while done < most {
        let n = (most - done).min(CHUNK as u32);
        let part = &mut chunk[..n as usize];
        face.read(&lending.loan, done, part);
        shelf.append(flow, part)?;
        done += n;
        *bytes += u64::from(n);
    }
    Ok(())
}

/// Keeps the loan that is due to the end, where it is one of the first `most` that would be given back, reserves aside:
/// whether it did.
pub fn keep_due(
    reserve: u32,
    most: u32,
    due: &mut Option<Lending>,
    leaked: &mut HeapCircularBuffer<Lending>,
) -> bool
    requires room { leaked.old.capacity ≡ most }
    ensures kept { MatchBool result (KeptDue reserve most due.old due.new leaked.old leaked.new)
        (NotKept reserve most due.old due.new leaked.old leaked.new) }
{
    let Some(lending) = due.take() else {
        return false;
    };
    if lending.loan.place().buffer == reserve {
        *due = Some(lending);
        return false;
    }
    match leaked.try_push_back(lending) {
        Ok(()) => true,
        Err(lending) => {
            *due = Some(lending);
            false
        }
    }
}

/// The layout is one, so that an entry names its place. Only the answer of `size` says so.
fn has_layout<F: AppFace>(face: &F)
    ensures layout { IsLayout (F.seen face.now).setting.layout }
{
    let _ = face.size();
}

/// Gives a loan back that is due, if there is one: whether there is none any more. `false` says that the next refill
/// slot was seen in use. `most` further entries are to follow it.
pub fn give_due<F: AppFace>(
    face: &mut F,
    due: &mut Option<Lending>,
    most: u32,
    stray: &mut Stray,
) -> bool
    requires here { IsHere (F.seen face.old) }
    requires apart { LieApart (F.seen face.old) }
    requires out { IfSome due.old
        (λ l. IsIn (lent_piece (F.seen face.old).taken l) (F.seen face.old).loans) }
    ensures given { Given most (F.seen face.old) (F.seen face.new) due.old due.new stray.old
        stray.new result }
    ensures told { result ≡ false
        → F.tells RefillInUse (app_gist (F.seen face.new)) (F.beside face.new) }
    ensures beside { F.beside face.new ≡ F.beside face.old }
{
    let Some(lending) = due.take() else {
        return true;
    };
    let place = lending.loan.place();
    let entry = Rqe {
        off: face.off(&place),
        len: place.len,
        pad: 0,
    };
    has_layout(face);
    let Lending { note, at, loan } = lending;
    match face.give(loan) {
        Ok(()) => {
            *stray = Stray {
                entry,
                buffer: place.buffer,
                left: most,
            };
            true
        }
        Err(loan) => {
            *due = Some(Lending { note, at, loan });
            false
        }
    }
}

/// What writing the entries that follow a loan did.
#[derive(Clone, Copy, Debug, PartialEq, Eq)]
pub enum Pushed {
    /// None was left.
    Nothing,
    /// All that were left were written, or dropped.
    All,
    /// Some were, and then the next refill slot was seen in use.
    Part,
    /// The next refill slot was seen in use at once.
    InUse,
}

/// Writes an entry once more, or drops it where a loan in its buffer is out. `false` says that the next refill slot was
/// seen in use.
fn push_stray<F: AppFace>(face: &mut F, stray: &Stray) -> bool
    requires here { IsHere (F.seen face.old) }
    requires counted { (F.seen face.old).scrubbed ≡ false }
    requires names { judged (F.seen face.old).setting.layout stray.now.entry
        ≡ Some stray.now.buffer }
    ensures view { MatchBool result
        (((F.seen face.new ≡ F.seen face.old) × IsLive (F.seen face.old) stray.now.buffer)
        ⊎ (F.seen face.new ≡ pushed_raw (F.seen face.old) stray.now.entry))
        (AppOnlySaw RefillInUse (F.seen face.old) (F.seen face.new)) }
    ensures told { result ≡ false
        → F.tells RefillInUse (app_gist (F.seen face.new)) (F.beside face.new) }
    ensures beside { F.beside face.new ≡ F.beside face.old }
{
    if face.live(stray.buffer) {
        return true;
    }
    face.push_raw(stray.entry).is_ok()
}

/// Writes the entries that are left. One is dropped where a loan in its buffer is out.
pub fn push_strays<F: AppFace>(face: &mut F, stray: &mut Stray) -> Pushed
    requires may { MayPushStrays (F.seen face.old) stray.old }
    ensures pushes { Pushes (F.seen face.old) (F.seen face.new) stray.old stray.new result }
    ensures told { result ≡ Pushed.InUse
        → F.tells RefillInUse (app_gist (F.seen face.new)) (F.beside face.new) }
    ensures beside { F.beside face.new ≡ F.beside face.old }
{
    let mut did = false;
    while stray.left > 0 {
        if !push_stray(face, stray) {
            return if did { Pushed::Part } else { Pushed::InUse };
        }
        stray.left -= 1;
        did = true;
    }
    if did { Pushed::All } else { Pushed::Nothing }
}
