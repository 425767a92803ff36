ghost use Rattle.std.specs.Prelude.{◌≡◌, ◌<◌, [], ◌∷◌, false, IsSome, IsTrue};
ghost use Rattle.board_face.specs.{AppCalls.{IsHere}, NicCalls.{IsOpen, HasNoToken, apps_of}};
ghost use Rattle.board_runs.specs.Played.{IsIdleApp};

use board_face::{AppFace, NicFace, Own, Polled};
use page_pool::{Pool, SearchEnd, find_fresh, nic_drain};
use std::alloc::AllocError;
use zr_kinds::{Note, PoolStats, Rqe};

/// An entry that names no buffer, since its pad isn't 0.
const VOID: Rqe = Rqe {
    off: 0,
    len: 0,
    pad: 1,
};

/// A step of the card or of an application. The application's number stands first.
#[derive(Clone, Copy)]
pub enum Step {
    /// The card takes so many buffers, sends so many pieces of a byte of each to an application, and closes it.
    Send(u32, u32, u32),
    /// An application takes so many notes and gives each piece back, behind an entry that names no buffer where it says so.
    GiveBack(u32, u32, bool),
    /// An application writes an entry that names no buffer.
    WriteStray(u32),
    /// A search for so many buffers.
    Search(u32),
    /// All rings are drained.
    Drain,
}

impl Step {
    /// The application that makes it.
    pub fn app(self) -> Option<u32> {
        match self {
            Step::GiveBack(app, ..) | Step::WriteStray(app) => Some(app),
            _ => None,
        }
    }
}

/// What a step answers.
#[derive(Clone, Copy, PartialEq, Eq)]
pub enum Told {
    Done,
    /// Whether so many buffers are cached, how many are, and where all searches so far have ended.
    Found(bool, u32, PoolStats),
    /// How many entries were dealt with, the strays among them, and how many buffers are cached then.
    Drained(u32, u64, u32),
}

/// Makes a step of the card. `None` where it can't be made.
pub fn card_step<F: NicFace>(face: &mut F, stats: &mut PoolStats, step: Step) -> Option<Told>
    requires open { IsOpen (F.seen face.old) }
    requires nothing { HasNoToken (F.seen face.old) }
    ensures open { IsOpen (F.seen face.new) }
    ensures nothing { IsSome result → HasNoToken (F.seen face.new) }
    ensures beside { F.beside face.new ≡ F.beside face.old }
{
    match step {
        Step::Send(app, buffers, pieces) if app < face.apps() => {
            for _ in 0..buffers {
                if !send_pieces(face, app, pieces) {
                    return None;
                }
            }
            Some(Told::Done)
        }
        Step::Search(needed) if needed <= 64 => {
            let end = find_fresh(face, stats, needed);
            end.count(stats);
            let found = !matches!(end, SearchEnd::Empty);
            Some(Told::Found(found, face.cached(), *stats))
        }
        Step::Drain => {
            let mut pool = Pool::new(64);
            let count = nic_drain(face, &mut pool);
            Some(Told::Drained(count, pool.stats().strays, face.cached()))
        }
        _ => None,
    }
}

/// Takes a buffer, sends so many pieces of a byte of it, and closes it. `false` where no buffer is cached, or where it or
/// the note ring has no room for them.
fn send_pieces<F: NicFace>(face: &mut F, app: u32, pieces: u32) -> bool
    requires open { IsOpen (F.seen face.old) }
    requires app { app < apps_of (F.seen face.old).setting }
    requires nothing { HasNoToken (F.seen face.old) }
    ensures open { IsOpen (F.seen face.new) }
    ensures setting { (F.seen face.new).setting ≡ (F.seen face.old).setting }
    ensures nothing { IsTrue result → HasNoToken (F.seen face.new) }
    ensures beside { F.beside face.new ≡ F.beside face.old }
{
    let Some(mut own) = face.take() else {
        return false;
    };
    for _ in 0..pieces {
        if !send_piece(face, &mut own, app) {
            return false;
        }
    }
    face.shut(own);
    true
}

/// Sends a piece of a byte. `false` where the buffer or the note ring has no room for it.
fn send_piece<F: NicFace>(face: &mut F, own: &mut Own, app: u32) -> bool
    requires open { IsOpen (F.seen face.old) }
    requires app { app < apps_of (F.seen face.old).setting }
    requires own { (F.seen face.old).owns ≡ own.old ∷ [] }
    requires pieces { (F.seen face.old).pieces ≡ [] }
    ensures open { IsOpen (F.seen face.new) }
    ensures setting { (F.seen face.new).setting ≡ (F.seen face.old).setting }
    ensures own { (F.seen face.new).owns ≡ own.new ∷ [] }
    ensures pieces { IsTrue result → (F.seen face.new).pieces ≡ [] }
    ensures beside { F.beside face.new ≡ F.beside face.old }
{
    if own.start() >= own.size() {
        return false;
    }
    let piece = face.place(own, &[7]);
    let note = Note {
        frame: 1,
        flow: 0,
        base: 1,
        seq: 1,
        at: 0,
        total: 1,
        place: piece.place(),
        split: true,
        fin: false,
    };
    face.send(app, note, piece).is_ok()
}

/// Makes a step of an application. `false` where it can't be made.
pub fn app_step<F: AppFace>(face: &mut F, step: Step) -> bool
    requires { IsIdleApp (F.seen face.old) }
    ensures idle { IsTrue result → IsIdleApp (F.seen face.new) }
    ensures beside { F.beside face.new ≡ F.beside face.old }
{
    match step {
        Step::GiveBack(_, pieces, stray) => {
            for _ in 0..pieces {
                if !give_piece(face, stray) {
                    return false;
                }
            }
            true
        }
        Step::WriteStray(_) => face.push_raw(VOID).is_ok(),
        _ => false,
    }
}

/// Takes a note and gives its piece back, behind an entry that names no buffer if `stray`. `false` where there is no note
/// or no room, or where such an entry is still on its way.
fn give_piece<F: AppFace>(face: &mut F, stray: bool) -> bool
    requires { IsIdleApp (F.seen face.old) }
    ensures idle { IsTrue result → IsIdleApp (F.seen face.new) }
    ensures beside { F.beside face.new ≡ F.beside face.old }
{
    if !face.settle() {
        return false;
    }
    let mut linear = [0; 256];
    let Polled::Note(_, held) = face.poll(&mut linear) else {
        return false;
    };
    let loan = face.lend(held);
    if stray && face.push_raw(VOID).is_err() {
        return false;
    }
    face.give(loan).is_ok()
}

/// Takes all buffers out of the cache.
fn take_all<F: NicFace>(face: &mut F, taken: &mut Vec<u32>) -> Result<(), AllocError>
    requires open { IsOpen (F.seen face.old) }
    ensures open { IsOpen (F.seen face.new) }
    ensures setting { (F.seen face.new).setting ≡ (F.seen face.old).setting }
{
    for _ in 0..face.cached() {
        if let Some(own) = face.take() {
            taken.push(own.buffer())?;
        }
    }
    Ok(())
}

/// Takes all buffers out of the cache, and then those of the free list, word by word.
pub fn collect<F: NicFace>(face: &mut F, taken: &mut Vec<u32>) -> Result<(), AllocError>
    requires { IsOpen (F.seen face.old) }
{
    take_all(face, taken)?;
    for word in 0..face.free_words() {
        if face.cached() < 64 {
            face.sweep(word);
            take_all(face, taken)?;
        }
    }
    Ok(())
}
