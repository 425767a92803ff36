//! Plays of the card's pool, with one application: what is offered, and the notes that come of it.
ghost use Rattle.std.specs.Prelude.{◌≡◌, IfOk};
ghost use Rattle.board_face.specs.AppCalls.{IsHere, CanLend};
ghost use Rattle.board_runs.specs.Played.{IsOffering};
ghost use Rattle.face_table.specs.Reader.{HasNothing};
ghost use Rattle.page_pool.specs.Pool.{PoolStands};

use super::drawing::drawn;
use area_layout::Layout;
use board_face::{AppFace, NicFace, Polled};
use page_pool::{Offer, Pool, Verdict, nic_close, nic_drain, nic_flush, nic_offer};
use plain_board::PlainBoard;
use std::alloc::{AllocError, Global};
use std::process::Abort;
use std::test::*;
use zr_kinds::{LONGEST_PAYLOAD, Note};

/// A step of the card or of the application.
#[derive(Clone, Copy)]
enum Step {
    /// The card offers a frame with so many bytes. Frames that are accepted are numbered from 0.
    Offer(u32, u32),
    /// It offers a frame until it is accepted. Where it isn't, the application takes all notes.
    Put(u32, u32),
    /// It sends what is pending.
    Flush,
    /// It does so until nothing is. Where something is, the application takes all notes.
    FlushAll,
    /// It drains the refill ring.
    Drain,
    /// It ends, where nothing is pending.
    Close,
    /// How many notes are pending.
    Pending,
    /// How many offers found too few buffers.
    Empty,
    /// The application takes a note, reads its piece and gives it back, and the card drains the refill ring.
    Take,
    /// It takes all that there are.
    TakeAll,
}

/// What a step answers.
#[derive(Clone, Copy, PartialEq, Eq)]
enum Told {
    Done,
    /// It can't be made.
    Skipped,
    Offer(Verdict),
    Number(u64),
    Flag(bool),
    /// A note of a frame, whose bytes follow so many others, and of a piece: its buffer, offset and length.
    Piece(u32, u32, (u32, u32, u32)),
    /// A note in which so many bytes travelled.
    Linear(u32, u32),
    NoNote,
}

const ACCEPTED: Told = Told::Offer(Verdict::Accepted);

/// What is offered to the application, and what it has taken.
#[derive(Drop)]
struct Taken {
    offered: Vec<u8>,
    bytes: Vec<u8>,
    /// The frame whose notes are next, and how many of its bytes were taken.
    frame: u32,
    at: u32,
}

impl Taken {
    fn new(alloc: Global) -> Taken {
        Taken {
            offered: Vec::new(alloc),
            bytes: Vec::new(alloc),
            frame: 0,
            at: 0,
        }
    }

    /// Adds the bytes of a note. Those of a frame come together, in the order of their bytes.
    fn add(&mut self, note: &Note, text: &[u8]) -> Result<Told, Fail> {
        let is_next = (note.frame, note.at) == (self.frame, self.at);
        let is_whole = (note.flow, note.base, note.seq, note.fin) == (3, 1_000, 5_000, true);
        if !is_next || !is_whole {
            return Err(Fail::from("not the next note"));
        }
        self.bytes.extend_from_slice(text)?;
        self.at = self.at.saturating_add(note.place.len);
        if self.at == note.total {
            self.frame = self.frame.saturating_add(1);
            self.at = 0;
        }
        let place = note.place;
        Ok(if note.split {
            Told::Piece(note.frame, note.at, (place.buffer, place.offset, place.len))
        } else {
            Told::Linear(note.frame, note.total)
        })
    }

    /// Compares the bytes that were taken with those that were offered.
    fn compare(&self, rt: &impl Abort, play: &Play<'_>, whole: bool) {
        let is_front = self.offered.starts_with(&self.bytes);
        let is_whole = self.bytes.len() == self.offered.len();
        assert!(rt;
            is_front && (is_whole || !whole),
            "{} {}",
            play.name,
            play.seed
        );
    }
}

/// Bytes that tell a frame from another.
fn payload(alloc: Global, frame: u32, len: u32) -> Result<Vec<u8>, AllocError> {
    let mut bytes = Vec::new(alloc);
    for at in 0..len {
        bytes.push((frame.wrapping_mul(101).wrapping_add(at) % 251) as u8)?;
    }
    Ok(bytes)
}

/// Offers a frame.
fn offer<F: NicFace>(face: &mut F, pool: &mut Pool, ended: bool, frame: u32, payload: &[u8]) -> Told
    requires stands { PoolStands pool.old (F.seen face.old) }
    requires ended { (F.seen face.old).ended ≡ ended }
    ensures stands { PoolStands pool.new (F.seen face.new) }
    ensures ended { (F.seen face.new).ended ≡ ended }
    ensures beside { F.beside face.new ≡ F.beside face.old }
{
    if ended || payload.is_empty() || payload.len() > LONGEST_PAYLOAD as usize || face.apps() == 0 {
        return Told::Skipped;
    }
    let offer = Offer {
        app: 0,
        frame,
        flow: 3,
        base: 1_000,
        seq: 5_000,
        fin: true,
        payload,
    };
    Told::Offer(nic_offer(face, pool, &offer))
}

/// Ends, where nothing is pending.
fn close<F: NicFace>(face: &mut F, pool: &mut Pool, ended: &mut bool) -> Told
    requires stands { PoolStands pool.old (F.seen face.old) }
    requires ended { (F.seen face.old).ended ≡ ended.old }
    ensures stands { PoolStands pool.new (F.seen face.new) }
    ensures ended { (F.seen face.new).ended ≡ ended.new }
    ensures beside { F.beside face.new ≡ F.beside face.old }
{
    if *ended || !nic_flush(face, pool) {
        return Told::Skipped;
    }
    nic_close(face, pool);
    *ended = true;
    Told::Done
}

/// Makes a step of the card.
fn card_step<F: NicFace>(
    face: &mut F,
    pool: &mut Pool,
    ended: &mut bool,
    step: Step,
    payload: &[u8],
) -> Told
    requires stands { PoolStands pool.old (F.seen face.old) }
    requires ended { (F.seen face.old).ended ≡ ended.old }
    ensures stands { PoolStands pool.new (F.seen face.new) }
    ensures ended { (F.seen face.new).ended ≡ ended.new }
    ensures beside { F.beside face.new ≡ F.beside face.old }
{
    match step {
        Step::Offer(frame, _) | Step::Put(frame, _) => offer(face, pool, *ended, frame, payload),
        Step::Flush if !*ended => Told::Flag(nic_flush(face, pool)),
        Step::Drain => Told::Number(u64::from(nic_drain(face, pool))),
        Step::Close => close(face, pool, ended),
        Step::Pending => Told::Number(u64::from(pool.pending())),
        Step::Empty => Told::Number(pool.stats().empty),
        _ => Told::Skipped,
    }
}

/// Takes the next note, reads its bytes, and gives its piece back.
fn take_note<F: AppFace>(face: &mut F, text: &mut [u8; 2048]) -> Option<Note>
    requires here { IsHere (F.seen face.old) }
    requires can { CanLend (F.seen face.old) }
    requires nothing { HasNothing (F.seen face.old) }
    ensures here { IsHere (F.seen face.new) }
    ensures can { CanLend (F.seen face.new) }
    ensures nothing { HasNothing (F.seen face.new) }
    ensures beside { F.beside face.new ≡ F.beside face.old }
{
    let mut linear = [0; 256];
    match face.poll(&mut linear) {
        Polled::Note(note, held) => {
            let loan = face.lend(held);
            let len = loan.place().len as usize;
            if len <= 2048 {
                face.read(&loan, 0, &mut text[..len]);
            }
            if let Err(loan) = face.give(loan) {
                face.abandon(loan);
            }
            Some(note)
        }
        Polled::Linear(note) => {
            text[..256].copy_from_slice(&linear);
            Some(note)
        }
        _ => None,
    }
}

/// The application takes a note, and the card drains the refill ring.
fn take(
    board: PlainBoard,
    pool: &mut Pool,
    ended: bool,
    taken: &mut Taken,
) -> Result<(PlainBoard, Told), Fail>
    requires { IsOffering pool.old ended board }
    ensures { IfOk result (λ told. IsOffering pool.new ended told.0) }
{
    let mut text = [0; 2048];
    let mut app = board.app(0);
    let note = take_note(&mut app, &mut text);
    let mut nic = app.back().nic();
    nic_drain(&mut nic, pool);
    let board = nic.back();
    let Some(note) = note else {
        return Ok((board, Told::NoNote));
    };
    let told = taken.add(&note, &text[..(note.place.len as usize).min(2048)])?;
    Ok((board, told))
}

/// It takes all notes that there are.
fn take_all(
    board: PlainBoard,
    pool: &mut Pool,
    ended: bool,
    taken: &mut Taken,
) -> Result<PlainBoard, Fail>
    requires { IsOffering pool.old ended board }
    ensures { IfOk result (λ board. IsOffering pool.new ended board) }
{
    let mut board = board;
    for _ in 0..64 {
        let (then, told) = take(board, pool, ended, taken)?;
        board = then;
        if told == Told::NoNote {
            break;
        }
    }
    Ok(board)
}

/// The card has the board for a step.
fn card_turn(
    board: PlainBoard,
    pool: &mut Pool,
    ended: &mut bool,
    taken: &mut Taken,
    step: Step,
    payload: &[u8],
) -> Result<(PlainBoard, Told), Fail>
    requires { IsOffering pool.old ended.old board }
    ensures { IfOk result (λ told. IsOffering pool.new ended.new told.0) }
{
    let mut nic = board.nic();
    let told = card_step(&mut nic, pool, ended, step, payload);
    if told == ACCEPTED {
        taken.offered.extend_from_slice(payload)?;
    }
    Ok((nic.back(), told))
}

/// The card makes a step again and again, until it answers what it is to. Before each time but the first the application takes all
/// notes.
fn until(
    board: PlainBoard,
    pool: &mut Pool,
    ended: &mut bool,
    taken: &mut Taken,
    step: Step,
    payload: &[u8],
    wanted: Told,
) -> Result<(PlainBoard, Told), Fail>
    requires { IsOffering pool.old ended.old board }
    ensures { IfOk result (λ told. IsOffering pool.new ended.new told.0) }
{
    let mut board = board;
    for _ in 0..16 {
        let (then, told) = card_turn(board, pool, ended, taken, step, payload)?;
        if told == wanted {
            return Ok((then, told));
        }
        board = take_all(then, pool, *ended, taken)?;
    }
    Err(Fail::from("never answered as it is to"))
}

/// Makes a step.
fn one_step(
    alloc: Global,
    board: PlainBoard,
    pool: &mut Pool,
    ended: &mut bool,
    taken: &mut Taken,
    step: Step,
) -> Result<(PlainBoard, Told), Fail>
    requires { IsOffering pool.old ended.old board }
    ensures { IfOk result (λ told. IsOffering pool.new ended.new told.0) }
{
    match step {
        Step::Take => take(board, pool, *ended, taken),
        Step::TakeAll => Ok((take_all(board, pool, *ended, taken)?, Told::Done)),
        Step::FlushAll => until(
            board,
            pool,
            ended,
            taken,
            Step::Flush,
            &[],
            Told::Flag(true),
        ),
        Step::Put(frame, len) => {
            let payload = payload(alloc, frame, len)?;
            until(board, pool, ended, taken, step, &payload, ACCEPTED)
        }
        Step::Offer(frame, len) => {
            let payload = payload(alloc, frame, len)?;
            card_turn(board, pool, ended, taken, step, &payload)
        }
        _ => card_turn(board, pool, ended, taken, step, &[]),
    }
}

/// Steps with what they have to answer, over areas of these numbers of buffers and their sizes, with rings of so many places.
#[derive(Drop)]
struct Play<'a> {
    name: &'a str,
    seed: u64,
    areas: &'a [(u32, u32)],
    places: u32,
    steps: &'a [(Step, Told)],
}

/// The step of this number answered as it was to.
fn answered(rt: &impl Abort, play: &Play<'_>, number: u32, well: bool) {
    assert!(rt; well, "{} {}: step {number}", play.name, play.seed);
}

/// Makes the steps of a play at a board that was just opened, and compares their answers. At the end the bytes that were taken are
/// the first of those that were offered, and all of them where `whole`.
fn run(rt: &impl Abort, alloc: Global, play: &Play<'_>, whole: bool) -> Result<(), Fail> {
    let layout = Layout::of(play.areas, 1).ok_or("no layout")?;
    if play.places < 1 || play.places > 256 {
        return Err(Fail::from("no such rings"));
    }
    let mut board = PlainBoard::open(alloc, layout, 1, play.places)?;
    let mut pool = Pool::new(64);
    let mut ended = false;
    let mut taken = Taken::new(alloc);
    let mut number = 0u32;
    for &(step, wanted) in play.steps {
        number = number.wrapping_add(1);
        let (then, told) = one_step(alloc, board, &mut pool, &mut ended, &mut taken, step)?;
        board = then;
        answered(rt, play, number, told == wanted);
    }
    taken.compare(rt, play, whole);
    Ok(())
}

/// Makes these steps, with rings of so many places.
fn steps(
    rt: &impl Abort,
    alloc: Global,
    areas: &[(u32, u32)],
    places: u32,
    steps: &[(Step, Told)],
) -> Result<(), Fail> {
    let play = Play {
        name: "steps",
        seed: 0,
        areas,
        places,
        steps,
    };
    run(rt, alloc, &play, false)
}

/// A payload goes to the current buffer at the next multiple of 64, where it fits there, and else to fresh ones from their
/// begin. At most 64 bytes travel in the note.
#[test]
fn payloads_are_packed(rt: HostRuntime) -> Result<(), Fail> {
    let alloc = rt.alloc();
    let three = &[
        (Step::Offer(0, 2500), ACCEPTED),
        (Step::Take, Told::Piece(0, 0, (0, 0, 1024))),
        (Step::Take, Told::Piece(0, 1024, (1, 0, 1024))),
        (Step::Take, Told::Piece(0, 2048, (2, 0, 452))),
        (Step::Take, Told::NoNote),
    ];
    steps(&rt, alloc, &[(8, 1024)], 16, three)?;
    let rounded = &[
        (Step::Offer(0, 100), ACCEPTED),
        (Step::Offer(1, 100), ACCEPTED),
        (Step::Offer(2, 900), ACCEPTED),
        (Step::Take, Told::Piece(0, 0, (0, 0, 100))),
        (Step::Take, Told::Piece(1, 0, (0, 128, 100))),
        (Step::Take, Told::Piece(2, 0, (1, 0, 900))),
        (Step::Take, Told::NoNote),
    ];
    steps(&rt, alloc, &[(8, 1024)], 16, rounded)?;
    let split = &[
        (Step::Offer(0, 64), ACCEPTED),
        (Step::Offer(1, 65), ACCEPTED),
        (Step::Take, Told::Linear(0, 64)),
        (Step::Take, Told::Piece(1, 0, (0, 0, 65))),
        (Step::Take, Told::NoNote),
    ];
    steps(&rt, alloc, &[(8, 1024)], 16, split)
}

/// Fresh buffers are filled each to its own size, and those that aren't needed for that stay cached.
#[test]
fn buffers_of_several_sizes_are_filled(rt: HostRuntime) -> Result<(), Fail> {
    let larger_last = &[
        (Step::Offer(0, 2500), ACCEPTED),
        (Step::Offer(1, 1500), ACCEPTED),
        (Step::Take, Told::Piece(0, 0, (0, 0, 1024))),
        (Step::Take, Told::Piece(0, 1024, (1, 0, 1024))),
        (Step::Take, Told::Piece(0, 2048, (2, 0, 452))),
        (Step::Take, Told::Piece(1, 0, (2, 512, 1500))),
        (Step::Take, Told::NoNote),
    ];
    steps(&rt, rt.alloc(), &[(2, 1024), (1, 2048)], 16, larger_last)?;
    let larger_first = &[
        (Step::Offer(0, 2500), ACCEPTED),
        (Step::Take, Told::Piece(0, 0, (0, 0, 2048))),
        (Step::Take, Told::Piece(0, 2048, (1, 0, 452))),
        (Step::Take, Told::NoNote),
    ];
    steps(&rt, rt.alloc(), &[(1, 2048), (2, 1024)], 16, larger_first)
}

/// The answer to a frame that too few buffers are cached for.
fn no_room(cached: u32, needed: u32) -> Told {
    Told::Offer(Verdict::NoRoom { cached, needed })
}

/// 63 buffers of 1,024 bytes don't hold 65,495 bytes. So many buffers of the least size have to be cached as hold the payload,
/// whatever the sizes of those that are.
#[test]
fn frame_without_room_is_refused(rt: HostRuntime) -> Result<(), Fail> {
    let refused = &[
        (Step::Offer(0, 65_495), no_room(63, 64)),
        (Step::Empty, Told::Number(1)),
        (Step::Take, Told::NoNote),
    ];
    steps(&rt, rt.alloc(), &[(63, 1024)], 16, refused)?;
    let larger = &[
        (Step::Offer(0, 2500), no_room(2, 3)),
        (Step::Empty, Told::Number(1)),
    ];
    steps(&rt, rt.alloc(), &[(1, 1024), (1, 2048)], 16, larger)
}

/// With one slot a second note waits, and so does the next frame until the first note was taken.
#[test]
fn notes_wait_for_slots(rt: HostRuntime) -> Result<(), Fail> {
    let waits = &[
        (Step::Offer(0, 1500), ACCEPTED),
        (Step::Pending, Told::Number(1)),
        (Step::Offer(1, 4), Told::Offer(Verdict::Busy)),
        (Step::Pending, Told::Number(1)),
        (Step::Take, Told::Piece(0, 0, (0, 0, 1024))),
        (Step::Offer(1, 4), ACCEPTED),
        (Step::Pending, Told::Number(1)),
        (Step::Take, Told::Piece(0, 1024, (1, 0, 476))),
        (Step::Offer(2, 4), ACCEPTED),
        (Step::Take, Told::Linear(1, 4)),
    ];
    steps(&rt, rt.alloc(), &[(8, 1024)], 1, waits)
}

/// A pending note waits until the slot before it was taken. Then nothing is pending, and the card may end.
#[test]
fn pending_note_waits_for_a_slot(rt: HostRuntime) -> Result<(), Fail> {
    let waits = &[
        (Step::Offer(0, 5), ACCEPTED),
        (Step::Offer(1, 5), ACCEPTED),
        (Step::Flush, Told::Flag(false)),
        (Step::Pending, Told::Number(1)),
        (Step::Take, Told::Linear(0, 5)),
        (Step::Flush, Told::Flag(true)),
        (Step::Pending, Told::Number(0)),
        (Step::Close, Told::Done),
        (Step::Drain, Told::Number(0)),
        (Step::Take, Told::Linear(1, 5)),
    ];
    steps(&rt, rt.alloc(), &[(2, 1024)], 1, waits)
}

/// A drawn list of payloads is offered, while the application takes notes now and then. All are accepted and taken.
fn drawn_steps(alloc: Global, state: &mut u64) -> Result<Vec<(Step, Told)>, AllocError> {
    let mut steps = Vec::new(alloc);
    for frame in 0..8 {
        let bound = if drawn(state, 2) == 0 { 200 } else { 3000 };
        let len = drawn(state, bound).saturating_add(1);
        steps.push((Step::Put(frame, len), ACCEPTED))?;
        if drawn(state, 3) == 0 {
            steps.push((Step::TakeAll, Told::Done))?;
        }
    }
    steps.push((Step::FlushAll, Told::Flag(true)))?;
    steps.push((Step::TakeAll, Told::Done))?;
    Ok(steps)
}

/// The payloads of drawn lists come out of the notes as they were offered.
fn drawn_plays(rt: &impl Abort, alloc: Global, areas: &[(u32, u32)]) -> Result<(), Fail> {
    for seed in 0..300 {
        let mut state = seed;
        let places = 1 + drawn(&mut state, 8);
        let steps = drawn_steps(alloc, &mut state)?;
        let play = Play {
            name: "seed",
            seed,
            areas,
            places,
            steps: &steps,
        };
        run(rt, alloc, &play, true)?;
    }
    Ok(())
}

#[test]
fn drawn_payloads_come_whole(rt: HostRuntime) -> Result<(), Fail> {
    drawn_plays(&rt, rt.alloc(), &[(8, 1024)])?;
    drawn_plays(&rt, rt.alloc(), &[(3, 1024), (2, 2048), (3, 1024)])
}
