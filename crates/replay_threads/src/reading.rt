//! The turns of the reading, and the loop of its thread: what it reads is sent to the card, or held where the ring is full.
ghost use Rattle.std.specs.Prelude.{◌≡◌, ◌+◌, ◌≤◌, false, List, [], ◌∷◌, ◌++◌, length, None, option_to_list, IfOk, IfSome};
ghost use Rattle.zr_kinds.specs.Limits.{most_records};
ghost use Rattle.rtrb.specs.Ring.{sent, SameProducer};
ghost use Rattle.card_feed.specs.{Coming.{is_over}, Feed.{one_if}};
ghost use Rattle.replay_threads.specs.{Carried.{MayFollow, is_end, has_end}, Made.{MakesMessage}, Reader.{IsReaderOpened, ReaderGoes}};
ghost use Rattle.replay_threads.specs.declared.carried.Carried.{Carried};

use crate::carried::{Carried, InOrder};
use crate::reader::Reader;
use card_feed::{Arrived, Stage};
use crossbeam_utils::Backoff;
use rtrb::{Consumer, Producer, PushError, RingBuffer};
use run_account::{BEGINNING, IDLE, Loops};
use std::alloc::{AllocError, Global};
use std::sync::Wait;
use zr_io::Source;
use zr_kinds::{Fault, MOST_RECORDS};

/// How many messages, or vectors, a ring has room for.
const RINGS: usize = 256;

/// A reading that has read nothing, and the card's ends of its rings.
#[derive(Drop)]
pub struct Opened {
    pub reader: Reader,
    /// Where what it makes comes out.
    pub frames: Consumer<Carried, Global, InOrder>,
    /// Where memory for frames goes back to it.
    pub spares: Producer<Vec<u8>>,
}

/// Makes the rings of a reading.
pub fn open_reading(alloc: Global) -> Result<Opened, AllocError>
    ensures { IfOk result IsReaderOpened }
{
    let (ring, frames) = RingBuffer::with_protocol::<Global, InOrder>(alloc, RINGS)?;
    let (spares, empties) = RingBuffer::new(alloc, RINGS)?;
    let reader = Reader {
        stage: Stage::Unopened,
        count: 0,
        held: None,
        ring,
        empties,
        alloc,
    };
    Ok(Opened {
        reader,
        frames,
        spares,
    })
}

/// Sends a message. Where the ring is full, it comes back.
fn send(ring: &mut Producer<Carried, Global, InOrder>, message: Carried) -> Option<Carried>
    requires follows { MayFollow (sent ring.old) message }
    ensures ring { SameProducer ring.old ring.new }
    ensures all { sent ring.new ++ option_to_list result ≡ sent ring.old ++ message ∷ [] }
    ensures follows { IfSome result (MayFollow (sent ring.new)) }
{
    match ring.push(message) {
        Ok(()) => None,
        Err(PushError::Full(message)) => Some(message),
    }
}

/// Memory for a frame: the card's, if it gave some back.
fn spare(empties: &mut Consumer<Vec<u8>>, alloc: Global) -> Vec<u8> {
    match empties.pop() {
        Ok(bytes) => bytes,
        Err(_) => Vec::new(alloc),
    }
}

/// The next message, behind so many records: a record more and the bytes of its frame, or how the reading ended.
fn next_message<S: Source>(
    stage: &mut Stage,
    alloc: Global,
    count: u32,
    source: &mut S,
    into: Vec<u8>,
) -> Carried
    requires goes { is_over stage.old ≡ false }
    requires few { count ≤ most_records }
    ensures makes { MakesMessage S.left S.faults count source.old stage.old result source.new
        stage.new }
    ensures over { is_over stage.new ≡ is_end result }
    ensures few { count + 1 ≤ most_records + one_if (is_end result) }
    ensures follows { (before : List Carried) → length before ≡ count → has_end before ≡ false
        → MayFollow before result }
{
    match stage.read(alloc, source, into) {
        Arrived::Frame(record, bytes) if count < MOST_RECORDS => {
            Carried::Frame(count + 1, record, bytes)
        }
        Arrived::Frame(_, _) => {
            *stage = Stage::Over(Some(Fault::TooManyFrames));
            Carried::Over(Some(Fault::TooManyFrames))
        }
        Arrived::Nothing => unreachable!(),
        Arrived::Over(end) => {
            *stage = Stage::Over(end);
            Carried::Over(end)
        }
    }
}

/// Makes the next message, and sends or holds it.
fn make_next<S: Source>(reader: &mut Reader, source: &mut S)
    requires none { reader.old.held ≡ None }
    requires goes { is_over reader.old.stage ≡ false }
    ensures goes { ReaderGoes S.left S.faults source.old source.new reader.old reader.new }
{
    let into = spare(&mut reader.empties, reader.alloc);
    let message = next_message(&mut reader.stage, reader.alloc, reader.count, source, into);
    reader.count += 1;
    reader.held = send(&mut reader.ring, message);
}

/// Sends the message that is held, or makes the next. `false` says that nothing was done: the ring is full, or all was read.
pub fn read_turn<S: Source>(reader: &mut Reader, source: &mut S) -> bool
    ensures goes { ReaderGoes S.left S.faults source.old source.new reader.old reader.new }
{
    match reader.held.take() {
        Some(message) => {
            reader.held = send(&mut reader.ring, message);
            reader.held.is_none()
        }
        None if reader.stage.is_over() => false,
        None => {
            make_next(reader, source);
            true
        }
    }
}

/// Turns, until something is done in one. `false` says that no more of the capture is wanted, or that all loops end, since the card
/// takes no turns, for one.
#[tactic(auto, using(crate::proofs::ReaderTurns::reads_same, crate::proofs::ReaderTurns::reads_more))]
fn read_turns<S: Source, R: Wait>(
    rt: &R,
    beside: &Loops,
    source: &mut S,
    reader: &mut Reader,
) -> bool
    ensures goes { ReaderGoes S.left S.faults source.old source.new reader.old reader.new }
{
    let backoff = Backoff::new();
    for looks in 0..IDLE {
        if beside.is_enough() || beside.is_halted() {
            return false;
        }
        if looks >= BEGINNING && !beside.card_runs() {
            beside.halt();
            return false;
        }
        if read_turn(reader, source) {
            beside.stir_card();
            return true;
        }
        beside.rest_reading(rt, looks, &backoff);
    }
    beside.card_runs()
}

/// The turns of the reading, until it is over or no more of it is wanted, or all loops end.
#[tactic(auto, using(crate::proofs::ReaderTurns::reads_same, crate::proofs::ReaderTurns::reads_more))]
fn read_loop<S: Source, R: Wait>(rt: &R, beside: &Loops, source: &mut S, reader: &mut Reader)
    ensures goes { ReaderGoes S.left S.faults source.old source.new reader.old reader.new }
{
    // The bound is never reached. By it the loop is seen to end.
    for _ in 0..u64::MAX {
        if reader.is_over() || !read_turns(rt, beside, source, reader) {
            return;
        }
    }
}

/// The loop of the reading.
pub fn run_reader<S: Source, R: Wait>(rt: &R, beside: &Loops, source: &mut S, reader: &mut Reader)
    ensures goes { ReaderGoes S.left S.faults source.old source.new reader.old reader.new }
{
    beside.set_reading(true);
    read_loop(rt, beside, source, reader);
    beside.set_reading(false);
}
