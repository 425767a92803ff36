//! Forwarding over the board on words, by one thread: the card sends a note where the stream waits, and deals with entries.
ghost use Rattle.std.specs.Prelude.{◌≡◌, ◌<◌, ◌≤◌, []};

use crate::card::{CardMove, Told};
use crate::moody::{Mood, Moody};
use crate::step::{Line, piece, short};
use crate::words::{Card, open, seats};
use board_face::Entry;
use std::alloc::{AllocError, Global};
use std::process::Abort;
use std::test::*;
use zc_forward::{Carrier, Forward, ShelfCarrier};
use zc_poll::{LoanStream, PollTurn, Poured, Rests, Waits};
use zr_io::MemShelf;
use zr_kinds::Stopped;

/// What the card sends: payloads of three bytes, to four flows in turn.
#[derive(Clone, Copy)]
struct Script {
    buffers: u32,
    payloads: u32,
    /// Every so many payloads one travels in its note.
    short_each: u32,
    /// So many loans of those that were sent stay out until the card has ended.
    kept: u32,
}

/// The bytes of a payload.
fn bytes_of(number: u32) -> [u8; 3] {
    let letter = (number % 23) as u8 + 65;
    [letter, letter + 1, letter + 2]
}

/// How many payloads the card sent, and how many loans came back.
#[derive(Clone, Copy)]
struct Count {
    sent: u32,
    back: u32,
    /// A loan came back before it was to.
    early: bool,
}

/// The card deals with an entry. Where the stream waits for a note, it sends the next payload, or ends behind the last. Where it has no buffer
/// the payload travels in its note.
fn feed(card: &mut Card<'_>, count: &mut Count, script: &Script, why: Rests)
    ensures { card.new.nic.board ≡ card.old.nic.board }
{
    if card.make(CardMove::Entry) != Told::Entry(Entry::Empty) {
        count.back = count.back.wrapping_add(1);
    }
    if !card.hand.ended() && count.sent.wrapping_sub(count.back) < script.kept.min(count.sent) {
        count.early = true;
    }
    card.make(CardMove::Sweep);
    if why != Rests::Stream(Waits::NoNote) {
        return;
    }
    if count.sent == script.payloads {
        card.make(CardMove::End);
        return;
    }
    if sends(card, script, count.sent) {
        count.sent = count.sent.wrapping_add(1);
    }
}

/// The card sends the payload of this number, if it can: whether it did.
fn sends(card: &mut Card<'_>, script: &Script, number: u32) -> bool
    ensures { card.new.nic.board ≡ card.old.nic.board }
{
    let wants = script.short_each == 0 || number % script.short_each != 0;
    let split = wants && card.make(CardMove::Take) == Told::Done;
    let (flow, seq) = (number % 4, 1000u32.wrapping_add(number / 4 * 3));
    let bytes = bytes_of(number);
    let next = if split {
        CardMove::Send(piece(number, flow, 1000, seq, 0, 3), &bytes)
    } else {
        CardMove::SendLinear(short(number, flow, 1000, seq, 3), &bytes)
    };
    card.make(next) == Told::Done
}

/// What was sent is forwarded, and how many buffers are free at the end.
fn forwards<C: Carrier + Drop>(
    alloc: Global,
    script: &Script,
    carrier: C,
) -> Result<(Poured, C, usize), Fail>
    requires { C.tags carrier ≡ [] }
{
    let (board, mut desk) = open(alloc, script.buffers, 1024, 8)?;
    let (mut card, seat) = seats(&board, &mut desk)?;
    let mut count = Count {
        sent: 0,
        back: 0,
        early: false,
    };
    let mut work = Forward::new(LoanStream::new(alloc, seat, 0), carrier);
    for _turn in 0..20_000u32 {
        match work.turn() {
            PollTurn::Did => {}
            PollTurn::Idle(why) => feed(&mut card, &mut count, script, why),
            PollTurn::Ended(poured) => {
                let (seat, carrier) = work.parts();
                if count.early || !card.hand.ended() {
                    return Err(Fail::from("a loan came back early, or the card goes on"));
                }
                card.nic.back(&mut desk);
                seat.back(&mut desk);
                return Ok((poured, carrier, board.finish(desk).free.len()));
            }
        }
    }
    Err(Fail::from("it came to no end"))
}

/// Whether each flow has what it is to have.
fn is_whole(shelf: &MemShelf, script: &Script) -> bool {
    for number in 0..script.payloads {
        let bytes = bytes_of(number);
        let at = (number / 4 * 3) as usize;
        let got = shelf.flow(number % 4);
        if got.get(at..at + 3) != Some(&bytes[..]) {
            return false;
        }
    }
    true
}

fn shelf(alloc: Global, fails: &[(u64, usize)]) -> Result<MemShelf, AllocError> {
    MemShelf::new(alloc, 4, 400, fails.to_vec(alloc)?)
}

/// Compares what was forwarded in the case of this number, and that each buffer is free. How many loans were copied isn't said.
fn compare(
    rt: &impl Abort,
    script: &Script,
    case: u64,
    poured: &Poured,
    wanted: Line,
    free: usize,
) {
    let line = Line(poured.written, poured.loans, wanted.2, poured.stopped);
    let well = line == wanted && free == script.buffers as usize;
    assert!(rt; well, "{} buffers, case {case}", script.buffers);
}

/// The same where all was forwarded, and each flow has what it is to have.
fn compare_whole(
    rt: &impl Abort,
    script: &Script,
    case: u64,
    poured: &Poured,
    shelf: &MemShelf,
    free: usize,
) {
    compare(
        rt,
        script,
        case,
        poured,
        Line(210, 70, 0, Stopped::No),
        free,
    );
    let whole = is_whole(shelf, script);
    assert!(rt;
        whole,
        "{} buffers, case {case}: a flow hasn't all",
        script.buffers
    );
}

/// All goes by a shelf's carrier with this delay.
fn delayed(rt: &impl Abort, alloc: Global, script: &Script, delay: u32) -> Result<(), Fail>
    requires { delay < 64 }
{
    let carrier = ShelfCarrier::new(shelf(alloc, &[])?, delay);
    let (poured, carrier, free) = forwards(alloc, script, carrier)?;
    compare_whole(
        rt,
        script,
        u64::from(delay),
        &poured,
        &carrier.shelf(),
        free,
    );
    Ok(())
}

/// Of 70 payloads each fifth travels in its note, or none; then so many loans as the delay says stay out until the card has ended.
#[test]
fn every_delay_forwards_all(rt: HostRuntime) -> Result<(), Fail> {
    for (buffers, short_each) in [(1u32, 5), (2, 5), (64, 5), (64, 0)] {
        for delay in 0..64u32 {
            let script = Script {
                buffers,
                payloads: 70,
                short_each,
                kept: if short_each == 0 { delay } else { 0 },
            };
            delayed(&rt, rt.alloc(), &script, delay)?;
        }
    }
    Ok(())
}

/// All goes by a carrier of this mood.
fn by_mood(rt: &impl Abort, alloc: Global, script: &Script, mood: Mood) -> Result<(), Fail> {
    let carrier = Moody::new(shelf(alloc, &[])?, mood);
    let (poured, carrier, free) = forwards(alloc, script, carrier)?;
    compare_whole(
        rt,
        script,
        u64::from(mood.late),
        &poured,
        &carrier.shelf(),
        free,
    );
    Ok(())
}

/// How often a carrier is asked in vain before each notice, and whether it tells only where it is urged.
const MOODS: [(u32, bool); 6] = [
    (0, false),
    (3, false),
    (40, false),
    (0, true),
    (3, true),
    (40, true),
];

/// Notices come the latest first, late, or only where they are urged.
#[test]
fn moods_forward_all(rt: HostRuntime) -> Result<(), Fail> {
    for buffers in [1u32, 2, 64] {
        for (late, only_urged) in MOODS {
            let script = Script {
                buffers,
                payloads: 70,
                short_each: 3,
                kept: 0,
            };
            let mood = Mood {
                late,
                only_urged,
                fails_at: 0,
            };
            by_mood(&rt, rt.alloc(), &script, mood)?;
        }
    }
    Ok(())
}

/// The carrier fails at this of its calls.
fn fails_at(rt: &impl Abort, alloc: Global, script: &Script, call: u64) -> Result<(), Fail> {
    let mood = Mood {
        late: 2,
        only_urged: true,
        fails_at: call,
    };
    let carrier = Moody::new(shelf(alloc, &[])?, mood);
    let (poured, _carrier, free) = forwards(alloc, script, carrier)?;
    let wanted = Line(poured.written, poured.loans, 0, Stopped::Write);
    compare(rt, script, call, &poured, wanted, free);
    Ok(())
}

/// Whichever call of the carrier fails, every buffer is free once at the end.
#[test]
fn a_fault_at_any_call_leaves_all_free(rt: HostRuntime) -> Result<(), Fail> {
    for buffers in [1u32, 2, 64] {
        let script = Script {
            buffers,
            payloads: 12,
            short_each: 4,
            kept: 0,
        };
        for call in 1..25u64 {
            fails_at(&rt, rt.alloc(), &script, call)?;
        }
    }
    Ok(())
}

/// The shelf fails at this of its calls, in the middle of a piece.
fn shelf_fails(rt: &impl Abort, alloc: Global, script: &Script, call: u64) -> Result<(), Fail>
    requires { (1 ≤ call) × (call < 13) }
{
    let carrier = ShelfCarrier::new(shelf(alloc, &[(call, 2)])?, 3);
    let (poured, _carrier, free) = forwards(alloc, script, carrier)?;
    let wanted = Line(3 * (call - 1), call, 0, Stopped::Write);
    compare(rt, script, call, &poured, wanted, free);
    Ok(())
}

/// A fault of the shelf in the middle of a piece.
#[test]
fn a_fault_of_the_shelf_stops_it(rt: HostRuntime) -> Result<(), Fail> {
    let script = Script {
        buffers: 2,
        payloads: 12,
        short_each: 4,
        kept: 0,
    };
    for call in 1..13u64 {
        shelf_fails(&rt, rt.alloc(), &script, call)?;
    }
    Ok(())
}
