//! A stream of loans at the board on words, step by step: a step of the card, or of the stream with what it gives.
ghost use Rattle.board_face.specs.AppCalls.{HasLoan};
ghost use Rattle.std.specs.Prelude.{◌≡◌};
ghost use Rattle.zc_poll.specs.Standing.{StreamStands};

use crate::step::{Step, went};
use crate::words::{Card, open, seats};
use board_face::AppFace;
use std::alloc::{AllocError, Global};
use std::process::Abort;
use std::test::*;
use word_board::AppSeat;
use zc_poll::{Lent, LoanStream, Step as Gave, Waits};

/// Whether an item's loan has these bytes. It is given up.
fn has_bytes<F: AppFace>(
    alloc: Global,
    stream: &mut LoanStream<F>,
    lent: Lent,
    wanted: &[u8],
) -> Result<bool, AllocError>
    requires stands { StreamStands stream.old.desk (F.seen stream.old.face) }
    requires out { HasLoan (F.seen stream.old.face) lent.loan }
    ensures stands { StreamStands stream.new.desk (F.seen stream.new.face) }
{
    let len = lent.loan.place().len;
    let Ok(mut bytes) = vec![in alloc; 0; len as usize] else {
        stream.abandon(lent.into_loan());
        return Err(AllocError);
    };
    stream.read(&lent.loan, 0, &mut bytes);
    stream.abandon(lent.into_loan());
    Ok(bytes.as_slice() == wanted)
}

/// Whether an item is the one that is wanted. Its loan is given up.
fn is_item(
    alloc: Global,
    stream: &mut LoanStream<AppSeat<'_>>,
    lent: Lent,
    wanted: Step<'_>,
) -> Result<bool, AllocError>
    requires stands { StreamStands stream.old.desk stream.old.face.side.view }
    requires out { HasLoan stream.old.face.side.view lent.loan }
    ensures { StreamStands stream.new.desk stream.new.face.side.view }
{
    match wanted {
        Step::Gives(flow, position, bytes, copied) => {
            let same = lent.flow == flow && lent.position == position && lent.copied == copied;
            Ok(has_bytes(alloc, stream, lent, bytes)? && same)
        }
        Step::GivesLast(bytes) => {
            stream.stop();
            has_bytes(alloc, stream, lent, bytes)
        }
        _ => {
            stream.abandon(lent.into_loan());
            Ok(false)
        }
    }
}

/// Whether a step of the stream gives what it is to give.
fn gives(
    alloc: Global,
    stream: &mut LoanStream<AppSeat<'_>>,
    wanted: Step<'_>,
) -> Result<bool, AllocError>
    requires { StreamStands stream.old.desk stream.old.face.side.view }
    ensures { StreamStands stream.new.desk stream.new.face.side.view }
{
    if let Step::Stops = wanted {
        stream.stop();
        return Ok(true);
    }
    match stream.step() {
        Gave::Item(lent) => is_item(alloc, stream, lent, wanted),
        Gave::Waiting(why) => Ok(matches!(wanted, Step::Waits(wants) if wants == why)),
        Gave::Ended => Ok(matches!(wanted, Step::Ends)),
        Gave::Memory => Ok(false),
    }
}

/// A run of a stream over rings of so many places.
fn plays(
    rt: &impl Abort,
    alloc: Global,
    name: &str,
    places: u32,
    steps: &[Step<'_>],
) -> Result<(), Fail> {
    let (board, mut desk) = open(alloc, 4, 4096, places)?;
    let (mut card, seat) = seats(&board, &mut desk)?;
    let mut stream = LoanStream::new(alloc, seat, 0);
    let mut number = 0u32;
    for step in steps {
        number = number.wrapping_add(1);
        if !card.makes(rt, name, number, *step) {
            let well = gives(alloc, &mut stream, *step)?;
            went(rt, name, number, well);
        }
    }
    Ok(())
}

#[test]
fn items_come_in_the_order_of_their_flows(rt: HostRuntime) -> Result<(), Fail> {
    plays(
        &rt,
        rt.alloc(),
        "items",
        16,
        &[
            Step::First,
            Step::Send(0, 1000, b"hello"),
            Step::Send(3, 1002, b"cd"),
            Step::Short(3, 1000, b"ab"),
            Step::Send(0, 1003, b"XX, world"),
            Step::Send(0, 1020, b"behind a gap"),
            Step::End,
            Step::Gives(0, 0, b"hello", false),
            Step::Gives(3, 0, b"ab", true),
            Step::Gives(3, 2, b"cd", false),
            Step::Gives(0, 5, b", world", false),
            Step::Ends,
            Step::Ends,
        ],
    )
}

/// The first step takes as many notes as a ring has places.
#[test]
fn a_stream_waits_for_notes(rt: HostRuntime) -> Result<(), Fail> {
    plays(
        &rt,
        rt.alloc(),
        "a gap",
        2,
        &[
            Step::First,
            Step::Send(0, 1004, b"ef"),
            Step::Send(0, 1002, b"cd"),
            Step::Waits(Waits::Enough),
            Step::Waits(Waits::NoNote),
        ],
    )
}

/// Stopped between two items, and while a loan is out, which can be read still: what comes later brings no item.
#[test]
fn a_stopped_stream_gives_no_more(rt: HostRuntime) -> Result<(), Fail> {
    plays(
        &rt,
        rt.alloc(),
        "between two items",
        4,
        &[
            Step::First,
            Step::Send(0, 1000, b"ab"),
            Step::Send(0, 1002, b"cd"),
            Step::End,
            Step::Gives(0, 0, b"ab", false),
            Step::Stops,
            Step::Ends,
        ],
    )?;
    plays(
        &rt,
        rt.alloc(),
        "while a loan is out",
        16,
        &[
            Step::First,
            Step::Send(0, 1000, b"ab"),
            Step::Send(0, 1004, b"behind a gap"),
            Step::GivesLast(b"ab"),
            Step::Send(0, 1002, b"cd"),
            Step::Waits(Waits::NoNote),
            Step::End,
            Step::Ends,
        ],
    )
}
