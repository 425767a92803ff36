//! Payloads in order and out of order, copies, and what is kept unread.
use super::cases::*;
use crate::step::*;
use app_worker::Turn;
use std::test::*;
use zr_kinds::{Fault, Stopped};

const IN_ORDER: [Case; 8] = [
    Case {
        name: "a payload is lent, read, appended and given back in the turn that takes its note",
        steps: &[
            Step::First,
            NO_NOTE,
            Step::Taken(0, 1000, b"hello"),
            NO_NOTE,
            Step::End,
            // The entry is still on its way, so its slot isn't free.
            DID,
            NOT_QUIET,
            FREED,
            FINISHED,
        ],
        streams: &[b"hello"],
        line: Line(5, 1, 0, Stopped::No),
        ..CASE
    },
    Case {
        name: "sequence numbers wrap, and the later piece comes first",
        base: 4_294_967_294,
        steps: &[
            Step::First,
            Step::Taken(0, 0, b"cd"),
            NO_NOTE,
            Step::Taken(0, 4_294_967_294, b"ab"),
        ],
        streams: &[b"abcd"],
        line: Line(4, 2, 0, Stopped::No),
        ..CASE
    },
    Case {
        name: "bytes that came first count",
        steps: &[
            Step::First,
            Step::Send(0, 1000, b"abc"),
            Step::Taken(0, 1001, b"XYcd"),
            DID,
            NO_NOTE,
        ],
        streams: &[b"abccd"],
        line: Line(5, 2, 0, Stopped::No),
        ..CASE
    },
    Case {
        name: "what lies behind a gap is never lent, and is given up at the end",
        steps: &[
            Step::First,
            Step::Send(0, 1000, b"ab"),
            Step::Taken(0, 1004, b"ef"),
            DID,
            NO_NOTE,
            HONOURED,
            Step::End,
            FINISHED,
        ],
        streams: &[b"ab"],
        line: Line(2, 1, 0, Stopped::No),
        ..CASE
    },
    Case {
        name: "with rings of one place the second loan waits for the first entry",
        board: (4, 1024, 1),
        steps: &[
            Step::First,
            Step::Taken(0, 1002, b"cd"),
            Step::Send(0, 1000, b"ab"),
            // The first is read and given back, the second read, and then its slot is in use.
            DID,
            REFILL_FULL,
            HONOURED,
            DID,
            NO_NOTE,
        ],
        streams: &[b"abcd"],
        line: Line(4, 2, 0, Stopped::No),
        ..CASE
    },
    Case {
        name: "each flow has a queue of its own",
        steps: &[
            Step::First,
            Step::Send(1, 1002, b"yz"),
            Step::Send(2, 1000, b"ab"),
            Step::Taken(1, 1000, b"wx"),
            DID,
            DID,
            NO_NOTE,
        ],
        streams: &[b"", b"wxyz", b"ab"],
        line: Line(6, 3, 0, Stopped::No),
        ..CASE
    },
    Case {
        name: "one completion stays unread until the next comes",
        how: (1, 0, 0, None),
        steps: &[
            Step::First,
            Step::Taken(0, 1000, b"ab"),
            NO_NOTE,
            EMPTY,
            Step::Taken(0, 1002, b"cd"),
            NO_NOTE,
        ],
        streams: &[b"ab"],
        line: Line(2, 2, 0, Stopped::No),
        ..CASE
    },
    Case {
        name: "or until the end",
        how: (1, 0, 0, None),
        steps: &[
            Step::First,
            Step::Taken(0, 1000, b"ab"),
            Step::Taken(0, 1002, b"cd"),
            Step::End,
            HONOURED,
            DID,
            FREED,
            FINISHED,
        ],
        streams: &[b"abcd"],
        line: Line(4, 2, 0, Stopped::No),
        ..CASE
    },
];

#[test]
fn payloads_in_the_area(rt: HostRuntime) -> Result<(), Fail> {
    plays(&rt, rt.alloc(), &IN_ORDER)
}

const COPIES: [Case; 5] = [
    Case {
        name: "a short payload is copied when it is its turn, read and given back",
        steps: &[
            Step::First,
            Step::Taken(0, 1000, b"ab"),
            Step::ShortTaken(0, 1002, b"cd"),
            NO_NOTE,
            HONOURED,
            HONOURED,
            Step::End,
            FINISHED,
        ],
        streams: &[b"abcd"],
        line: Line(4, 2, 1, Stopped::No),
        ..CASE
    },
    Case {
        name: "where the application gives up the last piece of a buffer, the copy lies in it",
        steps: &[
            Step::First,
            Step::Taken(0, 1000, b"ab"),
            HONOURED,
            Step::Send(0, 1000, b"ab"),
            Step::Shut,
            DID,
            Step::ShortTaken(0, 1002, b"cd"),
            FREED,
            NO_NOTE,
        ],
        streams: &[b"abcd"],
        line: Line(4, 2, 1, Stopped::No),
        ..CASE
    },
    Case {
        name: "of a short payload only what is missing is kept, each part at its place",
        steps: &[
            Step::First,
            Step::Taken(0, 1002, b"cd"),
            Step::ShortTaken(0, 1000, b"abXYef"),
            // The first copy was in the reserve, and is on its way back.
            RESERVE_HELD,
            HONOURED,
            DID,
            NO_NOTE,
        ],
        streams: &[b"abcdef"],
        line: Line(6, 3, 2, Stopped::No),
        ..CASE
    },
    Case {
        name: "with a copy in the reserve all is read that was kept unread before",
        how: (2, 0, 0, None),
        steps: &[
            Step::First,
            Step::Taken(0, 1000, b"ab"),
            Step::Taken(0, 1002, b"cd"),
            Step::ShortTaken(0, 1004, b"ef"),
            NO_NOTE,
            Step::Taken(0, 1006, b"gh"),
            NO_NOTE,
        ],
        streams: &[b"abcdef"],
        line: Line(6, 4, 1, Stopped::No),
        ..CASE
    },
    Case {
        name: "a shelf that fails stops the application, which goes on taking notes",
        fails: &[(1, 2)],
        steps: &[
            Step::First,
            Step::Send(0, 1000, b"hello"),
            Step::Takes(Turn::Failed(Fault::Write)),
            Step::Taken(0, 1005, b"more"),
            NO_NOTE,
            Step::End,
            FINISHED,
        ],
        streams: &[b"he"],
        line: Line(0, 1, 0, Stopped::Write),
        ..CASE
    },
];

#[test]
fn copies_and_a_fault(rt: HostRuntime) -> Result<(), Fail> {
    plays(&rt, rt.alloc(), &COPIES)
}
