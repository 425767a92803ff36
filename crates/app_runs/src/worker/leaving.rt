//! Applications that quit, leak, or push stray entries.
use super::cases::*;
use crate::step::*;
use std::test::*;
use zr_kinds::Stopped;

const QUITS: [Case; 5] = [
    Case {
        name: "it stops in the middle of a payload, and goes on taking notes",
        how: (0, 0, 0, Some(4)),
        steps: &[
            Step::First,
            Step::Taken(0, 1000, b"ab"),
            Step::Taken(0, 1002, b"cdefg"),
            Step::Taken(0, 1007, b"hi"),
            NO_NOTE,
            Step::End,
            DID,
            NOT_QUIET,
            HONOURED,
            FINISHED,
        ],
        streams: &[b"abcd"],
        line: Line(4, 2, 0, Stopped::Quit),
        ..CASE
    },
    Case {
        name: "it stops with the last byte of a payload, and keeps no piece that waits",
        how: (0, 0, 0, Some(2)),
        steps: &[
            Step::First,
            Step::Taken(0, 1004, b"ef"),
            Step::Taken(0, 1000, b"ab"),
            Step::End,
            FINISHED,
        ],
        streams: &[b"ab"],
        line: Line(2, 1, 0, Stopped::Quit),
        ..CASE
    },
    Case {
        name: "one that is to write nothing is stopped from the start",
        how: (0, 0, 0, Some(0)),
        steps: &[
            Step::First,
            DID,
            NO_NOTE,
            Step::Taken(0, 1000, b"ab"),
            NO_NOTE,
            Step::End,
            FINISHED,
        ],
        streams: &[b""],
        line: Line(0, 0, 0, Stopped::Quit),
        ..CASE
    },
    Case {
        name: "one that is to write more than there is isn't stopped",
        how: (0, 0, 0, Some(3)),
        steps: &[
            Step::First,
            Step::Taken(0, 1000, b"ab"),
            Step::End,
            DID,
            FREED,
            FINISHED,
        ],
        streams: &[b"ab"],
        line: Line(2, 1, 0, Stopped::No),
        ..CASE
    },
    Case {
        name: "it stops in the middle of a copy",
        how: (0, 0, 0, Some(3)),
        steps: &[
            Step::First,
            Step::Taken(0, 1000, b"ab"),
            Step::ShortTaken(0, 1002, b"cdef"),
            Step::ShortTaken(0, 1006, b"gh"),
            NO_NOTE,
            HONOURED,
            EMPTY,
            Step::End,
            FINISHED,
        ],
        streams: &[b"abc"],
        line: Line(3, 2, 1, Stopped::Quit),
        ..CASE
    },
];

#[test]
fn applications_quit(rt: HostRuntime) -> Result<(), Fail> {
    plays(&rt, rt.alloc(), &QUITS)
}

const LEAKS: [Case; 5] = [
    Case {
        name: "the first loan that would be given back is kept to the end, and the next are given back",
        how: (0, 1, 0, None),
        steps: &[
            Step::First,
            Step::Taken(0, 1000, b"ab"),
            EMPTY,
            Step::Taken(0, 1002, b"cd"),
            HONOURED,
            EMPTY,
            NO_NOTE,
            Step::End,
            FINISHED,
        ],
        streams: &[b"abcd"],
        line: Line(4, 2, 0, Stopped::No),
        ..CASE
    },
    Case {
        name: "all are kept where more may be than there are, also those that are read at the end",
        board: (4, 1024, 1),
        how: (1, 9, 0, None),
        steps: &[
            Step::First,
            Step::Taken(0, 1002, b"cd"),
            Step::Taken(0, 1000, b"ab"),
            Step::End,
            FINISHED,
        ],
        streams: &[b"abcd"],
        line: Line(4, 2, 0, Stopped::No),
        ..CASE
    },
    Case {
        name: "what is leaked is abandoned where the application quits",
        how: (0, 2, 0, Some(10)),
        steps: &[
            Step::First,
            Step::Taken(0, 1000, b"abcdefgh"),
            Step::Taken(0, 1008, b"ijklmnop"),
            EMPTY,
            Step::End,
            FINISHED,
        ],
        streams: &[b"abcdefghij"],
        line: Line(10, 2, 0, Stopped::Quit),
        ..CASE
    },
    Case {
        name: "one that quits scrubs in its next turn, beside a card that goes on",
        how: (0, 2, 0, Some(4)),
        steps: &[
            Step::First,
            Step::Taken(0, 1000, b"ab"),
            Step::Taken(0, 1002, b"cdef"),
            DID,
            NO_NOTE,
            Step::Taken(0, 1006, b"gh"),
            NO_NOTE,
            EMPTY,
            Step::End,
            FINISHED,
        ],
        streams: &[b"abcd"],
        line: Line(4, 2, 0, Stopped::Quit),
        ..CASE
    },
    Case {
        name: "a copy in the reserve is given back, and the next loan is kept",
        how: (0, 1, 0, None),
        steps: &[
            Step::First,
            Step::ShortTaken(0, 1000, b"ab"),
            HONOURED,
            Step::Taken(0, 1002, b"cd"),
            EMPTY,
            NO_NOTE,
            Step::End,
            FINISHED,
        ],
        streams: &[b"abcd"],
        line: Line(4, 2, 1, Stopped::No),
        ..CASE
    },
];

#[test]
fn loans_are_leaked(rt: HostRuntime) -> Result<(), Fail> {
    plays(&rt, rt.alloc(), &LEAKS)
}

const STRAYS: [Case; 5] = [
    Case {
        name: "each return is followed by further entries, which the card finds to be strays",
        how: (0, 0, 2, None),
        steps: &[
            Step::First,
            Step::Taken(0, 1000, b"ab"),
            HONOURED,
            STRAY,
            STRAY,
            EMPTY,
            Step::Taken(0, 1002, b"cd"),
            HONOURED,
            STRAY,
            STRAY,
            EMPTY,
            Step::End,
            FINISHED,
        ],
        streams: &[b"abcd"],
        line: Line(4, 2, 0, Stopped::No),
        ..CASE
    },
    Case {
        name: "where the ring is full, the entries that are left come first in the next turn",
        board: (4, 1024, 1),
        how: (0, 0, 2, None),
        steps: &[
            Step::First,
            Step::Taken(0, 1000, b"ab"),
            REFILL_FULL,
            HONOURED,
            DID,
            REFILL_FULL,
            STRAY,
            DID,
            STRAY,
            EMPTY,
            NO_NOTE,
        ],
        streams: &[b"ab"],
        line: Line(2, 1, 0, Stopped::No),
        ..CASE
    },
    Case {
        name: "nothing is lent while a raw entry is on its way",
        how: (0, 0, 1, None),
        steps: &[
            Step::First,
            Step::Taken(0, 1000, b"ab"),
            Step::Taken(0, 1002, b"cd"),
            UNSETTLED,
            HONOURED,
            STRAY,
            DID,
        ],
        streams: &[b"abcd"],
        line: Line(4, 2, 0, Stopped::No),
        ..CASE
    },
    Case {
        name: "an entry is dropped where a loan in its buffer is out",
        how: (1, 0, 1, None),
        steps: &[
            Step::First,
            Step::Taken(0, 1000, b"ab"),
            Step::Taken(0, 1002, b"cd"),
            HONOURED,
            EMPTY,
            NO_NOTE,
            Step::End,
            DID,
            FREED,
            STRAY,
            EMPTY,
            FINISHED,
        ],
        streams: &[b"abcd"],
        line: Line(4, 2, 0, Stopped::No),
        ..CASE
    },
    Case {
        name: "strays follow a loan in the reserve too",
        how: (1, 0, 1, None),
        steps: &[
            Step::First,
            Step::ShortTaken(0, 1000, b"ab"),
            HONOURED,
            STRAY,
            EMPTY,
            NO_NOTE,
        ],
        streams: &[b"ab"],
        line: Line(2, 1, 1, Stopped::No),
        ..CASE
    },
];

#[test]
fn strays_follow(rt: HostRuntime) -> Result<(), Fail> {
    plays(&rt, rt.alloc(), &STRAYS)
}
