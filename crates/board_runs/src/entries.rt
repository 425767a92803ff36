//! Entries over one area and two: strays where nothing is owed, and the entry of a loan in the second area.

use super::areas::judges;
use super::tables::{Table, run};
use area_layout::Layout;
use board_face::Entry;
use face_table::{Row, Text, app, card, fields, void_entries};
use std::alloc::Global;
use std::process::Abort;
use std::test::*;
use zr_kinds::{Note, Place, Rqe};

/// Where the offsets of area 1 begin.
const AREA_1: u64 = 1 << 48;

const TWO_AREAS: &[(u32, u32)] = &[(2, 1024), (1, 2048)];

const PADS: [u32; 3] = [0, 1, u32::MAX];

/// How many rows of `void_entries` come before the card ends.
const BEFORE_THE_END: usize = 11;

/// No entry is left, so many buffers are cached, and so many listed. Then both roles end.
fn add_end(rows: &mut Vec<Row>, cached: u32, listed: u32) -> Result<(), Fail> {
    rows.extend_from_slice(&[
        card!(Entry(0) => Entry(Entry::Empty)),
        card!(Cached => Number(cached)),
        card!(Sweep(0) => Number(listed)),
    ])?;
    rows.extend_from_slice(void_entries().get(BEFORE_THE_END..).ok_or("no end")?)?;
    Ok(())
}

/// Each offset with each pad is an entry, which names a buffer where there is no pad. It is pushed and is a stray. Then all buffers
/// of the pool are listed, and both roles end.
fn strays(
    rt: &impl Abort,
    alloc: Global,
    areas: &[(u32, u32)],
    offsets: &[(u64, Option<u32>)],
) -> Result<Vec<Row>, Fail> {
    let layout = Layout::of(areas, 1).ok_or("no layout")?;
    let mut rows = Vec::new(alloc);
    for &(off, named) in offsets {
        for pad in PADS {
            // The last of all has all bits set.
            let len = pad.max(5);
            let entry = Rqe { off, len, pad };
            judges(rt, &layout, &entry, if pad == 0 { named } else { None });
            rows.push(app!(PushRaw(entry) => Done))?;
            rows.push(card!(Entry(0) => Entry(Entry::Stray)))?;
        }
    }
    add_end(&mut rows, 0, layout.buffers())?;
    Ok(rows)
}

/// Runs the rows over areas with so many pool buffers on both boards: at the end each of them is free once.
fn run_over(
    rt: &impl Abort,
    alloc: Global,
    areas: &[(u32, u32)],
    rows: &[Row],
    free: &[u32],
) -> Result<(), Fail> {
    let table = Table {
        name: "entries",
        areas,
        places: 4,
        rows,
        free,
        ordered: false,
    };
    run(rt, alloc, &table)
}

/// Entries over two buffers of the pool and the reserve, whatever buffer they name.
#[test]
fn entries_on_a_new_board_are_strays(rt: HostRuntime) -> Result<(), Fail> {
    let areas = &[(2, 1024)];
    let offsets = &[
        (0, Some(0)),
        (1, Some(0)),
        (1023, Some(0)),
        (1024, Some(1)),
        (3071, Some(2)),
        (3072, None),
        (AREA_1 - 1, None),
        (AREA_1, None),
        (u64::MAX, None),
    ];
    let rows = strays(&rt, rt.alloc(), areas, offsets)?;
    run_over(&rt, rt.alloc(), areas, &rows, &[0, 1])
}

/// The same over two areas. The reserve lies in area 0, behind two buffers, and has the number behind that of area 1's only buffer.
#[test]
fn entries_of_two_areas_are_strays(rt: HostRuntime) -> Result<(), Fail> {
    let offsets = &[
        (1023, Some(0)),
        (2047, Some(1)),
        (2048, Some(3)),
        (3071, Some(3)),
        (3072, None),
        (AREA_1 - 1, None),
        (AREA_1, Some(2)),
        (AREA_1 + 1024, Some(2)),
        (AREA_1 + 2047, Some(2)),
        (AREA_1 + 2048, None),
        (AREA_1 + 3071, None),
        (2 * AREA_1, None),
        (3 * AREA_1, None),
        (4 * AREA_1, None),
        (u64::MAX - AREA_1 + 1, None),
        (u64::MAX, None),
    ];
    let rows = strays(&rt, rt.alloc(), TWO_AREAS, offsets)?;
    run_over(&rt, rt.alloc(), TWO_AREAS, &rows, &[0, 1, 2])
}

const HELLO: Text = fields!(Text len 5 bytes (*b"hello\0\0\0"));

/// The place of a piece of five bytes.
macro_rules! place {
    ($buffer:expr, $offset:expr) => {
        fields!(Place buffer $buffer offset $offset len 5)
    };
}

/// Its note.
macro_rules! note {
    ($buffer:expr, $offset:expr) => {
        fields!(Note frame 1 flow 0 base 1 seq 1 at 0 total 5
            place (place!($buffer, $offset)) split true fin false)
    };
}

/// The entry of the last of the pieces.
const ENTRY: Rqe = fields!(Rqe off (AREA_1 + 64) len 5 pad 0);

/// A piece is sent of each buffer of two areas, and two of the last, which lies in area 1. All but that piece are given up. Its
/// entry is a stray while the piece is only held, and honoured once it was lent.
static LOAN: [Row; 30] = [
    card!(Sweep(0) => Number(3)),
    card!(Take => Buffer(0)),
    card!(Place(HELLO) => At(place!(0, 0))),
    card!(Send(0, note!(0, 0)) => Done),
    card!(Shut => Done),
    card!(Take => Buffer(1)),
    card!(Place(HELLO) => At(place!(1, 0))),
    card!(Send(0, note!(1, 0)) => Done),
    card!(Shut => Done),
    card!(Take => Buffer(2)),
    card!(Place(HELLO) => At(place!(2, 0))),
    card!(Send(0, note!(2, 0)) => Done),
    card!(Place(HELLO) => At(place!(2, 64))),
    card!(Send(0, note!(2, 64)) => Done),
    app!(Poll => Note(note!(0, 0))),
    app!(Release => Done),
    app!(Poll => Note(note!(1, 0))),
    app!(Release => Done),
    app!(Poll => Note(note!(2, 0))),
    app!(Release => Done),
    app!(Poll => Note(note!(2, 64))),
    app!(Off => Offset(ENTRY.off)),
    app!(PushRaw(ENTRY) => Done),
    card!(Entry(0) => Entry(Entry::Stray)),
    app!(Settle => Flag(true)),
    app!(Lend => At(place!(2, 64))),
    app!(Read => Read(HELLO)),
    app!(Give => Done),
    card!(Entry(0) => Entry(Entry::Honoured)),
    card!(Shut => Done),
];

/// The entry of a piece in area 1 is a stray while the piece is only held, and honoured once it was lent.
#[test]
fn a_loan_in_the_second_area_comes_back(rt: HostRuntime) -> Result<(), Fail> {
    let mut rows = LOAN.to_vec(rt.alloc())?;
    add_end(&mut rows, 1, 2)?;
    run_over(&rt, rt.alloc(), TWO_AREAS, &rows, &[0, 1, 2])
}
