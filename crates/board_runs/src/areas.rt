//! What the area of a board is: layouts, places, the bytes of ring entries, and which buffer an entry names. And what tokens show.

use area_layout::{Layout, cqe_bytes, cqe_read, rqe_bytes, rqe_read};
use board_face::{Held, Loan, Own, Piece};
use std::process::Abort;
use std::test::Fail;
use zr_kinds::{Completion, Place, Rqe};

#[test]
fn completion_is_written_and_read(rt: HostRuntime) {
    let completion = Completion {
        user_data: 3,
        res: 5,
        flags: 2,
        off: 1024,
    };
    let mut bytes = [
        3, 0, 0, 0, 0, 0, 0, 0, 5, 0, 0, 0, 2, 0, 0, 0, 0, 4, 0, 0, 0, 0, 0, 0, 0, 0, 0, 0, 0, 0,
        0, 0,
    ];
    assert!(rt; cqe_bytes(&completion) == bytes);
    assert!(rt; cqe_read(&bytes) == Some(completion));
    bytes[31] = 1;
    assert!(rt; cqe_read(&bytes).is_none());
}

#[test]
fn refill_entry_is_written_and_read(rt: HostRuntime) {
    let entry = Rqe {
        off: 1024,
        len: 5,
        pad: 0,
    };
    let bytes = [0, 4, 0, 0, 0, 0, 0, 0, 5, 0, 0, 0, 0, 0, 0, 0];
    assert!(rt; rqe_bytes(&entry) == bytes);
    assert!(rt; rqe_read(&bytes) == entry);
}

/// Readers show the arguments of the constructors.
#[test]
fn tokens_show_what_they_were_made_with(rt: HostRuntime) {
    let own = Own::new(3, 64, 1024);
    assert!(rt; own.buffer() == 3 && own.start() == 64 && own.size() == 1024);
    let place = Place {
        buffer: 3,
        offset: 64,
        len: 5,
    };
    assert!(rt; Piece::new(place).place() == place);
    assert!(rt; Held::new(place).place() == place);
    assert!(rt; Loan::new(place).place() == place);
}

/// Compares numbers of a layout with those that are wanted.
fn compare(rt: &impl Abort, found: &[u32], wanted: &[u32]) {
    assert!(rt; found == wanted, "{found:?}, not {wanted:?}");
}

#[test]
fn buffers_lie_one_after_another(rt: HostRuntime) -> Result<(), Fail> {
    let layout = Layout::new(2, 1, 1024).ok_or("no layout")?;
    let found = [
        layout.buffers(),
        layout.total(),
        layout.size(),
        layout.size_of(2),
    ];
    compare(&rt, &found, &[2, 3, 1024, 1024]);
    assert!(rt; layout.first_word(2) == 256);
    let place = Place {
        buffer: 2,
        offset: 64,
        len: 5,
    };
    assert!(rt; layout.off_of(&place) == 2112);
    Ok(())
}

/// Areas of 2 buffers of 1,024 bytes and 1 of 2,048, and 1 reserve: it lies in area 0, behind two buffers.
#[test]
fn buffers_lie_in_two_areas(rt: HostRuntime) -> Result<(), Fail> {
    let layout = Layout::of(&[(2, 1024), (1, 2048)], 1).ok_or("no layout")?;
    let found = [layout.total(), layout.size_of(2), layout.size_of(3)];
    compare(&rt, &found, &[4, 2048, 1024]);
    let words = [
        layout.first_word(0),
        layout.first_word(1),
        layout.first_word(2),
        layout.first_word(3),
    ];
    assert!(rt; words == [0, 128, 256, 512]);
    let place = Place {
        buffer: 2,
        offset: 64,
        len: 5,
    };
    assert!(rt; layout.off_of(&place) == 281_474_976_710_720);
    let reserve = Place {
        buffer: 3,
        offset: 0,
        len: 5,
    };
    assert!(rt; layout.off_of(&reserve) == 2048);
    Ok(())
}

/// Compares which buffer an entry names.
pub fn judges(rt: &impl Abort, layout: &Layout, entry: &Rqe, buffer: Option<u32>) {
    assert!(rt; layout.judge(entry) == buffer, "{entry:?}");
}

/// The same of entries over two buffers of 1,024 bytes and a reserve, given by offset, length and pad.
fn judges_all(rt: &impl Abort, rows: &[(u64, u32, u32, Option<u32>)]) -> Result<(), Fail> {
    let layout = Layout::new(2, 1, 1024).ok_or("no layout")?;
    for &(off, len, pad, buffer) in rows {
        judges(rt, &layout, &Rqe { off, len, pad }, buffer);
    }
    Ok(())
}

#[test]
fn entries_name_buffers(rt: HostRuntime) -> Result<(), Fail> {
    judges_all(
        &rt,
        &[
            (1 << 48, 0, 0, None),
            (0, 0, 1, None),
            (3072, 0, 0, None),
            (u64::MAX, u32::MAX, u32::MAX, None),
            (0, 5, 0, Some(0)),
            (1023, 5, 0, Some(0)),
            (1024, 5, 0, Some(1)),
            (3071, 5, 0, Some(2)),
        ],
    )
}

/// Areas, reserves, and whether a layout has them.
type Bounds<'a> = (&'a [(u32, u32)], u32, bool);

/// Compares for which areas and reserves there is a layout.
fn bounds(rt: &impl Abort, rows: &[Bounds<'_>]) {
    for (areas, reserves, fits) in rows {
        let found = Layout::of(areas, *reserves).is_some();
        assert!(rt; found == *fits, "{areas:?} {reserves}");
    }
}

#[test]
fn layouts_have_bounds(rt: HostRuntime) {
    bounds(
        &rt,
        &[
            (&[(0, 1024)], 1, false),
            (&[(1, 1024)], 1, true),
            (&[(4096, 1024)], 1, true),
            (&[(4097, 1024)], 1, false),
            (&[(1, 1024)], 0, false),
            (&[(1, 1024)], 8, true),
            (&[(1, 1024)], 9, false),
            (&[(1, 512)], 1, false),
            (&[(1, 1000)], 1, false),
            (&[(1, 1536)], 1, false),
            (&[(1, 65_536)], 1, true),
            (&[(1, 131_072)], 1, false),
            // 67,108,864 bytes, and one buffer more.
            (&[(1024, 65_536)], 1, true),
            (&[(1025, 65_536)], 1, false),
        ],
    );
}

#[test]
fn areas_have_bounds(rt: HostRuntime) {
    bounds(
        &rt,
        &[
            (&[], 1, false),
            (&[(1, 1024); 4], 8, true),
            (&[(1, 1024); 5], 1, false),
            (&[(1, 1024), (0, 1024)], 1, false),
            (&[(1, 1024), (1, 1000)], 1, false),
            (&[(1, 1024), (4095, 1024)], 1, true),
            (&[(1, 1024), (4096, 1024)], 1, false),
            // 67,108,864 bytes, and one buffer more.
            (&[(1023, 65_536), (64, 1024)], 1, true),
            (&[(1023, 65_536), (65, 1024)], 1, false),
        ],
    );
}
