ghost use Rattle.std.specs.Prelude.{◌≡◌, ◌≤◌, ◌+◌, true, false, [], length};
ghost use Rattle.word_rings.specs.Slots.{note_width, payload_bytes};

use std::process::Abort;
use word_rings::{
    NOTE_FIELDS, NOTE_WORDS, PAYLOAD_BYTES, PAYLOAD_WORDS, note_read, note_words, payload_read,
    refill_read, refill_words,
};
use zr_kinds::{Note, Place, Rqe};

/// How many notes and entries are drawn.
const DRAWN: usize = 300;

/// The next number of a sequence in which all 32 bits change.
fn draw(state: &mut u32) -> u32 {
    *state ^= *state << 13;
    *state ^= *state >> 17;
    *state ^= *state << 5;
    *state
}

/// The note of a slot, and the bytes behind its fields.
fn read(words: &[u64; NOTE_WORDS]) -> (Note, [u8; PAYLOAD_BYTES]) {
    let mut fields = [0; NOTE_FIELDS];
    fields.copy_from_slice(&words[..NOTE_FIELDS]);
    let mut payload = [0; PAYLOAD_WORDS];
    payload.copy_from_slice(&words[NOTE_FIELDS..]);
    let mut linear = [1; PAYLOAD_BYTES];
    payload_read(&payload, &mut linear);
    (note_read(&fields), linear)
}

/// A note that tells of a piece in the area.
fn split_note(state: &mut u32) -> Note
    ensures { result.split ≡ true }
{
    Note {
        frame: draw(state),
        flow: draw(state),
        base: draw(state),
        seq: draw(state),
        at: draw(state),
        total: draw(state),
        place: Place {
            buffer: draw(state),
            offset: draw(state),
            len: draw(state),
        },
        split: true,
        fin: draw(state) % 2 == 0,
    }
}

/// A note in which a payload of so many bytes travels.
fn unsplit_note(state: &mut u32, total: u32) -> Note
    ensures split { result.split ≡ false }
    ensures total { result.total ≡ total }
{
    Note {
        total,
        place: Place {
            buffer: 0,
            offset: 0,
            len: total,
        },
        at: 0,
        split: false,
        ..split_note(state)
    }
}

/// From the word `at` on the slot has these, and behind them zeros.
fn expect_words(rt: &impl Abort, slot: &[u64; NOTE_WORDS], at: usize, words: &[u64])
    requires { at + length words.now ≤ note_width }
{
    let mut wanted = *slot;
    wanted[at..].fill(0);
    wanted[at..at + words.len()].copy_from_slice(words);
    assert!(rt; *slot == wanted);
}

/// The slot has this note and these bytes, and behind them zeros.
fn expect_slot(rt: &impl Abort, slot: &[u64; NOTE_WORDS], note: &Note, payload: &[u8])
    requires { length payload.now ≤ payload_bytes }
{
    let mut wanted = [0; PAYLOAD_BYTES];
    wanted[..payload.len()].copy_from_slice(payload);
    let (back, linear) = read(slot);
    assert!(rt; back == *note && linear == wanted);
}

/// A drawn note of a piece in the area comes back, with no byte.
fn expect_split_back(rt: &impl Abort, state: &mut u32) {
    let note = split_note(state);
    let slot = note_words(&note, &[], draw(state));
    expect_slot(rt, &slot, &note, &[]);
}

/// A drawn note in which a payload travels comes back, with it.
fn expect_unsplit_back(rt: &impl Abort, state: &mut u32) {
    let bytes = [(draw(state) % 256) as u8; 256];
    let total = 1 + draw(state) % 256;
    let note = unsplit_note(state, total);
    let payload = &bytes[..total as usize];
    let slot = note_words(&note, payload, draw(state));
    expect_slot(rt, &slot, &note, payload);
}

/// A drawn entry comes back.
fn expect_entry_back(rt: &impl Abort, state: &mut u32) {
    let entry = Rqe {
        off: u64::from(draw(state)) << 32 | u64::from(draw(state)),
        len: draw(state),
        pad: draw(state),
    };
    assert!(rt; refill_read(&refill_words(&entry)) == entry);
}

#[test]
fn the_words_of_a_note(rt: HostRuntime) {
    let note = Note {
        frame: 2,
        flow: 1,
        base: 1001,
        seq: 1006,
        at: 0,
        total: 5,
        place: Place {
            buffer: 3,
            offset: 64,
            len: 5,
        },
        split: true,
        fin: false,
    };
    let fields = [
        1,
        4_294_967_298,
        4_320_737_100_777,
        21_474_836_480,
        274_877_906_947,
        4_294_967_301,
    ];
    expect_words(&rt, &note_words(&note, &[], 0), 0, &fields);
}

#[test]
fn a_payload_travels_in_its_note(rt: HostRuntime) {
    let note = Note {
        fin: true,
        ..unsplit_note(&mut 7, 9)
    };
    let slot = note_words(&note, b"abcdefghi", 3);
    let words = [
        9 + (2 << 32),
        3,
        u64::from_le_bytes(*b"abcdefgh"),
        u64::from(b'i'),
    ];
    expect_words(&rt, &slot, 5, &words);
    expect_slot(&rt, &slot, &note, b"abcdefghi");
}

#[test]
fn drawn_notes_come_back(rt: HostRuntime) {
    let mut state = 7;
    for _ in 0..DRAWN {
        expect_split_back(&rt, &mut state);
        expect_unsplit_back(&rt, &mut state);
    }
}

#[test]
fn drawn_entries_come_back(rt: HostRuntime) {
    let mut state = 7;
    for _ in 0..DRAWN {
        expect_entry_back(&rt, &mut state);
    }
}
