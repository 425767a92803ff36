//! The words of a note slot and of a refill slot.
ghost use Rattle.std.specs.Prelude.{◌≡◌, ◌≤◌, ◌<◌, ◌+◌, true, false, [], length, take, slice_index};
ghost use Rattle.word_rings.specs.Slots.{pair, flags_of, payload_bytes, note_slot, note_of, linear_of, bytes_of_words, refill_slot, entry_of_words, low_of, high_of, IsNoteSlot, SlotsComeBack};

use byteorder::{ByteOrder, LittleEndian};
use zr_kinds::{Note, Place, Rqe};

/// How many words of a note slot its flag and the note's fields and area are. They come first.
pub const NOTE_FIELDS: usize = 7;

/// How many words of a note slot stand behind them, for the bytes in which an unsplit payload travels.
pub const PAYLOAD_WORDS: usize = 32;

/// How many bytes these words are: as long as a payload that travels in its note is at most.
pub const PAYLOAD_BYTES: usize = 8 * PAYLOAD_WORDS;

/// How many words a note slot has, its flag among them.
pub const NOTE_WORDS: usize = NOTE_FIELDS + PAYLOAD_WORDS;

/// How many words a refill slot has, its flag among them.
pub const REFILL_WORDS: usize = 3;

/// The flag of a full slot.
const FULL: u64 = 1;

/// Two numbers in one word, the first in the lower half.
fn pair(low: u32, high: u32) -> u64
    ensures both { result ≡ pair low high }
    ensures low { low_of result ≡ low }
    ensures high { high_of result ≡ high }
{
    u64::from(low) + (u64::from(high) << 32)
}

/// The two numbers of a word, that of its lower half first.
fn halves(word: u64) -> (u32, u32)
    ensures low { result.0 ≡ low_of word }
    ensures high { result.1 ≡ high_of word }
{
    ((word % (1 << 32)) as u32, (word >> 32) as u32)
}

/// The flags of a note: bit 0 says that it is split, bit 1 that its frame has FIN.
fn flags(n: &Note) -> u32
    ensures { result ≡ flags_of n.now }
{
    let split = if n.split { 1 } else { 0 };
    let fin = if n.fin { 2 } else { 0 };
    split + fin
}

/// The words of a full note slot: its flag, the note, the area of its buffer, and the bytes in which an unsplit payload
/// travels, eight to a word, the first in the lowest 8 bits. A split note has no such bytes.
pub fn note_words(n: &Note, linear: &[u8], area: u32) -> [u64; NOTE_WORDS]
    requires split { n.now.split ≡ true → linear.now ≡ [] }
    requires unsplit { n.now.split ≡ false → length linear.now ≡ n.now.total }
    requires few { length linear.now ≤ payload_bytes }
    ensures words { result ≡ note_slot n.now linear.now area }
    ensures note { note_of result ≡ n.now }
    ensures bytes { take (length linear.now) (linear_of result) ≡ linear.now }
    ensures slot { IsNoteSlot result }
{
    let mut payload = [0; PAYLOAD_BYTES];
    payload[..linear.len()].copy_from_slice(linear);
    let mut words = [0; NOTE_WORDS];
    words[0] = FULL;
    words[1] = pair(n.frame, n.flow);
    words[2] = pair(n.base, n.seq);
    words[3] = pair(n.at, n.total);
    words[4] = pair(n.place.buffer, n.place.offset);
    words[5] = pair(n.place.len, flags(n));
    words[6] = u64::from(area);
    LittleEndian::read_u64_into(&payload, &mut words[NOTE_FIELDS..]);
    words
}

/// The note of a slot, by the words of its flag and its fields.
pub fn note_read(w: &[u64; NOTE_FIELDS]) -> Note
    ensures { result ≡ note_of w.now }
{
    let (frame, flow) = halves(w[1]);
    let (base, seq) = halves(w[2]);
    let (at, total) = halves(w[3]);
    let (buffer, offset) = halves(w[4]);
    let (len, flags) = halves(w[5]);
    Note {
        frame,
        flow,
        base,
        seq,
        at,
        total,
        place: Place {
            buffer,
            offset,
            len,
        },
        split: flags & 1 == 1,
        fin: flags >> 1 & 1 == 1,
    }
}

/// `linear` becomes the bytes of a slot, by the words behind its fields. An unsplit note's payload are the first of them.
pub fn payload_read(w: &[u64; PAYLOAD_WORDS], linear: &mut [u8; PAYLOAD_BYTES])
    ensures { linear.new ≡ bytes_of_words w.now }
{
    LittleEndian::write_u64_into(w, linear);
}

/// A full slot says no more than its note, its area and its bytes.
pub fn slots_come_back()
    ensures { SlotsComeBack }
{}

/// The words of a full refill slot: its flag, the offset, and length and pad.
pub fn refill_words(e: &Rqe) -> [u64; REFILL_WORDS]
    ensures words { result ≡ refill_slot e.now }
    ensures entry { entry_of_words result ≡ e.now }
{
    [FULL, e.off, pair(e.len, e.pad)]
}

/// The entry of a slot.
pub fn refill_read(w: &[u64; REFILL_WORDS]) -> Rqe
    ensures entry { result ≡ entry_of_words w.now }
    // A full slot is the one of its entry.
    ensures again { slice_index w.now 0 ≡ 1 → refill_slot result ≡ w.now }
{
    let (len, pad) = halves(w[2]);
    Rqe {
        off: w[1],
        len,
        pad,
    }
}
