//! Texts in the lines that a seat has, which it writes and reads as plain memory.
ghost use Rattle.std.specs.Prelude.{◌≡◌, ◌+◌, ◌/◌, ◌^◌, ◌<◌, ◌≤◌, ◌++◌, length, take, drop};
ghost use Rattle.ref_words.specs.Lines.{joined, HaveText};
ghost use Rattle.word_board.specs.Lines.{HasLines, IsSameSeat, held};

use crate::rule::{WordSeat, WordTable};
use ref_words::LINE_BYTES;

/// A line of the area: a slot of the table.
pub type Line = [u8; LINE_BYTES];

/// Writes bytes into a line, from the first on.
fn write_line(line: &mut Line, bytes: &[u8])
    requires { length bytes.now ≤ 64 }
    ensures { line.new ≡ bytes.now ++ drop (length bytes.now) line.old }
{
    line[..bytes.len()].copy_from_slice(bytes);
}

/// Reads bytes of a line, from this one on.
fn read_line(line: &Line, from: usize, into: &mut [u8])
    requires { from + length into.old ≤ 64 }
    ensures { into.new ≡ take (length into.old) (drop from line.now) }
{
    into.copy_from_slice(&line[from..from + into.len()]);
}

/// Writes a text into the lines that the seat has, from the first byte on.
pub(crate) fn write_lines(words: &WordTable, seat: &mut WordSeat, first: usize, bytes: &[u8])
    requires table { seat.old.table_id ≡ words.now.shared.table_id }
    requires few { first < 2 ^ 32 }
    requires has { HasLines first ((length bytes.now + 63) / 64) seat.old.me }
    ensures table { seat.new.table_id ≡ seat.old.table_id }
    ensures number { seat.new.id ≡ seat.old.id }
    ensures view { seat.new.me.0 ≡ seat.old.me.0 }
    ensures has { HasLines first ((length bytes.now + 63) / 64) seat.new.me }
    ensures text { HaveText (held seat.new.me) bytes.now }
{
    let mut done = 0;
    while done < bytes.len() {
        let more = (bytes.len() - done).min(LINE_BYTES);
        let line = seat.slot_mut(&words.shared, first + done / LINE_BYTES);
        write_line(line, &bytes[done..done + more]);
        seat.turn();
        done += more;
    }
}

/// Reads the bytes of the lines that the seat has, from this one of the first line on, as many as there is room for.
pub(crate) fn read_lines(
    words: &WordTable,
    seat: &mut WordSeat,
    first: usize,
    skip: usize,
    into: &mut [u8],
)
    requires table { seat.old.table_id ≡ words.now.shared.table_id }
    requires few { first < 2 ^ 32 }
    requires skip { skip < 64 }
    requires has { HasLines first ((skip + length into.old + 63) / 64) seat.old.me }
    ensures same { IsSameSeat seat.old seat.new }
    ensures bytes { into.new ≡ take (length into.old) (drop skip (joined (held seat.old.me))) }
{
    let mut line = first;
    let mut from = skip;
    let mut done = 0;
    while done < into.len() {
        let more = (LINE_BYTES - from).min(into.len() - done);
        let bytes = seat.slot_mut(&words.shared, line);
        read_line(bytes, from, &mut into[done..done + more]);
        seat.turn();
        done += more;
        line += 1;
        from = 0;
    }
}
