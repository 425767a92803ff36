//! The record of a run, and its way to a sink.
ghost use Rattle.std.specs.{Prelude.{◌≡◌, ◌+◌, ◌*◌, ◌≤◌, [], ◌∷◌, ◌++◌, OnOk, length, map}, Fmt.{decimal}, List.{join_with_byte}};
ghost use Rattle.arrayvec.specs.ArrayString.{array_string_len};
ghost use Rattle.zr_io.specs.Moved.{AddsPiece, HasCause};
ghost use Rattle.zr_kinds.specs.RunText.{area_text, last_line, line_of, run_line, spaced, run_text_of, text_of_lines};
ghost use Rattle.top_call.specs.Gathered.{Gathers};

use arrayvec::ArrayString;
use zr_io::{Failed, Sink};
use zr_kinds::{Event, Log};

/// How many bytes go out in one piece.
const BLOCK: usize = 8192;

/// No line of a record is longer, its line feed included.
const LINE: usize = 128;

/// Lines that wait to go out together.
type Block = ArrayString<BLOCK>;

fn put_number(block: &mut Block, number: u32)
    requires { array_string_len block.old + 10 ≤ 8192 }
    ensures bytes { block.new.bytes ≡ block.old.bytes ++ decimal number }
    ensures len { array_string_len block.new ≤ array_string_len block.old + 10 }
{
    let mut digits = itoa::Buffer::new();
    block.push_str(digits.format(number));
}

/// A line of a word and numbers.
fn put_line(block: &mut Block, word: &str, numbers: &[u32])
    requires word { length word.now ≤ 6 }
    requires numbers { length numbers.now ≤ 6 }
    requires room { array_string_len block.old + 128 ≤ 8192 }
    ensures bytes { block.new.bytes ≡ block.old.bytes
        ++ (spaced (word.now ∷ map decimal numbers.now) ++ 10 ∷ []) }
{
    block.push_str(word);
    for number in numbers {
        block.push_str(" ");
        put_number(block, *number);
    }
    block.push_str("\n");
}

#[tactic(auto, unfolding(zr_kinds::specs::RunText::line_of))]
fn put_event(block: &mut Block, event: Event)
    requires { array_string_len block.old + 128 ≤ 8192 }
    ensures { block.new.bytes ≡ block.old.bytes ++ (line_of event ++ 10 ∷ []) }
{
    let (offset, len) = event.bytes();
    let (pool, user) = event.counts();
    match event {
        Event::Take { buffer, .. } => put_line(block, "take", &[buffer, pool]),
        Event::Place { buffer, .. } => put_line(block, "place", &[buffer, offset, len, pool]),
        Event::Sent { app, buffer, .. } => put_line(block, "sent", &[app, buffer, offset, len]),
        Event::Held { app, buffer, .. } => put_line(block, "held", &[app, buffer, offset, len]),
        Event::Cut {
            app,
            buffer,
            at,
            ..
        } => put_line(block, "cut", &[app, buffer, offset, len, at, pool]),
        Event::Lend { app, buffer, .. } => {
            put_line(block, "lend", &[app, buffer, offset, len, pool, user])
        }
        Event::Back { app, buffer, .. } => {
            put_line(block, "back", &[app, buffer, offset, len, user])
        }
        Event::Honour { app, buffer, .. } => put_line(block, "honour", &[app, buffer, pool, user]),
        Event::Stray { app } => put_line(block, "stray", &[app]),
        Event::Free { app, buffer, .. } => {
            put_line(block, "free", &[app, buffer, offset, len, pool])
        }
        Event::Spare { app, buffer, .. } => put_line(block, "spare", &[app, buffer, pool]),
        Event::Own { app, buffer, .. } => put_line(block, "own", &[app, buffer, len, pool, user]),
        Event::Shut { buffer, .. } => put_line(block, "shut", &[buffer, pool]),
        Event::Scrub { app, buffer, .. } => put_line(block, "scrub", &[app, buffer, pool, user]),
    }
}

fn put_area(block: &mut Block, area: (u32, u32))
    requires { array_string_len block.old + 21 ≤ 8192 }
    ensures bytes { block.new.bytes ≡ block.old.bytes ++ area_text area }
    ensures len { array_string_len block.new ≤ array_string_len block.old + 21 }
{
    let (buffers, size) = area;
    put_number(block, buffers);
    block.push_str(":");
    put_number(block, size);
}

fn put_areas(block: &mut Block, areas: &[(u32, u32)])
    requires few { length areas.now ≤ 4 }
    requires room { array_string_len block.old + 88 ≤ 8192 }
    ensures bytes { block.new.bytes ≡ block.old.bytes
        ++ join_with_byte 44 (map area_text areas.now) }
    ensures len { array_string_len block.new ≤ array_string_len block.old + 88 }
{
    if let [first, rest @ ..] = areas {
        put_area(block, *first);
        for area in rest {
            block.push_str(",");
            put_area(block, *area);
        }
    }
}

fn put_setting(block: &mut Block, areas: &[(u32, u32)], apps: u32)
    requires few { length areas.now ≤ 4 }
    requires room { array_string_len block.old + 128 ≤ 8192 }
    ensures { block.new.bytes ≡ block.old.bytes
        ++ (run_line (record { areas = areas.now; apps = apps }) ++ 10 ∷ []) }
{
    block.push_str("run ");
    put_areas(block, areas);
    block.push_str(" ");
    put_number(block, apps);
    block.push_str("\n");
}

/// The last line.
fn put_end(block: &mut Block, whole: bool)
    requires { array_string_len block.old + 128 ≤ 8192 }
    ensures { block.new.bytes ≡ block.old.bytes ++ (last_line whole ++ 10 ∷ []) }
{
    block.push_str(if whole { "end\n" } else { "more\n" });
}

/// What waits goes out where there is no room for a line more.
fn make_room<O: Sink>(block: &mut Block, out: &mut O) -> Result<(), Failed>
    ensures gathered { Gathers (O.sent out.old) (O.sent out.new)
        block.old.bytes block.new.bytes result [] }
    ensures cause { HasCause (O.faults out.old) (O.faults out.new) result }
    ensures room { OnOk result (array_string_len block.new + 128 ≤ 8192) }
{
    if block.len() + LINE <= BLOCK {
        return Ok(());
    }
    out.write_all(block.as_str().as_bytes())?;
    block.clear();
    Ok(())
}

fn gather_event<O: Sink>(block: &mut Block, event: Event, out: &mut O) -> Result<(), Failed>
    ensures gathered { Gathers (O.sent out.old) (O.sent out.new)
        block.old.bytes block.new.bytes result (line_of event ++ 10 ∷ []) }
    ensures cause { HasCause (O.faults out.old) (O.faults out.new) result }
{
    make_room(block, out)?;
    put_event(block, event);
    Ok(())
}

fn gather_events<O: Sink>(block: &mut Block, events: &[Event], out: &mut O) -> Result<(), Failed>
    ensures gathered { Gathers (O.sent out.old) (O.sent out.new)
        block.old.bytes block.new.bytes result
        (text_of_lines (map line_of events.now)) }
    ensures cause { HasCause (O.faults out.old) (O.faults out.new) result }
{
    for event in events {
        gather_event(block, *event, out)?;
    }
    Ok(())
}

/// Writes the record of a run with these areas of pool buffers, each with its number of buffers and their size in bytes, so many
/// applications, and this log. It takes no memory.
pub fn write_record<O: Sink>(
    areas: &[(u32, u32)],
    apps: u32,
    log: &Log,
    out: &mut O,
) -> Result<(), Failed>
    requires { length areas.now ≤ 4 }
    ensures bytes { AddsPiece (O.sent out.old) (O.sent out.new) result
        (run_text_of (record { areas = areas.now; apps = apps }) log.now.events.items
        log.now.whole) }
    ensures cause { HasCause (O.faults out.old) (O.faults out.new) result }
{
    let mut block = Block::new();
    put_setting(&mut block, areas, apps);
    gather_events(&mut block, &log.events, out)?;
    make_room(&mut block, out)?;
    put_end(&mut block, log.whole);
    out.write_all(block.as_str().as_bytes())
}
