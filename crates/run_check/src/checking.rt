ghost use Rattle.std.specs.Prelude.{◌≡◌, ℕ, ◌+◌, ◌^◌, ◌<◌, [], ◌∷◌, ◌++◌, IfOk, IfErr, IfSome, length};
ghost use Rattle.zr_kinds.specs.declared.fault.Fault.TheVariants as fault;
ghost use Rattle.zr_kinds.specs.{Setting.{total_buffers}, RunText.{run_line, text_of_lines}};
ghost use Rattle.run_check.specs.{Coming.{ahead}, Holding.{EndsRecord, LineChanges, holdings_of}, Judged.{HasCheckCause, Judges, YesAtEnd}};

use crate::holders::Holders;
use crate::lines::Lines;
use crate::setting::RunSetting;
use crate::unfit::Unfit;
use crate::words::{event_of, is_word};
use std::alloc::Global;
use zr_io::Source;
use zr_kinds::{Fault, MOST_EVENTS};

/// What a check says of a record.
#[derive(Clone, Copy, Debug, PartialEq, Eq)]
pub enum Checked {
    /// It is the record of a legal run, and has this many lines.
    Yes { lines: u32 },
    /// No legal run with the lines before it has the line with this number, from 1; or this line is missing. `why` says why not.
    No { line: u32, why: Unfit },
}

/// Reads a record to its end, or to the first line that isn't as in a legal run: what is read behind that line isn't said.
/// Of a source without end no more than 1,000,002 lines of at most 129 bytes and a buffer are read.
pub fn check<S: Source>(alloc: Global, source: &mut S) -> Result<Checked, Fault>
    ensures judges { IfSome (S.left source.old) (λ bytes. IfOk result (Judges bytes)) }
    ensures end { IfOk result (YesAtEnd (S.left source.new)) }
    ensures cause { HasCheckCause (S.faults source.old) (S.faults source.new) result }
{
    let Ok(mut lines) = Lines::new(alloc) else {
        return Err(Fault::Memory);
    };
    if !lines.read(source)? {
        return Ok(Checked::No {
            line: 1,
            why: Unfit::NoLine,
        });
    }
    match RunSetting::of(alloc, lines.line()) {
        Err(_) => Err(Fault::Memory),
        Ok(None) => Ok(Checked::No {
            line: 1,
            why: Unfit::NoSetting,
        }),
        Ok(Some(setting)) => check_events(alloc, &setting, &mut lines, source),
    }
}

/// Reads the lines behind the first.
fn check_events<S: Source>(
    alloc: Global,
    setting: &RunSetting,
    lines: &mut Lines,
    source: &mut S,
) -> Result<Checked, Fault>
    ensures judges { IfSome (ahead lines.old.bytes (S.left source.old))
        (λ rest. IfOk result (Judges (text_of_lines (run_line setting.now ∷ []) ++ rest))) }
    ensures end { IfOk result (YesAtEnd (S.left source.new)) }
    ensures cause { HasCheckCause (S.faults source.old) (S.faults source.new) result }
{
    let Ok(mut holders) = Holders::new(alloc, setting.total_buffers()) else {
        return Err(Fault::Memory);
    };
    for events in 0..=MOST_EVENTS {
        let line = events + 2;
        if !lines.read(source)? {
            let why = Unfit::NoLine;
            return Ok(Checked::No { line, why });
        }
        if is_word(lines.line(), "end") {
            if !holders.are_none() {
                let why = Unfit::Held;
                return Ok(Checked::No { line, why });
            }
            return check_end(line, lines, source);
        }
        if is_word(lines.line(), "more") {
            return check_end(line, lines, source);
        }
        if events == MOST_EVENTS {
            let why = Unfit::TooMany;
            return Ok(Checked::No { line, why });
        }
        if let Some(why) = change(alloc, setting, &mut holders, lines.line())? {
            return Ok(Checked::No { line, why });
        }
    }
    Ok(Checked::No {
        line: MOST_EVENTS + 2,
        why: Unfit::TooMany,
    })
}

/// Changes the holders as the line says, or answers why its event can't come here.
fn change(
    alloc: Global,
    setting: &RunSetting,
    holders: &mut Holders,
    line: &[u8],
) -> Result<Option<Unfit>, Fault>
    requires total { length holders.old.buffers.items ≡ total_buffers setting.now }
    requires few { (buffer : ℕ) →
        length (holdings_of holders.old.buffers.items buffer) + 1 < 2 ^ 32 }
    ensures changes { IfOk result
        (LineChanges setting.now (holdings_of holders.old.buffers.items) line.now
        (holdings_of holders.new.buffers.items)) }
    ensures count { IfOk result
        (λ _. length holders.new.buffers.items ≡ total_buffers setting.now) }
    ensures memory { IfErr result (λ f. f ≡ fault.Memory) }
{
    match event_of(alloc, line) {
        Err(_) => Err(Fault::Memory),
        Ok(None) => Ok(Some(Unfit::NoEvent)),
        Ok(Some(event)) => match holders.change(setting, event) {
            Err(_) => Err(Fault::Memory),
            Ok(None) => Ok(None),
            Ok(Some(lack)) => Ok(Some(Unfit::Event { event, lack })),
        },
    }
}

/// What is said of a record whose last line was read.
fn check_end<S: Source>(line: u32, lines: &mut Lines, source: &mut S) -> Result<Checked, Fault>
    requires { line + 1 < 2 ^ 32 }
    ensures ends { IfOk result (EndsRecord (ahead lines.old.bytes (S.left source.old)) line) }
    ensures end { IfOk result (YesAtEnd (S.left source.new)) }
    ensures cause { HasCheckCause (S.faults source.old) (S.faults source.new) result }
{
    if lines.is_over(source)? {
        Ok(Checked::Yes { lines: line })
    } else {
        Ok(Checked::No {
            line: line + 1,
            why: Unfit::Behind,
        })
    }
}
