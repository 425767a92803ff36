//! The command `check`.
ghost use Rattle.std.specs.Prelude.{◌≡◌, Some};
ghost use Rattle.top_call.specs.{Cards.{IsClosed}, Checking.{Checks, check_line, check_status}, Worlds.{sink_seen}};
ghost use Rattle.run_account.specs.Views.{source_seen};

use crate::card::Card;
use run_check::{Checked, check};
use std::alloc::Global;
use std::fmt;
use zr_io::{Failed, Sink, Source};
use zr_kinds::Fault;

/// The line that says what was found.
#[derive(Clone, Copy)]
struct CheckLine(Checked);

impl fmt::Display for CheckLine {
    ghost output = { λ line. Some (check_line line.0) };

    fn fmt<W: fmt::Write>(&self, f: &mut fmt::Formatter<W>) -> fmt::Result {
        match self.0 {
            Checked::Yes { lines } => writeln!(f, "checked {lines}"),
            Checked::No { line, .. } => writeln!(f, "bad {line}"),
        }
    }
}

fn check_status(found: Checked) -> u8
    ensures { result ≡ check_status found }
{
    match found {
        Checked::Yes { .. } => 0,
        Checked::No { .. } => Fault::BadRun.number(),
    }
}

/// Reads the record of a run, and writes whether it is that of a legal one: the answer. What was found and written is left in the card.
pub(crate) fn check_record<S: Source, O: Sink>(
    alloc: Global,
    source: &mut S,
    out: &mut O,
    card: &mut Card,
) -> u8
    requires { card.old ≡ Card.Blank }
    ensures checks { Checks (source_seen S.left S.faults) (sink_seen O.sent O.faults) source.old
        source.new out.old out.new card.new result }
    ensures closed { IsClosed card.new }
{
    let found = match check(alloc, source) {
        Ok(found) => found,
        Err(fault) => return fault.number(),
    };
    let line = CheckLine(found);
    let Ok(text) = format!(in alloc; "{line}") else {
        return Fault::Memory.number();
    };
    match out.write_all(text.as_bytes()) {
        Ok(()) => {
            *card = Card::Found(found);
            check_status(found)
        }
        Err(Failed) => Fault::Write.number(),
    }
}
