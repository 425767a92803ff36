//! The status of a replay.

ghost use Rattle.std.specs.Prelude.{◌≡◌};
ghost use Rattle.run_account.specs.Ran.{told_of};
ghost use Rattle.top_call.specs.Status.{is_memory, is_write, any_stopped, status_of};

use card_feed::Outcome;
use zr_kinds::{AppLine, Fault, Stopped};

fn want_memory(apps: &[AppLine]) -> bool
    ensures { result ≡ any_stopped is_memory apps.now }
{
    apps.iter()
        .any(|app| matches!(app.stopped, Stopped::Memory))
}

fn lost_shelves(apps: &[AppLine]) -> bool
    ensures { result ≡ any_stopped is_write apps.now }
{
    apps.iter().any(|app| matches!(app.stopped, Stopped::Write))
}

/// Want of memory comes first, then a shelf that failed, then what ended the reading; 0 at the end of the bytes. `lost` says that
/// the flush of a shelf failed.
pub fn status_of(outcome: &Outcome, lost: bool) -> u8
    ensures { result ≡ status_of (told_of outcome.now) lost }
{
    if want_memory(&outcome.apps) {
        return Fault::Memory.number();
    }
    match outcome.end {
        Some(Fault::Memory) => Fault::Memory.number(),
        _ if lost_shelves(&outcome.apps) || lost => Fault::Write.number(),
        Some(fault) => fault.number(),
        None => 0,
    }
}
