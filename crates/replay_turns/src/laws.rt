ghost use Rattle.run_account.specs.Views.{streams};
ghost use Rattle.replay_turns.specs.{Steps.{RunsStayWithin, TurnsRise}, Stuck.{StuckRunsAreOver}};

use zr_io::{Shelf, Source};

/// A run in which nobody can do anything is over: the card was closed, and every application has left. It does nothing: its
/// contract is the law.
pub fn stuck_runs_are_over()
    ensures { StuckRunsAreOver }
{}

/// A run goes no further than its records, their bytes and its plan let it. It does nothing: its contract is the law.
pub fn runs_stay_within<S: Source, T: Shelf>()
    ensures { RunsStayWithin (streams S.left S.faults T.kept T.counts) }
{}

/// A turn of an application that did something brings it further, and none brings it back. It does nothing: its contract is
/// the law.
pub fn turns_rise()
    ensures { TurnsRise }
{}
