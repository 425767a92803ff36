ghost use Rattle.run_account.specs.{Laws.{RunsAreTold, RunsEndWell}, Views.{streams}};

use zr_io::{Shelf, Source};

/// Once all is over at the board of a run, the outcome that is told is that of the run, and the board accounts for it. It does
/// nothing: its contract is the law.
pub fn runs_end_well<S: Source, T: Shelf>()
    ensures { RunsEndWell (streams S.left S.faults T.kept T.counts) }
{}

/// Then there is something to tell of the run, whether there is memory for it or not. It does nothing: its contract is the law.
pub fn runs_are_told<S: Source, T: Shelf>()
    ensures { RunsAreTold (streams S.left S.faults T.kept T.counts) }
{}
