ghost use Rattle.board_face.specs.Laws.{PollLaw, CutLaw, LendLaw, ReleaseLaw, GiveLaw, SpareLaw, FillLaw, LendOwnLaw, ScrubLaw, AppKeepsAll};

/// `poll`: all counts stand.
pub fn poll_law()
    ensures { PollLaw }
{}

/// `cut`: the buffer has one holder more.
pub fn cut_law()
    ensures { CutLaw }
{}

/// `lend`: the application has one user reference more in the buffer, and its holders are as many.
pub fn lend_law()
    ensures { LendLaw }
{}

/// `release`: the buffer has one holder less.
pub fn release_law()
    ensures { ReleaseLaw }
{}

/// `give` and `abandon`: all counts stand.
pub fn give_law()
    ensures { GiveLaw }
{}

/// `spare`: the buffer has one holder more.
pub fn spare_law()
    ensures { SpareLaw }
{}

/// `fill`: all counts stand.
pub fn fill_law()
    ensures { FillLaw }
{}

/// `lend_own`: the application has one user reference more in the buffer, and its holders are as many.
pub fn lend_own_law()
    ensures { LendOwnLaw }
{}

/// `scrub`: all user counts of the application are 0, and as many references went. Those of the others stand.
pub fn scrub_law()
    ensures { ScrubLaw }
{}

/// Looks, reads, raw entries, `settle`, `quiet`, the end and `leave`: all counts and free places stand.
pub fn app_keeps()
    ensures { AppKeepsAll }
{}
