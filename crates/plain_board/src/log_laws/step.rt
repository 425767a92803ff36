ghost use Rattle.plain_board.specs.{ScrubLaw.{ScrubEventLaw}, StepLaw.{StepLaw}};

/// Whatever step a board made, the log tells of the board behind it, once it has the step's events.
pub fn steps()
    ensures { StepLaw }
{}

/// All that an application owed was taken back: a `Scrub` for each buffer in which it had a user count.
pub fn scrubbed()
    ensures { ScrubEventLaw }
{}
