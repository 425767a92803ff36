ghost use Rattle.plain_board.specs.{Fills.{FillsLaw}, Logs.{FirstEventsLaw}, Settings.{SettingLaw}, SideLaw.{OneSideLaw}, SoundLaw.{SoundLaw}, RunLaws.{OpenedLaw, EndedLaw}, ToldLaw.{ToldLaw}};

/// A log that takes the events of a board one after another has the first of them that it has room for, and is whole where
/// these are all.
pub fn first_events()
    ensures { FirstEventsLaw }
{}

/// A board's setting, as its record says it, has the buffers of its layout.
pub fn setting()
    ensures { SettingLaw }
{}

/// What a board keeps of its sides between two calls makes them sound.
pub fn sound()
    ensures { SoundLaw }
{}

/// Where a call changes one application's side alone, the sides after it are those before it with that one.
pub fn one_side()
    ensures { OneSideLaw }
{}

/// An empty log tells of a board that was just opened.
pub fn opened()
    ensures { OpenedLaw }
{}

/// What a log tells is a legal run: a whole log once no buffer has a holder any more, and any other at any time.
pub fn ended()
    ensures { EndedLaw }
{}

/// A log, whole or not, has the first of events that lead to the board's holders, in the end to none, and tell of each
/// application's loans and copies, and of the strays.
pub fn told()
    ensures { ToldLaw }
{}

/// Spares are filled with 256 bytes at most from the opening on, where none is taken, filled or lent.
pub fn fills()
    ensures { FillsLaw }
{}
