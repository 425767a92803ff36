ghost use Rattle.ref_words.specs.Laws.{OpenLaw, SplitLaw, JoinLaw, TakeRoleLaw};

/// The words of a board that was just opened, and its one seat, meet the rule.
pub fn opened()
    ensures { OpenLaw }
{}

/// The desk deals a role out to a new seat.
pub fn role_is_dealt()
    ensures { SplitLaw }
{}

/// A seat goes back.
pub fn seats_join()
    ensures { JoinLaw }
{}

/// The word of a role is swapped with 1 by the seat to which the role is due.
pub fn role_is_taken()
    ensures { TakeRoleLaw }
{}
