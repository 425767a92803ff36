ghost use Rattle.ref_words.specs.Words.{GroupsAreApart};

/// No two groups of words share one.
pub fn groups_are_apart()
    ensures { GroupsAreApart }
{}
