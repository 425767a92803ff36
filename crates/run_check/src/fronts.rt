//! What a legal record says, as a law: it takes no argument and does nothing, its contract is what it is for.
ghost use Rattle.run_check.specs.Fronts.{FrontsLaw};

/// At each front of a legal record a buffer has as many holders as the pool count of it that the record said last, and an application
/// as many loans there, out or owed, as the user count of both that it said last; none where it said none.
pub fn fronts_have_counts()
    ensures { FrontsLaw }
{}
