ghost use Rattle.ref_words.specs.Over.{OverLaw};

/// Who is over was served and has no buffer, and once all are each pool buffer is free once.
pub fn what_is_over()
    ensures { OverLaw }
{}
