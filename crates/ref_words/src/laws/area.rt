ghost use Rattle.ref_words.specs.AreaSteps.{AreaStepsLaw};

/// The steps at the area's lines that a call makes together are its event.
pub fn area_steps()
    ensures { AreaStepsLaw }
{}
