ghost use Rattle.board_face.specs.StepLaws.{CardSteps, AppSteps};

/// The steps of a call of the card together are the call's event.
pub fn card_steps()
    ensures { CardSteps }
{}

/// The steps of a call of an application together are the call's event.
pub fn app_steps()
    ensures { AppSteps }
{}
