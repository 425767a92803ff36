ghost use Rattle.ref_words.specs.RoleLaws.{CardLaw, AppLaw};

/// What each step of the card finds, and that it keeps the rule.
pub fn card_keeps_the_rule()
    ensures { CardLaw }
{}

/// What each step of an application finds, and that it keeps the rule.
pub fn app_keeps_the_rule()
    ensures { AppLaw }
{}
