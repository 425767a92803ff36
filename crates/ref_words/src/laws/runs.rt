ghost use Rattle.ref_words.specs.{Runs.{RunsKeepTheRule}, Middle.{IsInhabited}};

use crate::laws::roles::{opened, role_is_dealt, role_is_taken, seats_join};
use crate::laws::steps::{app_keeps_the_rule, card_keeps_the_rule};

/// From the opening on, after any list of steps by any seats that have the roles, the rule holds: counts are holders, no
/// count has wrapped, each buffer is free once or held, each text stands, and what was read is what was sent.
pub fn runs_keep_the_rule()
    ensures { RunsKeepTheRule }
{
    opened();
    role_is_dealt();
    seats_join();
    role_is_taken();
    card_keeps_the_rule();
    app_keeps_the_rule();
}

/// The rule holds of a board on which three roles are in the middle of calls.
pub fn the_rule_is_inhabited()
    ensures { IsInhabited }
{
    runs_keep_the_rule();
}
