//! Runs over the board for one thread: the turns of a text, and then rounds until all have left; or rounds alone, in which no
//! record is read while an application has something to do.
#![tactic(auto)]

mod board_turns;
mod laws;
mod opening;
mod playing;
mod role;
mod running;
mod stepping;
mod waiting;

pub use laws::{runs_stay_within, stuck_runs_are_over, turns_rise};
pub use role::Role;
pub use running::{run_rounds, run_turns};
