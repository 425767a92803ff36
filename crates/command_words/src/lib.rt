//! The reading of the command's words: `clap` says which word is an option, a value or a word of its own, and the
//! numbers are read here.
#![tactic(auto)]

mod areas;
mod assign;
mod laws;
mod making;
mod numbers;
mod options;
mod reading;
mod wrong;

pub use laws::{areas_are_read, one_area_is_read, pools_make_layouts};
pub use making::Make;
pub use reading::{Command, Replay, read_words};
pub use wrong::{USAGE, Wrong, what_is_wrong};
