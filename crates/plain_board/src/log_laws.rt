//! What a log keeps, by the definitions alone. No function here does anything: its contract is the law.

mod run;
mod step;

pub use run::{ended, fills, first_events, one_side, opened, setting, sound, told};
pub use step::{scrubbed, steps};
