//! One call of `zcrx` over memory, and what it left; frames and captures for tests (`samples`).
#![tactic(auto)]

mod runs;
pub mod samples;

pub use runs::{
    FLOWS, Given, Left, ShelfFail, faultless, free_buffers, run, run_behind, shelves_for,
};
