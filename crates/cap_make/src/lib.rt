//! The generator of captures: of a seed and a number of frames always the same bytes.
#![tactic(auto)]

mod frame;
mod generator;
mod laws;
mod piece;

pub use generator::make;
pub use laws::{flows_are_four, frames_are_segments};
