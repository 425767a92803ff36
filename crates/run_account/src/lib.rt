//! What the roles of a run keep between two turns, whatever board they are at, and what is told of the run once all is over
//! (`ending.rt`, by the laws in `laws.rt`). And what the loops of a run have in common, whatever they do in their turns:
//! what they tell each other (`beside.rt`), how they rest (`sleeping.rt`), and the gate before each turn (`gate.rt`), of
//! which no clause speaks. Begin with `specs/Ran.antt`.
#![tactic(auto)]

mod beside;
mod ending;
mod gate;
mod laws;
mod left;
mod opening;
mod run;
mod sleeping;

pub use beside::{BEGINNING, IDLE, Loops, MOST_APPS};
pub use ending::tell;
pub use gate::{Gate, NoGate};
pub use laws::{runs_are_told, runs_end_well};
pub use left::Leaves;
pub use opening::{new_worker, new_workers};
pub use run::{Run, Worker};
