//! Whole runs with threads: the capture is read, the card runs and each application runs side by side, each by a thread of
//! its own. The roles are at the seats of the board on words, and take the steps of a run by one thread. A ring takes the
//! frames from the reading (`reader.rt`) to the card (`card.rt`); each application has a lane with its seat and its shelf
//! (`lane.rt`), where it takes turns of its own, is polled or forwards. How long the card waits (`pace.rt`), what the loops
//! tell each other and how they rest is in no clause. Begin with `running.rt`.
#![tactic(auto)]

mod card;
mod carried;
mod dropping;
mod joining;
mod lane;
mod laws;
mod moving;
mod pace;
mod playing;
mod reader;
mod reading;
mod running;
mod seated;
mod seating;
mod sits;
mod starting;

pub use laws::carried_in_order;
pub use playing::processors;
pub use run_account::{Gate, NoGate};
pub use running::run_threads;
