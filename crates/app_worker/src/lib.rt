//! The application: notes into the queues of their flows, loans, completions, reading and giving back. Between two turns
//! `AppStands` holds; what a turn does, and why it does nothing, is `Turns`. No flow but the active one, that of the note
//! taken last, ever has a piece in order.
#![tactic(auto)]

mod lending;
mod letting;
mod reading;
mod stack;
mod stages;
mod state;
mod straying;
mod turn;
mod turning;
mod working;

pub use state::{AppState, app_turn};
pub use turn::{Turn, Why};
