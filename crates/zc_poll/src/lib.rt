//! An application's loans as a stream that is polled: each item is a loan with where its bytes stand in the stream of its flow.
//! The stream owns its face, takes notes while nothing is in order, and holds no loan back. `ToShelf` pours it into a shelf, turn by
//! turn or as a future.
#![tactic(auto)]

mod laws;
mod leaving;
mod lending;
mod pouring;
mod state;
mod step;
mod stream;
mod taking;
mod to_shelf;
mod with_parts;

pub use laws::items_law;
pub use leaving::Leaving;
pub use step::{Lent, Step, Waits};
pub use stream::LoanStream;
pub use to_shelf::{PollTurn, Poured, Rests, ToShelf};
pub use with_parts::WithParts;
