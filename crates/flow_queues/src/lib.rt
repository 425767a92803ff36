//! The queues of an application's flows: what its notes bring waits there until the stream reaches it, and then is lent. A tally
//! counts loans and bytes. Once no loan is out the user counts are scrubbed, and once no note comes any more the application leaves.
//! Nothing here knows who reads a loan, and when it goes back.
#![tactic(auto)]

mod kept;
mod leaving;
mod lending;
mod letting;
mod noting;
mod places;
mod queues;
mod short;
mod taking;
mod tally;

pub use kept::Queues;
pub use leaving::{leave, scrub};
pub use lending::{CHUNK, Next, lend};
pub use letting::release_all;
pub use noting::{Taken, pass_note, take_note};
pub use places::find;
pub use queues::{FlowQueue, Lending, NotePiece, Short, Waiting};
pub use tally::LoanTally;
