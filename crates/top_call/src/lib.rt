//! What the program does, of any source, shelves and sink: `zcrx` runs the command that its words ask for. It replays a
//! capture by threads or by a text of turns, makes a capture, or checks the record of a run. `zcrx_alone` does all of that
//! but replay by threads, and waits for nobody. The report, with the answer of the command behind it, and the record of a
//! run are written here too (`report.rt`, `record.rt`). Begin with `specs/StreamTheorem.antt`.
#![tactic(auto)]

mod card;
mod checking;
mod flushing;
mod lines;
mod record;
mod report;
mod status;
mod top;

pub use card::Card;
pub use record::write_record;
pub use report::{Report, Unreported, answer, write_report};
pub use top::{zcrx, zcrx_alone};

/// How many shelves there are, one for each application.
pub const SHELVES: usize = 8;
