//! The words that every layer shares: what can go wrong in a command, its options and the limits, the entries of the rings, notes
//! and places, what a replay counts, the events of a run's record, and the copying receiver, the measure of all streams. `Fault`
//! names why a replay ended, `Stopped` why an application did: nothing panics, and nothing ends the process but the return
//! of `main`. Of records of runs nothing is read or written here; the definitions in `specs/`, from `LegalRun`, are what
//! their readers and writers are proved by.
#![tactic(auto)]

mod behaviour;
mod event;
mod fault;
mod holding;
mod limits;
mod options;
mod outcome;
mod place;
mod receiver;
mod ring;

pub use behaviour::{Behaviour, Stopped};
pub use event::{Event, Log, MOST_EVENTS};
pub use fault::Fault;
pub use holding::Holding;
pub use limits::{LONGEST_PAYLOAD, LONGEST_RECORD, MOST_FLOWS, MOST_RECORDS};
pub use options::Options;
pub use outcome::{AppLine, Ended, FlowEnd, FlowLine, PoolStats, Tally};
pub use place::{Note, Place};
pub use receiver::{lead_is_signed_distance, next_missing_is_least, receiver_looks_at_no_value};
pub use ring::{Completion, Rqe};
