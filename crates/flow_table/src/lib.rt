//! Which application and which flow a TCP segment belongs to, and what a flow's stream is. `FlowTable::place` equals the
//! definitions in `specs/` for every segment and every list of flows. The module `plain` has slow programs for tests that
//! compute these definitions.
#![tactic(auto)]

mod close;
mod entry;
mod list;
mod placed;
pub mod plain;
mod segment;
mod table;

pub use close::Close;
pub use placed::{FlowFault, FlowInfo, Steered};
pub use table::FlowTable;
