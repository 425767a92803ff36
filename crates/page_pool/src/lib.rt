//! The page pool: where payloads are placed, how fresh buffers are found, and which frames are refused. `PoolStands` is the
//! condition of each call and holds again after it. What calls do to notes is said of one list: those sent, and behind them
//! those pending (`all_notes`). No call takes memory, waits, or changes what stands beside the face.
#![tactic(auto)]

mod close;
mod drain;
mod flush;
mod gather;
mod laws;
mod offer;
mod pieces;
mod placing;
mod pool;
mod search;
mod search_end;

pub use close::nic_close;
pub use drain::nic_drain;
pub use flush::nic_flush;
pub use gather::nic_gather;
pub use laws::{accepted_are_shown, offer_is_shown, packing_is_short, packing_is_whole};
pub use offer::{Offer, Verdict, nic_offer};
pub use pool::{Pending, Pool, Short};
pub use search::find_fresh;
pub use search_end::SearchEnd;
