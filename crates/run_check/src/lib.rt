//! Reads the record of a run and says whether it is that of a legal run. The holders of a buffer are kept by offset
//! (`Buffer`), and are those of the definition in any order (`SameHolders`).
#![tactic(auto)]

mod buffer;
mod bytes;
mod checking;
mod fronts;
mod holders;
mod lines;
mod places;
mod setting;
mod unfit;
mod words;

pub use checking::{Checked, check};
pub use fronts::fronts_have_counts;
pub use unfit::{Lack, Unfit};
