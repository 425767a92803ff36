//! The board for threads: atomic words and lines of plain memory under the rule of `ref_words`, a seat for each role, and the
//! desk that gives the seats out. Each step on a word is one function here, which cites the law that it keeps the rule.
#![tactic(auto)]

mod app_seat;
mod board;
mod desk;
mod finish;
mod found;
mod hands;
mod kinds;
mod lines;
mod nic_seat;
mod opening;
mod rule;
mod stepper;
mod steps;

pub use app_seat::AppSeat;
pub use board::WordBoard;
pub use desk::Desk;
pub use finish::ClosedWords;
pub use lines::Line;
pub use nic_seat::NicSeat;
pub use rule::{After, AtHand, Deal, Deals, Gives, Takes, Together, Turns, WordRule};
