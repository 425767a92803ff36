//! The completion ring: what was lent, with its loan, until the application reaps it (modelled on the completion queue
//! of io_uring, io_uring(7)).
#![tactic(auto)]

mod ring;

pub use ring::CqRing;
