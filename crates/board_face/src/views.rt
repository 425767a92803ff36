//! What the card and an application have done at a board and know of it, as plain data. No value of these types is
//! made: they are what contracts and the boards' rules speak of.

pub mod app;
pub mod nic;
pub mod parts;
