//! How areas are cut into buffers, what an offset names in them, and the entries of the rings as bytes (modelled on
//! `io_uring_zcrx_rqe` and `io_uring_zcrx_cqe` of the Linux uapi, io_uring.h).
#![tactic(auto)]

mod entries;
mod laws;
mod layout;

pub use entries::{cqe_bytes, cqe_read, rqe_bytes, rqe_read};
pub use laws::{buffers_are_in_order, places_are_judged, words_are_apart};
pub use layout::{Area, Layout, MAX_AREAS, MAX_BUFFERS, MAX_BYTES, MAX_SIZE, MIN_SIZE};
