//! What each call does to counts and free places, by the definitions alone. No function here does anything: its contract
//! is the law.

mod app;
mod card;
mod steps;

pub use app::{
    app_keeps, cut_law, fill_law, give_law, lend_law, lend_own_law, poll_law, release_law,
    scrub_law, spare_law,
};
pub use card::{
    card_keeps, honour_law, place_law, send_law, shut_law, stray_law, sweep_law, take_law,
    unused_are_cached,
};
pub use steps::{app_steps, card_steps};
