//! What the roles of a run keep between two turns.

use app_worker::AppState;
use card_feed::Feed;

/// An application between two of its turns.
#[derive(Drop)]
pub struct Worker {
    pub state: AppState,
    /// It has left the board.
    pub left: bool,
}

/// What the card and the applications keep between two turns, besides the board.
#[derive(Drop)]
pub struct Run {
    pub feed: Feed,
    /// The applications, in the order of the ports.
    pub workers: Vec<Worker>,
}
