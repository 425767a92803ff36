use board_face::{AppSide, NicSide};
use std::collections::LinkedList;

/// What stands beside the card on its board, as contracts see it. No value of it is made.
#[derive(Drop)]
pub struct Applications {
    /// The sides of all applications.
    pub apps: LinkedList<AppSide>,
    /// For how many events the board's log has room.
    pub room: u32,
}

/// What stands beside an application on its board, as contracts see it. No value of it is made.
#[derive(Drop)]
pub struct Others {
    pub card: NicSide,
    /// The sides of all applications, with one that says nothing in this application's place.
    pub apps: LinkedList<AppSide>,
    /// This application's number.
    pub number: u32,
    /// For how many events the board's log has room.
    pub room: u32,
}
