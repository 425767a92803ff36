use crate::{Filling, Making, Setting, Slot};
use std::collections::LinkedList;
use zr_kinds::{Note, Place, Rqe};

/// A text that the card placed.
#[derive(Drop)]
pub struct PlacedText {
    pub place: Place,
    pub bytes: LinkedList<u8>,
}

/// A note that the card sent to an application, with the bytes that it tells of: those at its place, or those that
/// travel in it.
#[derive(Drop)]
pub struct SentNote {
    pub app: u32,
    pub note: Note,
    pub bytes: LinkedList<u8>,
}

/// What became of a refill entry.
#[derive(Clone, Copy)]
pub enum Fate {
    /// It gave a reference to this buffer back.
    Honoured(u32),
    /// It changed nothing.
    Stray,
}

/// A refill entry of an application that the card dealt with.
#[derive(Drop)]
pub struct Dealt {
    pub app: u32,
    pub entry: Rqe,
    pub fate: Fate,
}

/// What the card saw that keeps it from going on, or that it judges by.
#[derive(Clone, Copy)]
pub enum NicLook {
    /// The next refill slot of this application was free.
    RingEmpty(u32),
    /// The next note slot to this application was in use.
    NoteInUse(u32),
    /// This free word was swept.
    Swept(u32),
    /// This application hadn't left.
    NotLeft(u32),
    /// It had.
    HasLeft(u32),
    /// The user count of this application for this buffer was 0.
    NotOwed(u32, u32),
    /// It was above 0.
    Owed(u32, u32),
    /// This buffer's pool count came to 0.
    LastHolder(u32),
    /// It was lowered, and stayed above 0.
    StillHeld(u32),
}

/// What the card has done and knows, as contracts see it.
#[derive(Drop)]
pub struct NicView {
    pub setting: Setting,
    /// It has ended.
    pub ended: bool,
    /// The buffers in its cache, in the order in which they entered.
    pub cache: LinkedList<u32>,
    /// The free words that it has swept.
    pub swept: LinkedList<u32>,
    /// The buffers that it has taken, in order.
    pub used: LinkedList<u32>,
    /// The buffers for filling that it has out.
    pub owns: LinkedList<Filling>,
    /// The pieces that it has out.
    pub pieces: LinkedList<PlacedText>,
    /// The notes that it has sent, in order.
    pub sent: LinkedList<SentNote>,
    /// The refill entries that it has dealt with, in order.
    pub dealt: LinkedList<Dealt>,
    /// The applications that it has seen to have left.
    pub gone: LinkedList<u32>,
    /// What it has seen, the newest first.
    pub looks: LinkedList<NicLook>,
}

/// How far the entry in hand was judged, on a board of words.
#[derive(Clone, Copy)]
pub enum Judged {
    /// Its words were loaded.
    Not,
    /// It is a stray.
    Stray,
    /// The user count for this buffer was seen above 0.
    Owed(u32),
    /// The user count was lowered, and the pool count not yet.
    UserLowered(u32),
    /// Both counts were lowered.
    BothLowered(u32),
}

/// A refill entry that the card is dealing with, on a board of words.
#[derive(Drop)]
pub struct EntryInHand {
    pub app: u32,
    pub entry: Rqe,
    pub judged: Judged,
}

/// What only a board speaks of: what the card is in the middle of, on a board of words.
#[derive(Drop)]
pub struct NicInside {
    /// Free buffers that are neither listed nor cached.
    pub hands: LinkedList<u32>,
    /// The piece in the making.
    pub making: Option<Making>,
    /// The entry in hand.
    pub entry: Option<EntryInHand>,
    /// The next note slot to each application.
    pub note_slots: LinkedList<Slot>,
    /// The next refill slot of each application.
    pub refill_slots: LinkedList<Slot>,
}

/// The card's side of a board.
#[derive(Drop)]
pub struct NicSide {
    pub view: NicView,
    pub inside: NicInside,
}
