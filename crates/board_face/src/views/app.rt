use crate::{Filling, Making, Setting, Slot};
use std::collections::LinkedList;
use zr_kinds::{Note, Place, Rqe};

/// A note that an application took, with the bytes that travelled in it.
#[derive(Drop)]
pub struct TakenNote {
    pub note: Note,
    pub bytes: LinkedList<u8>,
}

/// Where bytes come from.
#[derive(Drop)]
pub enum Origin {
    /// The note that was taken as this one, counted from 0, and how many bytes of its piece come before.
    Note(u64, u32),
    /// These bytes, with which a spare was filled.
    Copied(LinkedList<u8>),
}

/// A sent piece in an application's stack.
#[derive(Drop)]
pub struct HeldPiece {
    pub place: Place,
    pub origin: Origin,
}

/// A spare for filling, with the bytes that it was filled with, if it was.
#[derive(Drop)]
pub struct SpareOwn {
    pub own: Filling,
    pub bytes: LinkedList<u8>,
}

/// A lent piece.
#[derive(Drop)]
pub struct LentPiece {
    pub place: Place,
    pub origin: Origin,
}

/// A refill entry that an application wrote: of a loan, or raw.
#[derive(Drop)]
pub struct WrittenEntry {
    pub entry: Rqe,
    pub of_loan: bool,
}

/// Bytes that were read through a loan.
#[derive(Drop)]
pub struct Reading {
    pub origin: Origin,
    pub bytes: LinkedList<u8>,
}

/// What an application saw that keeps it from going on, or that tells why it does.
#[derive(Clone, Copy)]
pub enum AppLook {
    /// The card hadn't ended, and after that the next note slot was empty.
    NoNote,
    /// The card had ended, and after that the next note slot was empty.
    CardEnded,
    /// The next refill slot was in use.
    RefillInUse,
    /// The slot of the last raw entry was in use.
    RawOnItsWay,
    /// Each free word was 0 or lost to another, and after that the reserve's pool count was 0.
    NoneListed,
    /// Each free word was 0 or lost to another, and after that the reserve's pool count was above 0.
    NoSpare,
    /// A refill slot was in use.
    NotQuiet,
}

/// What an application has done and knows, as contracts see it.
#[derive(Drop)]
pub struct AppView {
    pub setting: Setting,
    /// The application's number, from 0.
    pub app: u32,
    /// It has left.
    pub left: bool,
    /// No raw entry is on its way.
    pub settled: bool,
    /// Each of its refill slots was seen free, and nothing was pushed since.
    pub quiet: bool,
    /// Its user counts were scrubbed.
    pub scrubbed: bool,
    /// It was told that no note comes any more.
    pub ended: bool,
    /// How many spares it was given.
    pub spares: u64,
    /// The pool buffers that it picked for spares, in order. On a board of words one is picked a step before it is given.
    pub picked: LinkedList<u32>,
    /// The sent pieces that it has out.
    pub helds: LinkedList<HeldPiece>,
    /// The spares for filling that it has out.
    pub owns: LinkedList<SpareOwn>,
    /// The loans that it has out.
    pub loans: LinkedList<LentPiece>,
    /// The loans that it has given back or abandoned, in order.
    pub returned: LinkedList<LentPiece>,
    /// The notes that it has taken, in order.
    pub taken: LinkedList<TakenNote>,
    /// The refill entries that it has written, in order.
    pub written: LinkedList<WrittenEntry>,
    /// What it has read, in order.
    pub reads: LinkedList<Reading>,
    /// What it has seen, the newest first.
    pub looks: LinkedList<AppLook>,
}

/// What only a board speaks of: what a scrub took, and what the application is in the middle of on a board of words.
#[derive(Drop)]
pub struct AppInside {
    /// Free buffers that are neither listed nor cached.
    pub hands: LinkedList<u32>,
    /// The text of a spare that it stores, or of a loan that it reads.
    pub making: Option<Making>,
    /// The next note slot.
    pub note_slot: Slot,
    /// The next refill slot.
    pub refill_slot: Slot,
    /// The refill slots that were seen free since the last push.
    pub free_slots: LinkedList<u32>,
    /// The refill slot of the last raw entry.
    pub raw_slot: Option<u32>,
    /// The card was seen to have ended.
    pub end_seen: bool,
    /// In this look for a note the card's end was looked for, and not seen.
    pub end_unseen: bool,
    /// The words of the free list that were seen 0 or lost to another in this search for a spare.
    pub words_without: LinkedList<u32>,
    /// The reserve's pool count was seen at 0, and no spare was taken since.
    pub reserve_seen_free: bool,
    /// How many buffers a scrub on a board of words has gone through, from the first on.
    pub scrub_mark: u32,
    /// How many user references a scrub took of each buffer.
    pub scrub_took: LinkedList<u64>,
    /// How many of these are still to be taken from each pool count.
    pub scrub_owes: LinkedList<u64>,
}

/// An application's side of a board.
#[derive(Drop)]
pub struct AppSide {
    pub view: AppView,
    pub inside: AppInside,
}
