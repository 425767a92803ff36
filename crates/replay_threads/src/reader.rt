//! The reading between two of its turns.
ghost use Rattle.std.specs.{Prelude.{◌≡◌, ◌+◌, ◌≤◌, ◌++◌, length, option_to_list}, Option.{ForSome}};
ghost use Rattle.zr_kinds.specs.Limits.{most_records};
ghost use Rattle.rtrb.specs.Ring.{sent};
ghost use Rattle.card_feed.specs.{Coming.{is_over}, Feed.{one_if}};
ghost use Rattle.replay_threads.specs.Carried.{MayFollow, has_end};

use crate::carried::{Carried, InOrder};
use card_feed::Stage;
use rtrb::{Consumer, Producer};
use std::alloc::Global;

/// The reading of a source, and the rings between it and the card.
#[derive(Drop)]
pub struct Reader {
    pub stage: Stage,
    /// How many messages were made.
    pub count: u32,
    /// The message that is sent next. It was made while the ring was full.
    pub held: Option<Carried>,
    pub ring: Producer<Carried, Global, InOrder>,
    /// Memory for frames, which the card gives back.
    pub empties: Consumer<Vec<u8>>,
    pub alloc: Global,
    ghost held_fits: { ForSome held (MayFollow (sent ring)) },
    ghost counted: { length (sent ring ++ option_to_list held) ≡ count },
    ghost ended: { is_over stage ≡ has_end (sent ring ++ option_to_list held) },
    ghost few: { count ≤ most_records + one_if (is_over stage) },
}

impl Reader {
    ghost use Rattle.std.specs.Prelude.{◌↔◌, IsTrue};
    ghost use Rattle.replay_threads.specs.Reader.{IsReaderDone};

    /// Whether all was read and sent.
    pub fn is_over(&self) -> bool
        ensures { IsTrue result ↔ IsReaderDone self.now }
    {
        self.held.is_none() && self.stage.is_over()
    }
}
