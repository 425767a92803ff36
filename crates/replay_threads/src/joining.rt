//! The loops of the reading and of the card, side by side.
ghost use Rattle.card_feed.specs.Feed.{IsFeedReady};
ghost use Rattle.replay_threads.specs.{Cards.{CardGoes}, Reader.{ReaderGoes}};

use crate::card::{CardLane, run_card};
use crate::reader::Reader;
use crate::reading::run_reader;
use run_account::{Gate, Loops};
use std::sync::Wait;
use std::thread::{Threads, join_mut};
use zr_io::Source;

/// The loops of the reading and of the card.
pub fn join_reading<S: Source + Send, G: Gate + Sync, R: Threads + Wait + Sync>(
    rt: &R,
    gate: &G,
    beside: &Loops,
    free: u32,
    source: &mut S,
    reader: &mut Reader,
    card: &mut CardLane<'_>,
)
    requires ready { IsFeedReady card.old.feed card.old.seat.side.view }
    ensures reader { ReaderGoes S.left S.faults source.old source.new reader.old reader.new }
    ensures card { CardGoes card.old card.new }
{
    join_mut(
        rt,
        &mut || run_reader(rt, beside, source, reader),
        &mut ||
            requires { IsFeedReady card.now.feed card.now.seat.side.view }
        { run_card(rt, gate, beside, free, card) },
    );
}
