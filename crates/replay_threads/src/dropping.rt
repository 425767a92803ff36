//! What was sent and not taken.
ghost use Rattle.std.specs.Prelude.{◌≡◌, ◌+◌, ◌<◌, true, ◌++◌, length};
ghost use Rattle.rtrb.specs.Ring.{IsPair, known_items, received, sent};
ghost use Rattle.card_feed.specs.{Coming.{is_over}, Feed.{IsFeedReady}};
ghost use Rattle.replay_threads.specs.{Cards.{CardDrops, CardGoes}, Reader.{messages_of}};

use crate::card::CardLane;
use crate::reader::Reader;

/// Takes the next message, and drops it.
fn drop_next(card: &mut CardLane<'_>)
    requires some { 0 < length (known_items card.old.frames) }
    ensures drops { CardDrops card.old card.new }
    ensures known { length (known_items card.old.frames)
        ≡ length (known_items card.new.frames) + 1 }
    ensures all { received card.new.frames ++ known_items card.new.frames
        ≡ received card.old.frames ++ known_items card.old.frames }
{
    card.frames.pop_known();
}

/// Takes all that was sent and not taken, and drops it. The card wants no more of the capture.
pub fn drop_rest(reader: &mut Reader, card: &mut CardLane<'_>)
    requires pair { IsPair reader.old.ring card.old.frames }
    requires over { is_over card.old.feed.stage ≡ true }
    requires ready { IsFeedReady card.old.feed card.old.seat.side.view }
    ensures made { messages_of reader.new ≡ messages_of reader.old }
    ensures all { received card.new.frames ≡ sent reader.new.ring }
    ensures feed { card.new.feed ≡ card.old.feed }
    ensures seat { card.new.seat ≡ card.old.seat }
    ensures goes { CardGoes card.old card.new }
{
    let count = card.frames.slots_beside(&mut reader.ring);
    for _ in 0..count {
        drop_next(card);
    }
}
