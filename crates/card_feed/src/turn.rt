//! A turn of the card.

ghost use Rattle.std.specs.Prelude.{◌≡◌, ◌≢◌, ℕ, ◌<◌, List, MatchBool, true};
ghost use Rattle.card_feed.specs.{Feed.{IsFeedReady, FeedKnows, FeedStands, WantsRecord, feed_steps}, declared.arrived.Arrived.TheVariants.{Nothing}, Turns.{FeedSteps, FeedTurns, HasLooked, HasRested, IsIdle, MayArrive}};

use crate::playing::{counts_fit, keep_up, play};
use crate::{Arrived, Feed};
use board_face::NicFace;
use zr_io::Source;

/// A step of the card, for what arrived. It offers the frame at hand; or, where the reading is over, it sends what is pending
/// and closes the card; or, where pending notes have to wait and after closing, it drains the refill rings. Where nothing has
/// come yet it sends what is pending and drains.
///
/// `false` says that it did nothing but look.
pub fn nic_step<F: NicFace>(feed: &mut Feed, arrived: Arrived, face: &mut F) -> bool
    requires ready { IsFeedReady feed.old (F.seen face.old) }
    requires arrived { MayArrive feed.old arrived }
    ensures ready { IsFeedReady feed.new (F.seen face.new) }
    ensures steps { (ports : List ℕ) (split : ℕ) (frames : List (List ℕ))
        → FeedKnows ports split frames feed.old (F.seen face.old)
        → FeedSteps ports split frames arrived feed.old feed.new (F.seen face.old)
        (F.seen face.new) }
    ensures ports { feed.new.ports ≡ feed.old.ports }
    ensures took { arrived ≢ Nothing → result ≡ true }
    ensures answer { MatchBool result
        (feed_steps feed.old (F.seen face.old) < feed_steps feed.new (F.seen face.new))
        (HasLooked (HasRested feed.old feed.new arrived) F.tells (F.beside face.new) feed.old
        feed.new (F.seen face.old) (F.seen face.new)) }
    ensures beside { F.beside face.new ≡ F.beside face.old }
{
    let nothing = matches!(arrived, Arrived::Nothing);
    feed.intake.receive(arrived);
    let plays = if nothing && feed.intake.is_readable() {
        keep_up(&mut feed.pool, face)
    } else {
        play(&mut feed.intake, &mut feed.pool, &mut feed.closed, face)
    };
    counts_fit(&feed.pool);
    !nothing || plays
}

/// A turn of the card: where no frame is at hand and the reading goes on, it reads one record. Then it takes a step.
///
/// `false` says that it did nothing but look.
pub fn nic_turn<S: Source, F: NicFace>(feed: &mut Feed, source: &mut S, face: &mut F) -> bool
    requires ready { IsFeedReady feed.old (F.seen face.old) }
    ensures ready { IsFeedReady feed.new (F.seen face.new) }
    ensures turns { (first : S) (ports : List ℕ) (split : ℕ) (frames : List (List ℕ))
        → FeedStands S.left S.faults first source.old ports split frames feed.old (F.seen face.old)
        → FeedTurns S.left S.faults first source.new ports split frames feed.old feed.new
        (F.seen face.old) (F.seen face.new) }
    ensures ports { feed.new.ports ≡ feed.old.ports }
    ensures source { ¬ WantsRecord feed.old → source.new ≡ source.old }
    ensures answer { MatchBool result
        (feed_steps feed.old (F.seen face.old) < feed_steps feed.new (F.seen face.new))
        (IsIdle F.tells (F.beside face.new) feed.old feed.new (F.seen face.old) (F.seen face.new)) }
    ensures beside { F.beside face.new ≡ F.beside face.old }
{
    let arrived = feed.intake.next(source);
    nic_step(feed, arrived, face)
}
