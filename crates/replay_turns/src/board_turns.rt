//! Turns at the board for one thread: it goes into a role's hands for a turn, and back.

ghost use Rattle.std.specs.Prelude.{◌≡◌, ℕ, ◌<◌, ◌≤◌, List, MatchBool};
ghost use Rattle.board_face.specs.{AppCalls.{IsHere}, AppEvents.{app_gist}};
ghost use Rattle.plain_board.specs.{Board.{stand_of, sides_of, side_of, others_of}, Recorded.{IsRecorded}, Seen.{IsSeenBy, IsSeenByCard}, Sound.{IsSound}};
ghost use Rattle.app_worker.specs.{State.{AppStands}, TurnMakes.{TurnMakes, at_work}, Turns.{look_of}, declared.turn.{Turn.TheVariants.{Idle}, Why.{Why}}};
ghost use Rattle.card_feed.specs.{Feed.{IsFeedReady, FeedKnows, FeedStands, WantsRecord, feed_steps}, Turns.{FeedSteps, FeedTurns, IsIdle}};
ghost use Rattle.card_feed.specs.declared.arrived.Arrived.TheVariants.{Nothing};
ghost use Rattle.replay_turns.specs.Following.{OnlyAppMoved};

use app_worker::{AppState, Turn, app_turn};
use card_feed::{Arrived, Feed, nic_step, nic_turn};
use plain_board::PlainBoard;
use zr_io::{Shelf, Source};

/// A turn of the card. Each application's side stays as it is.
pub(crate) fn card_step<S: Source>(
    board: PlainBoard,
    feed: &mut Feed,
    source: &mut S,
) -> (PlainBoard, bool)
    requires ready { IsFeedReady feed.old board.nic.view }
    ensures ready { IsFeedReady feed.new result.0.nic.view }
    ensures turns { (first : S) (ports : List ℕ) (split : ℕ) (frames : List (List ℕ))
        → FeedStands S.left S.faults first source.old ports split frames feed.old board.nic.view
        → FeedTurns S.left S.faults first source.new ports split frames feed.old feed.new
        board.nic.view result.0.nic.view }
    ensures ports { feed.new.ports ≡ feed.old.ports }
    ensures source { ¬ WantsRecord feed.old → source.new ≡ source.old }
    // What it saw in a turn that did nothing is so.
    ensures answer { MatchBool result.1
        (feed_steps feed.old board.nic.view < feed_steps feed.new result.0.nic.view)
        (IsIdle IsSeenByCard result.0.apps feed.old feed.new board.nic.view result.0.nic.view) }
    ensures apps { result.0.apps ≡ board.apps }
    ensures room { result.0.log.room ≡ board.log.room }
    ensures sound { IsSound (stand_of result.0) }
    ensures recorded { IsRecorded (sides_of result.0) result.0.log }
{
    let mut face = board.nic();
    let did = nic_turn(feed, source, &mut face);
    (face.back(), did)
}

/// A turn of the card for which nothing has come: it sends what is pending and deals with entries. Each application's side stays as
/// it is.
pub(crate) fn card_keeps_up(board: PlainBoard, feed: &mut Feed) -> PlainBoard
    requires ready { IsFeedReady feed.old board.nic.view }
    ensures ready { IsFeedReady feed.new result.nic.view }
    ensures steps { (ports : List ℕ) (split : ℕ) (frames : List (List ℕ))
        → FeedKnows ports split frames feed.old board.nic.view
        → FeedSteps ports split frames Nothing feed.old feed.new board.nic.view result.nic.view }
    ensures later { feed_steps feed.old board.nic.view ≤ feed_steps feed.new result.nic.view }
    ensures apps { result.apps ≡ board.apps }
    ensures room { result.log.room ≡ board.log.room }
    ensures sound { IsSound (stand_of result) }
    ensures recorded { IsRecorded (sides_of result) result.log }
{
    let mut face = board.nic();
    nic_step(feed, Arrived::Nothing, &mut face);
    face.back()
}

/// A turn of an application. The card's side and those of the other applications stay as they are.
pub(crate) fn app_step<T: Shelf>(
    board: PlainBoard,
    app: u32,
    st: &mut AppState,
    shelf: &mut T,
) -> (PlainBoard, Turn)
    requires app { app < board.arrays.layout.reserves }
    requires here { IsHere (side_of board app).view }
    requires stands { AppStands st.old (side_of board app).view }
    ensures makes { TurnMakes T.kept T.counts (at_work st.old (side_of board app).view shelf.old)
        (at_work st.new (side_of result.0 app).view shelf.new) result.1 }
    // Why it did nothing is so.
    ensures told { (why : Why) → result.1 ≡ Idle why
        → IsSeenBy (look_of why) (app_gist (side_of result.0 app).view) (others_of result.0 app) }
    ensures only { OnlyAppMoved app board result.0 }
    ensures sound { IsSound (stand_of result.0) }
    ensures recorded { IsRecorded (sides_of result.0) result.0.log }
{
    let mut face = board.app(app);
    let turn = app_turn(&mut face, st, shelf);
    (face.back(), turn)
}
