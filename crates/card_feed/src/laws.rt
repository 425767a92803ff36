ghost use Rattle.card_feed.specs.{Account.{AccountsGiveStreams, ClosedFeedsShow}, Feed.{NewFeedsStand}, Sent.{ShownNotesAreWhole, FirstFramesStandTogether, FeedsSendWhole, ShownNotesAreOwn, FeedsSendOwn, OwnNotesMarkNoOther, OffersHaveApps}};

use zr_io::{Shelf, Source};

/// A board that accounts for a run gives each flow a front of what the copying receiver has of the flow's frames, but
/// those that were refused; and all of it where its application wasn't stopped. It does nothing: its contract is the law.
pub fn accounts_give_streams<T: Shelf>()
    ensures { AccountsGiveStreams T.kept }
{}

/// A new feed has read nothing, and nothing was offered of it. It does nothing: its contract is the law.
pub fn new_feeds_stand<S: Source>()
    ensures { NewFeedsStand S.left S.faults }
{}

/// Once the card was closed, the notes that were sent to each application show its frames, one after another, but those
/// that were refused. It does nothing: its contract is the law.
pub fn closed_feeds_show<S: Source>()
    ensures { ClosedFeedsShow S.left S.faults }
{}

/// Notes that show an application's frames, each as it may be sent, are taken as whole frames: pieces of a frame stand
/// together, in order, and frames in the order of their numbers. It does nothing: its contract is the law.
pub fn shown_notes_are_whole()
    ensures { ShownNotesAreWhole }
{}

/// The first notes of whole frames are whole frames, of which the last may lack pieces. It does nothing: its contract is
/// the law.
pub fn first_frames_stand_together()
    ensures { FirstFramesStandTogether }
{}

/// At any time of a run the notes that were sent to an application are taken as whole frames, of which the last may lack
/// pieces. It does nothing: its contract is the law.
pub fn feeds_send_whole<S: Source>()
    ensures { FeedsSendWhole S.left S.faults }
{}

/// Notes that show an application's frames are of its own flows. It does nothing: its contract is the law.
pub fn shown_notes_are_own()
    ensures { ShownNotesAreOwn }
{}

/// At any time of a run the notes that were sent to an application are of its own flows. It does nothing: its contract is
/// the law.
pub fn feeds_send_own<S: Source>()
    ensures { FeedsSendOwn S.left S.faults }
{}

/// Notes of an application's own flows have no mark of another flow. It does nothing: its contract is the law.
pub fn own_notes_mark_no_other()
    ensures { OwnNotesMarkNoOther }
{}

/// Each frame that is offered goes to one of the ports. It does nothing: its contract is the law.
pub fn offers_have_apps()
    ensures { OffersHaveApps }
{}
