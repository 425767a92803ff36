ghost use Rattle.tcp_reorder.specs.{Laws.{AreJudgedAlike, PartsAreAccepted, NextNeverFalls}, Entering.{HoldsWhatCame, StaysAccepted}, Parts.{PartsMakeTheFrame}};

/// A frame of at most 2^30 bytes that was accepted, and of which a byte is wanted, stays accepted at the same positions
/// while the first missing position grows by at most 2^30. It does nothing: its contract is the law.
pub fn frames_are_judged_alike()
    ensures { AreJudgedAlike }
{}

/// A part of an accepted frame is accepted, at its place in the frame. It does nothing: its contract is the law.
pub fn parts_are_accepted()
    ensures { PartsAreAccepted }
{}

/// The first missing position grows while pieces are taken, up to the greatest end of a piece at most. With
/// `RecvQueue::next_position`'s clause `sound`, the pieces of a frame that was accepted when it was n bring it to
/// n + 2^30 at most. It does nothing: its contract is the law.
pub fn first_missing_goes_on<H>()
    ensures { NextNeverFalls H }
{}

/// A queue holds the copying receiver's map, for values `A` that its pieces have: a new one the empty map; while the gaps
/// of a part of a frame are taken and pieces are popped it keeps it; and with no gap left it is what the part gives. It
/// does nothing: its contract is the law.
pub fn queue_holds_what_came<A, H>()
    ensures { HoldsWhatCame A H }
{}

/// A frame of at most 2^30 bytes that was accepted stays accepted at the same positions after any of its own bytes were
/// taken and anything was popped, so that its parts are judged alike. It does nothing: its contract is the law.
pub fn own_frame_stays_accepted<H>()
    ensures { StaysAccepted H }
{}

/// The copying receiver that judges each part of a frame anew, by the frame's own length, has in the end what it has of
/// the frame, as far as parts of it came. It does nothing: its contract is the law.
pub fn parts_make_the_frame<A>()
    ensures { PartsMakeTheFrame A }
{}
