ghost use Rattle.zr_kinds.specs.ReceiverLaws.{LeadIsSignedDistance, NextMissingIsLeast, LooksAtNoValue};

/// The distance by which the copying receiver places what it takes, less 2^31, is the 32-bit distance of sequence
/// numbers, read as a signed number (RFC 9293, 3.4). It does nothing: its contract is the law.
pub fn lead_is_signed_distance()
    ensures { LeadIsSignedDistance }
{}

/// The copying receiver goes on from the least position where nothing stands, whatever it took, for values of any
/// kind. It does nothing: its contract is the law.
pub fn next_missing_is_least<V>()
    ensures { NextMissingIsLeast V }
{}

/// The copying receiver looks at no value: it has the same positions and goes on at the same place if each value is
/// mapped, and its front is mapped. It does nothing: its contract is the law.
pub fn receiver_looks_at_no_value<V, W>()
    ensures { LooksAtNoValue V W }
{}
