ghost use Rattle.page_pool.specs.Laws.{PackingIsWhole, PackingIsShort, OfferIsShown, AcceptedAreShown};

/// The parts of a packing have all bytes of the payload. Each lies in its buffer, and begins there at a multiple of 64. It
/// does nothing: its contract is the law.
pub fn packing_is_whole()
    ensures { PackingIsWhole }
{}

/// A packing takes no more fresh buffers than are needed, and where each has 1,024 bytes or more a payload has at most 64
/// parts. It does nothing: its contract is the law.
pub fn packing_is_short()
    ensures { PackingIsShort }
{}

/// Where all notes, those sent and those pending, show the frames that were accepted, they do so after an offer. It does
/// nothing: its contract is the law.
pub fn offer_is_shown()
    ensures { OfferIsShown }
{}

/// All notes, those sent and those pending, show the frames that were accepted: the notes of each stand together, in
/// order, with the frame's fields. It does nothing: its contract is the law.
pub fn accepted_are_shown()
    ensures { AcceptedAreShown }
{}
