ghost use Rattle.std.specs.Prelude.{◌≡◌, ℕ, ◌+◌, ◌-◌, ◌<◌, ◌≤◌, ◌↔◌, true, false, length, IsTrue, IfErr, IfNone, IfSome, MatchOption, MatchResult, MatchBool};
ghost use Rattle.area_layout.specs.Layout.{IsLayout, IsBufferSize, all_buffers, least_size, off_of};
ghost use Rattle.board_face.specs.{declared.{views.app.{AppView.{AppView}, AppLook.{TheVariants.{RefillInUse, RawOnItsWay, NoSpare, NotQuiet}, AppLook}}, answers.Polled.TheVariants.{Empty as got_none}}, Looks.{AppTold}, NotNow.{HasWritten, HasWrittenRingful, HasPushedRaw, HasUsedReserve}, Tokens.{filled_by}, Texts.{front_place, rest_place}, AppEvents.{app_gist, cut, released, lent, loan_origin, has_read, abandoned, gave, pushed_raw, came_to_rest, reserve_of, filled, own_bytes, begin_place, lent_own, fell_quiet, scrubbed, left_board}, AppCalls.{IsHere, HasHeld, HasLoan, HasSpare, HasPlace, CanLend, IsLive, NamesNoLoan, MaySpare, IsFilled, CanScrub, CanLeave, AppOnlySaw, Looked, GotSpare, ShowsCopy}};

use crate::{Held, Loan, Own, Polled};
use zr_kinds::{Place, Rqe};

/// What an application does at a board. No call takes memory, and none waits for another's step.
///
/// A call changes of the view what its event says, and nothing else. After `leave` only the readers go on.
pub trait AppFace {
    /// What no call of this face changes, as the other roles' views on a board that this face holds.
    type Beside;

    /// What the application has done and knows.
    ghost seen: { Self → AppView };

    ghost beside: { Self → Self.Beside };

    /// What a board says of this look, by what the application knows but for its looks and its refill slots, and by what
    /// stands beside it: that it is so of the board before the call; or, where others step meanwhile, of some board with
    /// what this application did. Each call whose count of a look rose is told so.
    ghost tells: { AppLook → AppView → Self.Beside → Type 0 } = { λ _ _ _. Unit {0} };

    /// What a board says of a buffer that it gives as a spare: that it is the lowest of the first word of the free list that
    /// had one, or the reserve where no word had, by the same.
    ghost finds: { ℕ → AppView → Self.Beside → Type 0 } = { λ _ _ _. Unit {0} };

    /// How many slots each ring has.
    fn places(&self) -> u32
        ensures value { result ≡ (seen self.now).setting.places }
        ensures some { 1 ≤ result }
        ensures few { result ≤ 256 };

    /// The least size of a buffer, in bytes.
    fn size(&self) -> u32
        ensures value { result ≡ least_size (seen self.now).setting.layout }
        ensures within { IsBufferSize result }
        ensures sound { IsLayout (seen self.now).setting.layout };

    /// The number of this application's reserve buffer.
    fn reserve(&self) -> u32
        ensures value { result ≡ reserve_of (seen self.now) }
        ensures within { result < all_buffers (seen self.now).setting.layout };

    /// The offset by which completions and refill entries name the place.
    fn off(&self, p: &Place) -> u64
        requires { HasPlace (seen self.now) p.now }
        ensures { result ≡ off_of (seen self.now).setting.layout p.now };

    /// Takes the next note. The bytes of `Linear` are the first of `linear`.
    fn poll(&mut self, linear: &mut [u8; 256]) -> Polled
        requires here { IsHere (seen self.old) }
        ensures view { Looked (seen self.old) (seen self.new) linear.new result }
        // Once it answered `Ended`, it answers that again.
        ensures untold { result ≡ got_none → (seen self.old).ended ≡ false }
        ensures told { AppTold (λ look. tells look (app_gist (seen self.old)) (beside self.old))
            (seen self.old) (seen self.new) }
        ensures beside { beside self.new ≡ beside self.old };

    /// Cuts a piece in two behind its first `at` bytes, each with a reference of its own.
    fn cut(&mut self, held: Held, at: u32) -> (Held, Held)
        requires here { IsHere (seen self.old) }
        requires out { HasHeld (seen self.old) held }
        requires front { 0 < at }
        requires rest { at < held.len }
        ensures places { (result.0 ≡ front_place held at) × (result.1 ≡ rest_place held at) }
        ensures view { seen self.new ≡ cut (seen self.old) held at }
        ensures beside { beside self.new ≡ beside self.old };

    /// Whether no raw entry is on its way: `false` says that the slot of the last was seen in use.
    fn settle(&mut self) -> bool
        requires here { IsHere (seen self.old) }
        ensures view { MatchBool result
            (seen self.new ≡ came_to_rest (seen self.old))
            (AppOnlySaw RawOnItsWay (seen self.old) (seen self.new)) }
        ensures raw { result ≡ false → HasPushedRaw (seen self.old) }
        ensures told { AppTold (λ look. tells look (app_gist (seen self.old)) (beside self.old))
            (seen self.old) (seen self.new) }
        // Where nothing was pushed raw since the last `true`, it is `true` again.
        ensures still { (seen self.old).settled ≡ true → IsTrue result }
        ensures beside { beside self.new ≡ beside self.old };

    /// Lends a piece, in one step: its reference becomes the loan's.
    fn lend(&mut self, held: Held) -> Loan
        requires here { IsHere (seen self.old) }
        requires out { HasHeld (seen self.old) held }
        requires can { CanLend (seen self.old) }
        ensures place { result ≡ held }
        ensures view { seen self.new ≡ lent (seen self.old) held }
        ensures beside { beside self.new ≡ beside self.old };

    /// Reads bytes of a loan, from its byte `from` on.
    fn read(&mut self, loan: &Loan, from: u32, into: &mut [u8])
        requires here { IsHere (seen self.old) }
        requires out { HasLoan (seen self.old) loan.now }
        requires within { from + length into.old ≤ loan.now.len }
        ensures view { seen self.new ≡ has_read (seen self.old) loan.now from into.new }
        // What comes from a note is what was sent, which is the board's to say.
        ensures copied { ShowsCopy (loan_origin (seen self.old) loan.now) from into.new }
        ensures beside { beside self.new ≡ beside self.old };

    /// Gives a loan back by a refill entry. `Err` says that the next refill slot was seen in use.
    fn give(&mut self, loan: Loan) -> Result<(), Loan>
        requires here { IsHere (seen self.old) }
        requires out { HasLoan (seen self.old) loan }
        ensures view { MatchResult result
            (λ _. seen self.new ≡ gave (seen self.old) loan)
            (λ back. (back ≡ loan) × AppOnlySaw RefillInUse (seen self.old) (seen self.new)) }
        ensures full { IfErr result (λ _. HasWrittenRingful (seen self.old)) }
        ensures told { AppTold (λ look. tells look (app_gist (seen self.old)) (beside self.old))
            (seen self.old) (seen self.new) }
        ensures beside { beside self.new ≡ beside self.old };

    /// Whether a loan in this buffer is out.
    fn live(&self, buffer: u32) -> bool
        ensures { IsTrue result ↔ IsLive (seen self.now) buffer };

    /// Writes any refill entry. `Err` says that the next refill slot was seen in use.
    fn push_raw(&mut self, entry: Rqe) -> Result<(), Rqe>
        requires here { IsHere (seen self.old) }
        requires idle { NamesNoLoan (seen self.old) entry }
        requires counted { (seen self.old).scrubbed ≡ false }
        ensures view { MatchResult result
            (λ _. seen self.new ≡ pushed_raw (seen self.old) entry)
            (λ back. (back ≡ entry) × AppOnlySaw RefillInUse (seen self.old) (seen self.new)) }
        ensures full { IfErr result (λ _. HasWrittenRingful (seen self.old)) }
        ensures told { AppTold (λ look. tells look (app_gist (seen self.old)) (beside self.old))
            (seen self.old) (seen self.new) }
        ensures beside { beside self.new ≡ beside self.old };

    /// Gives a piece up, unread.
    fn release(&mut self, held: Held)
        requires here { IsHere (seen self.old) }
        requires out { HasHeld (seen self.old) held }
        ensures view { seen self.new ≡ released (seen self.old) held }
        ensures beside { beside self.new ≡ beside self.old };

    /// Takes a buffer to copy a short payload into: the lowest of the first word of the free list that has one, else
    /// the reserve. `None` says that no word had one, and that the reserve was seen to be held after that.
    fn spare(&mut self) -> Option<Own>
        requires here { IsHere (seen self.old) }
        requires due { MaySpare (seen self.old) }
        ensures view { MatchOption result
            (AppOnlySaw NoSpare (seen self.old) (seen self.new))
            (λ own. GotSpare (seen self.old) (seen self.new) own) }
        ensures held { IfNone result (HasUsedReserve (seen self.old)) }
        ensures lowest { IfSome result
            (λ own. finds own.buffer (app_gist (seen self.old)) (beside self.old)) }
        ensures told { AppTold (λ look. tells look (app_gist (seen self.old)) (beside self.old))
            (seen self.old) (seen self.new) }
        ensures beside { beside self.new ≡ beside self.old };

    /// Stores a short payload at the begin of a spare.
    fn fill(&mut self, own: &mut Own, bytes: &[u8])
        requires here { IsHere (seen self.old) }
        requires out { HasSpare (seen self.old) own.old }
        requires empty { own.old.start ≡ 0 }
        requires some { 0 < length bytes.now }
        requires few { length bytes.now ≤ 256 }
        ensures own { own.new ≡ filled_by own.old (length bytes.now) }
        ensures view { seen self.new ≡ filled (seen self.old) own.old bytes.now }
        ensures beside { beside self.new ≡ beside self.old };

    /// Lends a filled spare.
    fn lend_own(&mut self, own: Own) -> Loan
        requires here { IsHere (seen self.old) }
        requires out { HasSpare (seen self.old) own }
        requires can { CanLend (seen self.old) }
        requires filled { IsFilled (seen self.old) own }
        ensures place { result ≡ begin_place own.buffer (length (own_bytes (seen self.old) own)) }
        ensures view { seen self.new ≡ lent_own (seen self.old) own }
        ensures beside { beside self.new ≡ beside self.old };

    /// Gives a loan up without an entry: its references stay until `scrub`.
    fn abandon(&mut self, loan: Loan)
        requires here { IsHere (seen self.old) }
        requires out { HasLoan (seen self.old) loan }
        ensures view { seen self.new ≡ abandoned (seen self.old) loan }
        ensures beside { beside self.new ≡ beside self.old };

    /// Whether each refill slot is free: `false` says that one was seen in use.
    fn quiet(&mut self) -> bool
        requires here { IsHere (seen self.old) }
        ensures view { MatchBool result
            (seen self.new ≡ fell_quiet (seen self.old))
            (AppOnlySaw NotQuiet (seen self.old) (seen self.new)) }
        ensures some { result ≡ false → HasWritten (seen self.old) }
        ensures told { AppTold (λ look. tells look (app_gist (seen self.old)) (beside self.old))
            (seen self.old) (seen self.new) }
        ensures beside { beside self.new ≡ beside self.old };

    /// Takes back all references that this application still owes, as the kernel does when a queue goes down.
    fn scrub(&mut self)
        requires here { IsHere (seen self.old) }
        requires can { CanScrub (seen self.old) }
        ensures view { seen self.new ≡ scrubbed (seen self.old) }
        ensures beside { beside self.new ≡ beside self.old };

    /// Leaves the board.
    fn leave(&mut self)
        requires here { IsHere (seen self.old) }
        requires can { CanLeave (seen self.old) }
        ensures view { seen self.new ≡ left_board (seen self.old) }
        ensures beside { beside self.new ≡ beside self.old };
}
