ghost use Rattle.std.specs.Prelude.{◌≡◌, ◌+◌, ◌<◌, ◌≤◌, [], false, length, IfErr, MatchOption, MatchResult, MatchBool};
ghost use Rattle.area_layout.specs.Layout.{IsLayout, IsBufferSize, least_size};
ghost use Rattle.board_face.specs.{declared.views.nic.{NicView.{NicView}, NicLook.{TheVariants.{NoteInUse, NotLeft}, NicLook}}, Looks.{NicTold}, NotNow.{HasSentRingful}, Tokens.{filled_by, next_place}, Texts.{IsSplitNote, IsLinearNote}, NicEvents.{nic_gist, placed, sent, sent_linear, saw_leave, nic_ended}, NicCalls.{apps_of, free_words_of, IsOpen, HasOwn, HasPiece, HasNoToken, lost_of, sent_unsplit_bytes, NicOnlySaw, TookBuffer, SweptWord, DealtWith, Closed}};

use crate::{Entry, Own, Piece};
use zr_kinds::Note;

/// What the card does at a board. No call takes memory, and none waits for another's step.
///
/// A call changes of the view what its event says, and nothing else. Where it takes the number of an application, the
/// number is below `apps()`. After `end` only `sweep`, `entry`, `left` and the readers go on.
pub trait NicFace {
    /// What no call of this face changes, as the other roles' views on a board that this face holds.
    type Beside;

    /// What the card has done and knows.
    ghost seen: { Self → NicView };

    ghost beside: { Self → Self.Beside };

    /// What a board says of this look, by what the card knows but for its looks, and by what stands beside it: that it is
    /// so of the board before the call; or, where others step meanwhile, of some board with what the card did. Each call
    /// whose count of a look rose is told so.
    ghost tells: { NicLook → NicView → Self.Beside → Type 0 } = { λ _ _ _. Unit {0} };

    /// How many applications share the board.
    fn apps(&self) -> u32
        ensures value { result ≡ apps_of (seen self.now).setting }
        ensures some { 1 ≤ result }
        ensures few { result ≤ 8 };

    /// How many slots each ring has.
    fn places(&self) -> u32
        ensures value { result ≡ (seen self.now).setting.places }
        ensures some { 1 ≤ result }
        ensures few { result ≤ 256 };

    /// The least size of a buffer, in bytes.
    fn size(&self) -> u32
        ensures value { result ≡ least_size (seen self.now).setting.layout }
        ensures within { IsBufferSize result }
        ensures sound { IsLayout (seen self.now).setting.layout };

    /// How many words the free list has. Word `w` has the pool buffers from `64 * w` on, 64 at most.
    fn free_words(&self) -> u32
        ensures value { result ≡ free_words_of (seen self.now).setting };

    /// How many buffers are cached.
    fn cached(&self) -> u32
        ensures value { result ≡ length (seen self.now).cache }
        ensures few { result ≤ 128 };

    /// Takes the buffer that entered the cache last, as the page pool's `page_pool_alloc_netmems` does. Its pool count
    /// goes from 0 to 1.
    fn take(&mut self) -> Option<Own>
        requires open { IsOpen (seen self.old) }
        ensures view { MatchOption result
            (((seen self.old).cache ≡ []) × (seen self.new ≡ seen self.old))
            (λ own. TookBuffer (seen self.old) (seen self.new) own) }
        ensures beside { beside self.new ≡ beside self.old };

    /// Moves all buffers of a word of the free list into the cache, and answers how many.
    fn sweep(&mut self, word: u32) -> u32
        requires room { length (seen self.old).cache < 64 }
        requires word { word < free_words_of (seen self.old).setting }
        ensures view { SweptWord (seen self.old) (seen self.new) word result }
        // Buffers of swept words that are neither cached nor were taken were picked as spares, and each spare is for a
        // byte of an unsplit note.
        ensures bound { lost_of (seen self.new) ≤ sent_unsplit_bytes (seen self.new) }
        ensures told { NicTold (λ look. tells look (nic_gist (seen self.old)) (beside self.old))
            (seen self.old) (seen self.new) }
        ensures beside { beside self.new ≡ beside self.old };

    /// Deals with the next refill entry of an application.
    fn entry(&mut self, app: u32) -> Entry
        requires app { app < apps_of (seen self.old).setting }
        ensures view { DealtWith (seen self.old) (seen self.new) app result }
        ensures told { NicTold (λ look. tells look (nic_gist (seen self.old)) (beside self.old))
            (seen self.old) (seen self.new) }
        ensures beside { beside self.new ≡ beside self.old };

    /// Stores a text where the buffer's next bytes go.
    fn place(&mut self, own: &mut Own, bytes: &[u8]) -> Piece
        requires open { IsOpen (seen self.old) }
        requires out { HasOwn (seen self.old) own.old }
        requires some { 0 < length bytes.now }
        requires fits { own.old.start + length bytes.now ≤ own.old.size }
        ensures piece { result ≡ next_place own.old (length bytes.now) }
        ensures own { own.new ≡ filled_by own.old (length bytes.now) }
        ensures view { seen self.new ≡ placed (seen self.old) own.old bytes.now }
        ensures beside { beside self.new ≡ beside self.old };

    /// Sends a note with its piece. `Err` says that the next note slot was seen in use.
    fn send(&mut self, app: u32, note: Note, piece: Piece) -> Result<(), Piece>
        requires open { IsOpen (seen self.old) }
        requires app { app < apps_of (seen self.old).setting }
        requires out { HasPiece (seen self.old) piece }
        requires fields { IsSplitNote note }
        requires place { note.place ≡ piece }
        ensures view { MatchResult result
            (λ _. seen self.new ≡ sent (seen self.old) app note)
            (λ back. (back ≡ piece) × NicOnlySaw (NoteInUse app) (seen self.old) (seen self.new)) }
        ensures full { IfErr result (λ _. HasSentRingful (seen self.old) app) }
        ensures told { NicTold (λ look. tells look (nic_gist (seen self.old)) (beside self.old))
            (seen self.old) (seen self.new) }
        ensures beside { beside self.new ≡ beside self.old };

    /// Sends a note in which its bytes travel. `false` says that the next note slot was seen in use.
    fn send_linear(&mut self, app: u32, note: Note, bytes: &[u8]) -> bool
        requires open { IsOpen (seen self.old) }
        requires app { app < apps_of (seen self.old).setting }
        requires fields { IsLinearNote note }
        requires bytes { note.total ≡ length bytes.now }
        ensures view { MatchBool result
            (seen self.new ≡ sent_linear (seen self.old) app note bytes.now)
            (NicOnlySaw (NoteInUse app) (seen self.old) (seen self.new)) }
        ensures full { result ≡ false → HasSentRingful (seen self.old) app }
        ensures told { NicTold (λ look. tells look (nic_gist (seen self.old)) (beside self.old))
            (seen self.old) (seen self.new) }
        ensures beside { beside self.new ≡ beside self.old };

    /// Closes a buffer. If no reference to it is left, it is free.
    fn shut(&mut self, own: Own)
        requires open { IsOpen (seen self.old) }
        requires out { HasOwn (seen self.old) own }
        ensures view { Closed (seen self.old) (seen self.new) own }
        ensures told { NicTold (λ look. tells look (nic_gist (seen self.old)) (beside self.old))
            (seen self.old) (seen self.new) }
        ensures beside { beside self.new ≡ beside self.old };

    /// Ends: nothing is taken, placed, sent or closed any more.
    fn end(&mut self)
        requires { HasNoToken (seen self.old) }
        ensures view { seen self.new ≡ nic_ended (seen self.old) }
        ensures beside { beside self.new ≡ beside self.old };

    /// Whether an application was seen to have left.
    fn left(&mut self, app: u32) -> bool
        requires app { app < apps_of (seen self.old).setting }
        ensures view { MatchBool result
            (seen self.new ≡ saw_leave (seen self.old) app)
            (NicOnlySaw (NotLeft app) (seen self.old) (seen self.new)) }
        ensures told { NicTold (λ look. tells look (nic_gist (seen self.old)) (beside self.old))
            (seen self.old) (seen self.new) }
        ensures beside { beside self.new ≡ beside self.old };
}
