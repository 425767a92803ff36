ghost use Rattle.std.specs.Prelude.{◌≡◌, ◌≢◌, ℕ, ◌+◌, ◌/◌, ◌<◌, ◌≤◌, [], false, length, IfErr, MatchBool, MatchOption, MatchResult};
ghost use Rattle.board_face.specs.{declared.views.nic.NicLook.TheVariants.{NoteInUse, NotLeft}, NotNow.{HasSentRingful}, Tokens.{filled_by, next_place}, Texts.{IsSplitNote, IsLinearNote}, BoardSteps.{takes, places, sends}, NicCalls.{apps_of, free_words_of, lost_of, sent_unsplit_bytes, IsOpen, HasOwn, HasPiece, HasNoToken, NicOnlySaw, TookBuffer, SweptWord, DealtWith, Closed}, NicEvents.{word_bits, placed, sent, sent_linear, saw_leave, nic_ended}};
ghost use Rattle.board_parts.specs.Free.{listed_in};
ghost use Rattle.plain_board.specs.{Board.{stand_of, sides_of, applications_of}, Recorded.{IsRecorded}, Stand.{SameBuffers}, Sound.{IsSound}, Seen.{IsSeenByCard, IsJudged, CardSawSo}, Told.{CardTells, ShutTells, EntryTells}};

use crate::logged::Logged;
use crate::{Applications, PlainBoard};
use board_face::{Entry, NicFace, Own, Piece};
use std::marker::Model;
use zr_kinds::{Event, Note};

/// The board in the card's hands.
#[derive(Drop)]
pub struct PlainNic {
    pub(crate) board: Box<Logged>,
}

impl Model for PlainNic {
    ghost use Rattle.plain_board.specs.{Board.{Board, board_of}, Recorded.{IsSoundAndRecorded}};

    ghost Value = { Board };

    ghost view = { λ n. board_of n.board.value };

    ghost invariant = { λ n. IsSoundAndRecorded (view n) };
}

impl PlainNic {
    /// Gives the board back with all that it holds, tokens that are out included.
    pub fn back(self) -> PlainBoard
        ensures board { result ≡ self }
        ensures sound { IsSound (stand_of result) }
        ensures log { IsRecorded (sides_of result) result.log }
    {
        PlainBoard { board: self.board }
    }
}

// Beyond the face each call says by its clause `log` which events the log gained.
impl NicFace for PlainNic {
    ghost use Rattle.plain_board.specs.{Board.{applications_of}, Seen.{IsSeenByCard}};

    type Beside = Applications;

    ghost seen = { λ n. n.nic.view };

    ghost beside = { applications_of };

    ghost tells = { λ look v beside. IsSeenByCard look v beside.apps };

    fn apps(&self) -> u32 {
        let layout = &self.board.contents.layout;
        layout.total() - layout.buffers()
    }

    fn places(&self) -> u32 {
        self.board.contents.places
    }

    fn size(&self) -> u32 {
        self.board.contents.layout.size()
    }

    fn free_words(&self) -> u32 {
        self.board.contents.layout.buffers().div_ceil(64)
    }

    fn cached(&self) -> u32 {
        self.board.contents.cache.len() as u32
    }

    fn take(&mut self) -> Option<Own>
        requires open { IsOpen self.old.nic.view }
        ensures view { MatchOption result
            ((self.old.nic.view.cache ≡ []) × (self.new.nic.view ≡ self.old.nic.view))
            (λ own. TookBuffer self.old.nic.view self.new.nic.view own) }
        ensures beside { applications_of self.new ≡ applications_of self.old }
        ensures log { MatchOption result (self.new.log ≡ self.old.log)
            (λ own. CardTells (takes own.buffer) self.old self.new) }
    {
        let own = self.board.contents.take()?;
        let buffer = own.buffer();
        let pool = self.board.contents.pool_count(buffer);
        self.board.log.push(Event::Take { buffer, pool });
        Some(own)
    }

    /// Beyond the face: no buffer of the word is listed then.
    fn sweep(&mut self, word: u32) -> u32
        requires room { length self.old.nic.view.cache < 64 }
        requires word { word < free_words_of self.old.nic.view.setting }
        ensures view { SweptWord self.old.nic.view self.new.nic.view word result }
        ensures bound { lost_of self.new.nic.view ≤ sent_unsplit_bytes self.new.nic.view }
        ensures told { CardSawSo (stand_of self.old) (stand_of self.new) }
        ensures beside { applications_of self.new ≡ applications_of self.old }
        ensures emptied { (b : ℕ) → b / word_bits ≡ word
            → listed_in self.new.arrays.listed b ≡ false }
        ensures log { self.new.log ≡ self.old.log }
    {
        let count = self.board.contents.sweep(word);
        count
    }

    /// Beyond the face: an entry is judged by the user counts as they are, and a stray changes no count, no free place,
    /// no byte and no note.
    fn entry(&mut self, app: u32) -> Entry
        requires app { app < apps_of self.old.nic.view.setting }
        ensures view { DealtWith self.old.nic.view self.new.nic.view app result }
        ensures told { CardSawSo (stand_of self.old) (stand_of self.new) }
        ensures beside { applications_of self.new ≡ applications_of self.old }
        ensures stray { result ≡ Entry.Stray → SameBuffers self.old.arrays self.new.arrays }
        ensures judged { result ≢ Entry.Empty
            → IsJudged (stand_of self.old) (stand_of self.new) app }
        ensures log { EntryTells app result self.old self.new }
    {
        let (entry, returned) = self.board.contents.entry(app);
        if let Some(buffer) = returned {
            let pool = self.board.contents.pool_count(buffer);
            let user = self.board.contents.user_count(app, buffer);
            self.board.log.push(Event::Honour {
                app,
                buffer,
                pool,
                user,
            });
        } else if let Entry::Stray = entry {
            self.board.log.push(Event::Stray { app });
        }
        entry
    }

    fn place(&mut self, own: &mut Own, bytes: &[u8]) -> Piece
        requires open { IsOpen self.old.nic.view }
        requires out { HasOwn self.old.nic.view own.old }
        requires some { 0 < length bytes.now }
        requires fits { own.old.start + length bytes.now ≤ own.old.size }
        ensures piece { result ≡ next_place own.old (length bytes.now) }
        ensures own { own.new ≡ filled_by own.old (length bytes.now) }
        ensures view { self.new.nic.view ≡ placed self.old.nic.view own.old bytes.now }
        ensures beside { applications_of self.new ≡ applications_of self.old }
        ensures log { CardTells (places own.old bytes.now) self.old self.new }
    {
        let piece = self.board.contents.place(own, bytes);
        let place = piece.place();
        let pool = self.board.contents.pool_count(place.buffer);
        self.board.log.push(Event::Place {
            buffer: place.buffer,
            offset: place.offset,
            len: place.len,
            pool,
        });
        piece
    }

    fn send(&mut self, app: u32, note: Note, piece: Piece) -> Result<(), Piece>
        requires open { IsOpen self.old.nic.view }
        requires app { app < apps_of self.old.nic.view.setting }
        requires out { HasPiece self.old.nic.view piece }
        requires fields { IsSplitNote note }
        requires place { note.place ≡ piece }
        ensures view { MatchResult result
            (λ _. self.new.nic.view ≡ sent self.old.nic.view app note)
            (λ back. (back ≡ piece) × NicOnlySaw (NoteInUse app) self.old.nic.view
            self.new.nic.view) }
        ensures full { IfErr result (λ _. HasSentRingful self.old.nic.view app) }
        ensures told { CardSawSo (stand_of self.old) (stand_of self.new) }
        ensures beside { applications_of self.new ≡ applications_of self.old }
        ensures log { MatchResult result (λ _. CardTells (sends app note) self.old self.new)
            (λ _. self.new.log ≡ self.old.log) }
    {
        self.board.contents.send(app, note, piece)?;
        self.board.log.push(Event::Sent {
            app,
            buffer: note.place.buffer,
            offset: note.place.offset,
            len: note.place.len,
        });
        Ok(())
    }

    fn send_linear(&mut self, app: u32, note: Note, bytes: &[u8]) -> bool
        requires open { IsOpen self.old.nic.view }
        requires app { app < apps_of self.old.nic.view.setting }
        requires fields { IsLinearNote note }
        requires bytes { note.total ≡ length bytes.now }
        ensures view { MatchBool result
            (self.new.nic.view ≡ sent_linear self.old.nic.view app note bytes.now)
            (NicOnlySaw (NoteInUse app) self.old.nic.view self.new.nic.view) }
        ensures full { result ≡ false → HasSentRingful self.old.nic.view app }
        ensures told { CardSawSo (stand_of self.old) (stand_of self.new) }
        ensures beside { applications_of self.new ≡ applications_of self.old }
        ensures log { self.new.log ≡ self.old.log }
    {
        self.board.contents.send_linear(app, note, bytes)
    }

    fn shut(&mut self, own: Own)
        requires open { IsOpen self.old.nic.view }
        requires out { HasOwn self.old.nic.view own }
        ensures view { Closed self.old.nic.view self.new.nic.view own }
        ensures told { CardSawSo (stand_of self.old) (stand_of self.new) }
        ensures beside { applications_of self.new ≡ applications_of self.old }
        ensures log { ShutTells own self.old self.new }
    {
        let buffer = own.buffer();
        self.board.contents.shut(own);
        let pool = self.board.contents.pool_count(buffer);
        self.board.log.push(Event::Shut { buffer, pool });
    }

    fn end(&mut self)
        requires { HasNoToken self.old.nic.view }
        ensures view { self.new.nic.view ≡ nic_ended self.old.nic.view }
        ensures beside { applications_of self.new ≡ applications_of self.old }
        ensures log { self.new.log ≡ self.old.log }
    {
        self.board.contents.end();
    }

    fn left(&mut self, app: u32) -> bool
        requires app { app < apps_of self.old.nic.view.setting }
        ensures view { MatchBool result
            (self.new.nic.view ≡ saw_leave self.old.nic.view app)
            (NicOnlySaw (NotLeft app) self.old.nic.view self.new.nic.view) }
        ensures told { CardSawSo (stand_of self.old) (stand_of self.new) }
        ensures beside { applications_of self.new ≡ applications_of self.old }
        ensures log { self.new.log ≡ self.old.log }
    {
        self.board.contents.left(app)
    }
}
