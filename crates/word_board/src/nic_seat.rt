//! The card's seat, which is the card's face of this board.
ghost use Rattle.std.specs.Prelude.{◌≡◌};
ghost use Rattle.word_board.specs.{Board.{IsBoardSetting}, Hands.{NicKeeps, KnowsLeft}};

use crate::board::WordBoard;
use crate::found::{cache_found, cache_if};
use crate::hands::{NicHand, slot_after};
use crate::kinds::{
    WORD_BITS, end_card, look_left, next_entry, payload_words, place_text, send_linear, send_note,
    shut_buffer, sweep_word, take_buffer,
};
use crate::stepper::CardStepper;
use board_face::{Entry, NicFace, Own, Piece};
use board_parts::{CACHE_ROOM, filled_up, filling_of};
use std::marker::Model;
use zr_kinds::{Note, Place};

/// The card's seat at a board.
#[derive(Drop)]
pub struct NicSeat<'a> {
    pub(crate) card: CardStepper<'a>,
    pub(crate) hand: NicHand,
}

impl<'a> Model for NicSeat<'a> {
    ghost use Rattle.word_board.specs.{Board.{TheNic, IsBoardSetting}, Hands.{NicKeeps, KnowsLeft}};

    ghost Value = { TheNic };

    ghost view = { λ s. s.card };

    ghost invariant = { λ s. IsBoardSetting s.card.board.setting
        × NicKeeps s.card.board.setting s.card.side s.hand.cache.items s.hand.notes s.hand.entries
        × KnowsLeft s.card.board.setting s.card.side.view.sent s.card.side.inside.note_slots s.hand.filled.counts };
}

impl<'a> NicSeat<'a> {
    pub(crate) fn new(card: CardStepper<'a>, hand: NicHand) -> NicSeat<'a>
        requires setting { IsBoardSetting card.board.setting }
        requires keeps { NicKeeps card.board.setting card.side hand.cache.items hand.notes
            hand.entries }
        requires left { KnowsLeft card.board.setting card.side.view.sent card.side.inside.note_slots
            hand.filled.counts }
        ensures { result ≡ card.entry }
    {
        NicSeat { card, hand }
    }
}

impl<'a> NicFace for NicSeat<'a> {
    type Beside = WordBoard;

    ghost seen = { λ s. s.side.view };

    ghost beside = { λ s. s.board };

    ghost use Rattle.word_board.specs.Told.{NicTells};

    ghost tells = { NicTells };

    fn apps(&self) -> u32 {
        let layout = self.card.map().layout();
        layout.total() - layout.buffers()
    }

    fn places(&self) -> u32 {
        self.card.map().places()
    }

    fn size(&self) -> u32 {
        self.card.map().layout().size()
    }

    fn free_words(&self) -> u32 {
        self.card.map().layout().buffers().div_ceil(WORD_BITS)
    }

    fn cached(&self) -> u32 {
        self.hand.cache.len() as u32
    }

    fn take(&mut self) -> Option<Own> {
        let buffer = self.hand.cache.pop()?;
        take_buffer(&mut self.card, buffer);
        Some(Own::new(buffer, 0, self.card.map().layout().size_of(buffer)))
    }

    fn sweep(&mut self, word: u32) -> u32 {
        let found = sweep_word(&mut self.card, word);
        cache_found(&mut self.hand.cache, word, found)
    }

    fn entry(&mut self, app: u32) -> Entry {
        let layout = self.card.map().layout();
        let slot = self.hand.entries[app as usize];
        let entry = next_entry(&mut self.card, &layout, app, slot, &mut self.hand.cache);
        if !matches!(entry, Entry::Empty) {
            self.hand.entries[app as usize] = slot_after(slot, self.card.map().places());
        }
        entry
    }

    fn place(&mut self, own: &mut Own, bytes: &[u8]) -> Piece {
        let filling = filling_of(own);
        place_text(&mut self.card, filling, bytes);
        let len = bytes.len() as u32;
        *own = filled_up(own, len);
        Piece::new(Place {
            buffer: filling.buffer,
            offset: filling.start,
            len,
        })
    }

    fn send(&mut self, app: u32, note: Note, piece: Piece) -> Result<(), Piece> {
        let slot = self.hand.notes[app as usize];
        let places = self.card.map().places();
        let left = self.hand.filled.of(app, slot);
        if !send_note(&mut self.card, app, slot, note, left) {
            return Err(piece);
        }
        self.hand.filled.note(app, slot, 0);
        self.hand.notes[app as usize] = slot_after(slot, places);
        Ok(())
    }

    fn send_linear(&mut self, app: u32, note: Note, bytes: &[u8]) -> bool {
        let slot = self.hand.notes[app as usize];
        let places = self.card.map().places();
        let left = self.hand.filled.of(app, slot);
        if !send_linear(&mut self.card, app, slot, note, bytes, left) {
            return false;
        }
        let filled = payload_words(bytes.len());
        self.hand.filled.note(app, slot, filled as u8);
        self.hand.notes[app as usize] = slot_after(slot, places);
        true
    }

    fn shut(&mut self, own: Own) {
        let filling = filling_of(&own);
        let pool = self.card.map().layout().buffers();
        let room = self.hand.cache.len() < CACHE_ROOM;
        let last = shut_buffer(&mut self.card, filling, pool, room);
        cache_if(
            last && filling.buffer < pool,
            filling.buffer,
            &mut self.hand.cache,
        );
    }

    fn end(&mut self) {
        end_card(&mut self.card);
    }

    fn left(&mut self, app: u32) -> bool {
        look_left(&mut self.card, app)
    }
}
