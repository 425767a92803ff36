//! An application's seat, which is the application's face of this board.
ghost use Rattle.std.specs.Prelude.{◌≡◌};
ghost use Rattle.word_board.specs.Hands.{AppKeeps};

use crate::board::WordBoard;
use crate::hands::{AppHand, slot_after};
use crate::kinds::{
    WORD_BITS, abandon_loan, cut_piece, fall_quiet, fill_text, give_entry, leave_app, lend_held,
    lend_spare, poll, push_raw, read_text, release_piece, scrub_counts, settle, take_spare,
};
use crate::stepper::AppStepper;
use board_face::{AppFace, Held, Loan, Own, Polled};
use board_parts::{filled_up, filling_of, lower, put, raise};
use std::marker::Model;
use zr_kinds::{Place, Rqe};

/// An application's seat at a board.
#[derive(Drop)]
pub struct AppSeat<'a> {
    pub(crate) app: AppStepper<'a>,
    pub(crate) hand: AppHand,
}

impl<'a> Model for AppSeat<'a> {
    ghost use Rattle.word_board.specs.{Board.{TheApp}, Hands.{AppKeeps}};

    ghost Value = { TheApp };

    ghost view = { λ s. s.app };

    ghost invariant = { λ s. AppKeeps s.app.board.setting s.app.side s.hand.note s.hand.entry s.hand.raw s.hand.loans.items s.hand.filled.items };
}

impl<'a> AppSeat<'a> {
    pub(crate) fn new(app: AppStepper<'a>, hand: AppHand) -> AppSeat<'a>
        requires { AppKeeps app.board.setting app.side hand.note hand.entry hand.raw
            hand.loans.items hand.filled.items }
        ensures { result ≡ app.entry }
    {
        AppSeat { app, hand }
    }
}

impl<'a> AppFace for AppSeat<'a> {
    type Beside = WordBoard;

    ghost seen = { λ s. s.side.view };

    ghost beside = { λ s. s.board };

    ghost use Rattle.word_board.specs.Told.{AppTells, AppFinds};

    ghost tells = { AppTells };

    ghost finds = { AppFinds };

    fn places(&self) -> u32 {
        self.app.map().places()
    }

    fn size(&self) -> u32 {
        self.app.map().layout().size()
    }

    fn reserve(&self) -> u32 {
        self.app.map().layout().buffers() + self.app.number()
    }

    fn off(&self, p: &Place) -> u64 {
        self.app.map().layout().off_of(p)
    }

    fn poll(&mut self, linear: &mut [u8; 256]) -> Polled {
        let places = self.app.map().places();
        let slot = self.hand.note;
        let polled = poll(&mut self.app, slot, linear);
        if matches!(&polled, Polled::Note(_, _) | Polled::Linear(_)) {
            self.hand.note = slot_after(slot, places);
        }
        polled
    }

    fn cut(&mut self, held: Held, at: u32) -> (Held, Held) {
        let place = held.place();
        cut_piece(&mut self.app, place, at);
        let front = Place { len: at, ..place };
        let rest = Place {
            offset: place.offset + at,
            len: place.len - at,
            ..place
        };
        (Held::new(front), Held::new(rest))
    }

    fn settle(&mut self) -> bool {
        let at_rest = settle(&mut self.app, self.hand.raw);
        if at_rest {
            self.hand.raw = None;
        }
        at_rest
    }

    fn lend(&mut self, held: Held) -> Loan {
        let place = held.place();
        lend_held(&mut self.app, place);
        raise(&mut self.hand.loans, place.buffer as usize);
        Loan::new(place)
    }

    fn read(&mut self, loan: &Loan, from: u32, into: &mut [u8]) {
        read_text(&mut self.app, loan.place(), from, into);
    }

    fn give(&mut self, loan: Loan) -> Result<(), Loan> {
        let place = loan.place();
        let entry = Rqe {
            off: self.app.map().layout().off_of(&place),
            len: place.len,
            pad: 0,
        };
        let places = self.app.map().places();
        let slot = self.hand.entry;
        if !give_entry(&mut self.app, slot, place, entry) {
            return Err(loan);
        }
        self.hand.entry = slot_after(slot, places);
        lower(&mut self.hand.loans, place.buffer as usize);
        Ok(())
    }

    fn live(&self, buffer: u32) -> bool {
        match self.hand.loans.get(buffer as usize) {
            Some(&count) => count > 0,
            None => false,
        }
    }

    fn push_raw(&mut self, entry: Rqe) -> Result<(), Rqe> {
        let places = self.app.map().places();
        let slot = self.hand.entry;
        if !push_raw(&mut self.app, slot, entry) {
            return Err(entry);
        }
        self.hand.entry = slot_after(slot, places);
        self.hand.raw = Some(slot);
        Ok(())
    }

    fn release(&mut self, held: Held) {
        let pool = self.app.map().layout().buffers();
        release_piece(&mut self.app, held.place(), pool);
    }

    fn spare(&mut self) -> Option<Own> {
        let layout = self.app.map().layout();
        let free_words = layout.buffers().div_ceil(WORD_BITS);
        let reserve = layout.buffers() + self.app.number();
        let buffer = take_spare(&mut self.app, free_words, reserve)?;
        put(&mut self.hand.filled, buffer as usize, 0);
        Some(Own::new(buffer, 0, layout.size_of(buffer)))
    }

    fn fill(&mut self, own: &mut Own, bytes: &[u8]) {
        let filling = filling_of(own);
        fill_text(&mut self.app, filling, bytes);
        let len = bytes.len() as u32;
        put(&mut self.hand.filled, filling.buffer as usize, len);
        *own = filled_up(own, len);
    }

    fn lend_own(&mut self, own: Own) -> Loan {
        let filling = filling_of(&own);
        let len = self.hand.filled[filling.buffer as usize];
        lend_spare(&mut self.app, filling);
        raise(&mut self.hand.loans, filling.buffer as usize);
        Loan::new(Place {
            buffer: filling.buffer,
            offset: 0,
            len,
        })
    }

    fn abandon(&mut self, loan: Loan) {
        let reserve = self.app.map().layout().buffers() + self.app.number();
        let place = loan.place();
        abandon_loan(&mut self.app, reserve, place);
        lower(&mut self.hand.loans, place.buffer as usize);
    }

    fn quiet(&mut self) -> bool {
        let places = self.app.map().places();
        fall_quiet(&mut self.app, places)
    }

    fn scrub(&mut self) {
        let layout = self.app.map().layout();
        scrub_counts(&mut self.app, layout.total(), layout.buffers());
    }

    fn leave(&mut self) {
        leave_app(&mut self.app);
    }
}
