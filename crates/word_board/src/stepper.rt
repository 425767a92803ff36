//! A role's seat with the words on which it steps, and its single steps.
ghost use Rattle.std.specs.Prelude.{◌≡◌, ℕ, ◌+◌, ◌/◌, ◌^◌, ◌<◌, List, [], length};
ghost use Rattle.board_face.specs.{NicCalls.{apps_of}, declared.views.parts.Setting.{Setting}};
ghost use Rattle.ref_words.specs.{declared.view.View.{View}, Words.{table_words, phase_at}, Lines.{AreWide, HaveText}};
ghost use Rattle.word_board.specs.{Board.{TheSeat}, Steps.{MayStep, MayTake, MayGive, HasStored, HasReadLines, made_by}};

use crate::lines::{read_lines, write_lines};
use crate::rule::{After, AtHand, SharedWords, WordSeat};
use crate::steps::{Op, give_as, step_as, take_as};
use board_face::{AppSide, NicSide};
use ref_words::WordMap;
use std::marker::{Model, PhantomData};

/// A role: its side, how a seat that has no other role shows it, and what such a seat knows of it, which stays so at each step.
pub(crate) trait Role {
    type Side;

    ghost view_of: { Self.Side → View };

    ghost side_of: { View → Self.Side };

    ghost stays: { Self.Side → Self.Side → Type 0 };

    ghost knows: { Self → Setting → Self.Side → Type 0 };

    ghost back: { (side : Self.Side) → side_of (view_of side) ≡ side };

    ghost still_knows: { (role : Self) (setting : Setting) (old new : Self.Side) → stays old new → knows role setting old → knows role setting new };
}

/// The card's role.
#[derive(Drop)]
pub(crate) struct CardRole;

impl Role for CardRole {
    ghost use Rattle.std.specs.Prelude.{refl};
    ghost use Rattle.ref_words.specs.Seated.{card_seat_view};
    ghost use Rattle.word_board.specs.Board.{card_of_seat};

    type Side = NicSide;

    ghost view_of = { card_seat_view };

    ghost side_of = { card_of_seat };

    ghost stays = { λ _ _. Unit {0} };

    ghost knows = { λ _ _ _. Unit {0} };

    ghost back = { λ _. refl };

    ghost still_knows = { λ _ _ _ _ _ _. tt };
}

/// An application's role, with its number.
#[derive(Drop)]
pub(crate) struct AppRole {
    pub(crate) number: u32,
}

impl Role for AppRole {
    ghost use Rattle.std.{proofs.Common.{◌∙◌}, specs.Prelude.{◌≡◌, ◌<◌, refl}};
    ghost use Rattle.board_face.specs.NicCalls.{apps_of};
    ghost use Rattle.ref_words.specs.Seated.{app_seat_view};
    ghost use Rattle.word_board.specs.Board.{app_of_seat};

    type Side = AppSide;

    ghost view_of = { app_seat_view };

    ghost side_of = { app_of_seat };

    ghost stays = { λ old new. new.view.app ≡ old.view.app };

    ghost knows = { λ role setting side. (side.view.app ≡ role.number) × (role.number < apps_of setting) };

    ghost back = { λ _. refl };

    ghost still_knows = { λ _ _ _ _ same knows. (same ∙ knows.0, knows.1) };
}

/// A seat of the role, with the words on which it steps.
#[derive(Drop)]
pub(crate) struct Stepper<'a, R: Role + Drop> {
    pub(crate) words: &'a SharedWords,
    pub(crate) seat: WordSeat,
    pub(crate) role: R,
}

pub(crate) type CardStepper<'a> = Stepper<'a, CardRole>;

pub(crate) type AppStepper<'a> = Stepper<'a, AppRole>;

impl<'a, R: Role + Drop> Model for Stepper<'a, R> {
    ghost use Rattle.std.specs.Prelude.{◌≡◌, []};
    ghost use Rattle.word_board.specs.Board.{TheSeat};

    ghost Value = { TheSeat R.Side };

    ghost view = { λ s. record {
      board = record { table = s.words.now.table.shared.table_id; setting = s.words.now.map };
      side = R.side_of s.seat.me.0;
    } };

    ghost invariant = { λ s. (s.seat.table_id ≡ s.words.now.table.shared.table_id)
        × (s.seat.me ≡ (R.view_of (R.side_of s.seat.me.0), []))
        × R.knows s.role s.words.now.map (R.side_of s.seat.me.0) };
}

/// A step of a role's seat, which shows no other role after it.
pub(crate) struct OfRole<R: Role, N: After> {
    marker: PhantomData<(R, N)>,
}

impl<R: Role, N: After> After for OfRole<R, N> {
    ghost after = { λ n. R.view_of (R.side_of (N.after n)) };

    ghost told = { N.told };
}

/// The same of lines: the seat shows no other role while it has them, and after it.
pub(crate) struct LinesOfRole<R: Role, N: AtHand> {
    marker: PhantomData<(R, N)>,
}

impl<R: Role, N: AtHand> AtHand for LinesOfRole<R, N> {
    ghost first = { N.first };

    ghost many = { N.many };

    ghost begun = { λ lines. R.view_of (R.side_of (N.begun lines)) };

    ghost done = { λ lines. R.view_of (R.side_of (N.done lines)) };

    ghost told = { N.told };
}

impl<'a, R: Role + Drop> Stepper<'a, R> {
    pub(crate) fn new(words: &'a SharedWords, seat: WordSeat, role: R) -> Stepper<'a, R>
        requires table { seat.table_id ≡ words.now.table.shared.table_id }
        requires side { seat.me ≡ (R.view_of (R.side_of seat.me.0), []) }
        requires knows { R.knows role words.now.map (R.side_of seat.me.0) }
        ensures { result ≡ record {
          board = record { table = words.now.table.shared.table_id; setting = words.now.map };
          side = R.side_of seat.me.0;
        } }
    {
        Stepper { words, seat, role }
    }

    /// Where each word lies.
    pub(crate) fn map(&self) -> &WordMap
        ensures { result.now ≡ self.now.board.setting }
    {
        let words = self.words;
        &words.map
    }

    /// Makes a step on a word, and answers the number that it found there.
    pub(crate) fn step<N: After, X: Copy>(&mut self, word: usize, op: Op, _about: X) -> u64
        requires word { word < table_words self.old.board.setting }
        requires may { MayStep R.view_of R.stays self.old word (made_by op)
            (λ n. R.side_of (N.after n)) N.told }
        ensures event { self.new ≡ record self.old { side = R.side_of (N.after result) } }
        ensures told { N.told result }
    {
        let words = self.words;
        step_as::<OfRole<R, N>, ()>(&words.table, &mut self.seat, word, op, ())
    }

    /// Stores a text: it takes the lines in a step on a word, writes it there, and gives them back.
    pub(crate) fn store_text<N: AtHand, X: Copy>(
        &mut self,
        word: usize,
        op: Op,
        first: usize,
        bytes: &[u8],
        _about: X,
    )
        requires word { word < table_words self.old.board.setting }
        requires lines { (N.first ≡ first) × (N.many ≡ (length bytes.now + 63) / 64) }
        requires few { first < 2 ^ 32 }
        requires takes { MayTake R.view_of self.old word (made_by op) first N.many
            (λ lines. R.side_of (N.begun lines)) N.told }
        requires gives { (taken lines : List (List ℕ)) → N.told taken → HaveText lines bytes.now
            → MayGive R.view_of (record self.old { side = R.side_of (N.begun taken) }) first lines
            (R.side_of (N.done lines)) }
        requires stays { (lines : List (List ℕ))
            → R.stays self.old.side (R.side_of (N.done lines)) }
        ensures { HasStored self.old self.new bytes.now (λ lines. R.side_of (N.done lines)) }
    {
        let words = self.words;
        let table = &words.table;
        take_as::<LinesOfRole<R, N>, ()>(table, &mut self.seat, word, op, ());
        write_lines(table, &mut self.seat, first, bytes);
        give_as::<LinesOfRole<R, N>, ()>(table, &mut self.seat, words.map.phase(0), ());
    }

    /// Reads a text from this byte of its first line on: it takes the lines in a load, and gives them back as they are.
    pub(crate) fn read_text<N: AtHand, X: Copy>(
        &mut self,
        first: usize,
        skip: usize,
        into: &mut [u8],
        _about: X,
    )
        requires few { first < 2 ^ 32 }
        requires skip { skip < 64 }
        requires lines { (N.first ≡ first) × (N.many ≡ (skip + length into.old + 63) / 64) }
        requires takes { MayTake R.view_of self.old (phase_at self.old.board.setting 0) (λ n. n)
            first N.many (λ lines. R.side_of (N.begun lines)) N.told }
        requires gives { (lines : List (List ℕ)) → N.told lines → length lines ≡ N.many
            → AreWide lines
            → MayGive R.view_of (record self.old { side = R.side_of (N.begun lines) }) first lines
            (R.side_of (N.done lines)) }
        requires stays { (lines : List (List ℕ))
            → R.stays self.old.side (R.side_of (N.done lines)) }
        ensures read { HasReadLines self.old self.new skip into.new
            (λ lines. R.side_of (N.done lines))
            N.told }
        ensures many { length into.new ≡ length into.old }
    {
        let words = self.words;
        let table = &words.table;
        let word = words.map.phase(0);
        take_as::<LinesOfRole<R, N>, ()>(table, &mut self.seat, word, Op::Load, ());
        read_lines(table, &mut self.seat, first, skip, into);
        give_as::<LinesOfRole<R, N>, ()>(table, &mut self.seat, word, ());
    }
}

impl<'a> Stepper<'a, AppRole> {
    /// Which application it is.
    pub(crate) fn number(&self) -> u32
        ensures value { result ≡ self.now.side.view.app }
        ensures few { result < apps_of self.now.board.setting }
        ensures here { self.now.side.view.app < apps_of self.now.board.setting }
    {
        self.role.number
    }
}
