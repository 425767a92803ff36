ghost use Rattle.std.specs.Prelude.{◌≡◌, ℕ, ◌≤◌, List};
ghost use Rattle.ref_words.specs.{Words.{table_words}, Lines.{area_lines}, declared.view.View.{View}};

use crate::lines::Line;
use atomic_table::{Join, Play, Seat, Split, Table, TableRule};
use board_face::Setting;
use ref_words::{View, WordMap};
use std::alloc::Global;
use std::marker::{Brand, PhantomData};

/// What holds between any two steps.
pub struct WordRule;

impl TableRule<Line, View, Setting> for WordRule {
    ghost use Rattle.ref_words.specs.Seated.{no_role};
    ghost use Rattle.word_board.specs.Board.{IsBoard};

    ghost holds = { IsBoard };

    ghost first = { λ _. no_role };
}

pub(crate) type WordTable = Table<Line, View, Setting, WordRule, Global>;

pub(crate) type WordSeat = Seat<Line, View>;

/// The words and the lines of a board, and where each of them lies.
#[derive(Drop)]
pub(crate) struct SharedWords {
    pub(crate) table: WordTable,
    pub(crate) map: WordMap,
    ghost keyed: { map ≡ table.shared.key },
    ghost wide: { table_words table.shared.key ≤ table.shared.table_id.words },
    ghost lined: { table.shared.table_id.slots ≡ area_lines table.shared.key.layout },
}

/// The view of a seat after a step, and what the seat is told of it by the rule, both by the number that the step found.
/// A call passes `Brand`, and its proof picks them.
pub trait After {
    ghost after: { ℕ → View };

    ghost told: { ℕ → Type 0 };
}

impl After for Brand {
    ghost use Rattle.ref_words.specs.Seated.{no_role};

    ghost after = { λ _. no_role };

    ghost told = { λ _. Unit {0} };
}

/// A step after which the seat's view is `N.after` of what was found, and `N.told` of it holds.
pub struct Turns<N: After> {
    marker: PhantomData<N>,
}

impl<N: After> Play<Line, View> for Turns<N> {
    ghost then = { λ _ v n w. (w ≡ (N.after n, v.1)) × N.told n };
}

/// Which lines a seat takes in a step, how its view is while it has them and once it gave them back, and what the seat is told:
/// by what stood in the lines when it took them, or stands in them when it gives them back. A call passes `Brand`, and its
/// proof picks them.
pub trait AtHand {
    ghost first: { ℕ };

    ghost many: { ℕ };

    ghost begun: { List (List ℕ) → View };

    ghost done: { List (List ℕ) → View };

    ghost told: { List (List ℕ) → Type 0 };
}

impl AtHand for Brand {
    ghost use Rattle.ref_words.specs.Seated.{no_role};

    ghost first = { 0 };

    ghost many = { 0 };

    ghost begun = { λ _. no_role };

    ghost done = { λ _. no_role };

    ghost told = { λ _. Unit {0} };
}

/// A step in which the seat takes these lines.
pub struct Takes<N: AtHand> {
    marker: PhantomData<N>,
}

impl<N: AtHand> Play<Line, View> for Takes<N> {
    ghost use Rattle.word_board.specs.Lines.{TookLines};

    ghost then = { λ _ v n w. TookLines N.first N.many N.begun N.told w };
}

/// A step in which it gives all its lines back.
pub struct Gives<N: AtHand> {
    marker: PhantomData<N>,
}

impl<N: AtHand> Play<Line, View> for Gives<N> {
    ghost use Rattle.std.specs.Prelude.{[]};
    ghost use Rattle.word_board.specs.Lines.{held};

    ghost then = { λ _ v n w. w ≡ (N.done (held v), []) };
}

/// Which role is dealt out.
pub trait Deals {
    ghost role: { ℕ };
}

impl Deals for Brand {
    ghost role = { 0 };
}

/// The desk deals a role out to a new seat.
pub struct Deal<N: Deals> {
    marker: PhantomData<N>,
}

impl<N: Deals> Split<View> for Deal<N> {
    ghost use Rattle.ref_words.specs.Seated.{dealt_out, due_view};

    ghost left = { dealt_out N.role };

    ghost right = { λ _. due_view N.role };
}

/// A seat goes back: its sides stand behind the desk's.
pub struct Together;

impl Join<View> for Together {
    ghost use Rattle.ref_words.specs.Seated.{no_role, both_sides};

    ghost both = { both_sides };

    ghost spent = { no_role };
}
