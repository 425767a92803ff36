//! The board on words, for one application, and the card at it.
ghost use Rattle.std.specs.Prelude.{◌≡◌, IfOk};
ghost use Rattle.area_layout.specs.Layout.{shape_of};
ghost use Rattle.board_face.specs.{NicCalls.{apps_of}, Opened.{new_nic, new_app}};
ghost use Rattle.face_table.specs.CardHand.{IsCardHand};
ghost use Rattle.word_board.specs.Board.{new_desk, gave_role};

use crate::card::{CardMove, Told, card_move};
use crate::step::{Step, move_of, went};
use area_layout::Layout;
use face_table::CardHand;
use std::alloc::Global;
use std::process::Abort;
use std::test::*;
use word_board::{AppSeat, Desk, NicSeat, WordBoard};

/// The card's seat, with a hand that fits it.
#[derive(Drop)]
pub struct Card<'b> {
    pub nic: NicSeat<'b>,
    pub hand: CardHand,
    ghost fits: { IsCardHand nic.side.view hand },
}

/// A board on which nothing has happened, with so many pool buffers of so many bytes, and rings of so many places; and its desk.
pub fn open(alloc: Global, buffers: u32, size: u32, places: u32) -> Result<(WordBoard, Desk), Fail>
    ensures setting { IfOk result (λ r. r.0.setting.layout ≡ shape_of buffers 1 size) }
    ensures desk { IfOk result (λ r. r.1 ≡ new_desk r.0) }
{
    if places == 0 || places > 256 {
        return Err(Fail::from("rings of too few or too many places"));
    }
    let layout = Layout::new(buffers, 1, size).ok_or("no layout")?;
    Ok(WordBoard::open(alloc, layout, 1, places)?)
}

/// Both roles of a board that was just opened.
pub fn seats<'b>(board: &'b WordBoard, desk: &mut Desk) -> Result<(Card<'b>, AppSeat<'b>), Fail>
    requires desk { desk.old ≡ new_desk board.now }
    requires one { apps_of board.now.setting ≡ 1 }
    ensures card { IfOk result
        (λ r. r.0.nic ≡ record { board = board.now; side = new_nic board.now.setting }) }
    ensures app { IfOk result
        (λ r. r.1 ≡ record { board = board.now; side = new_app board.now.setting 0 }) }
    ensures desk { IfOk result (λ _. desk.new ≡ gave_role (gave_role desk.old 0) 1) }
{
    let nic = board.nic(desk).ok_or("no seat of the card")?;
    let seat = board.app(desk, 0).ok_or("no seat of the application")?;
    let hand = CardHand::new();
    Ok((Card { nic, hand }, seat))
}

impl<'b> Card<'b> {
    /// Makes a move. Notes go to the first application.
    pub fn make(&mut self, next: CardMove<'_>) -> Told
        ensures board { self.new.nic.board ≡ self.old.nic.board }
    {
        card_move(&mut self.nic, &mut self.hand, next)
    }

    /// Makes the step of this number, if it is one of the card's: whether it is.
    pub fn makes(&mut self, rt: &impl Abort, name: &str, number: u32, step: Step<'_>) -> bool
        ensures board { self.new.nic.board ≡ self.old.nic.board }
    {
        let Some((next, wanted)) = move_of(step, 1000, number, b"") else {
            return false;
        };
        let told = self.make(next);
        went(rt, name, number, told == wanted);
        true
    }

    /// Makes these steps. Flows begin at 1,000.
    pub fn play(&mut self, rt: &impl Abort, name: &str, steps: &[Step<'_>])
        ensures board { self.new.nic.board ≡ self.old.nic.board }
    {
        let mut number = 0u32;
        for step in steps {
            number = number.wrapping_add(1);
            self.makes(rt, name, number, *step);
        }
    }
}
