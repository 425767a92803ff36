//! The desk, which gives each role's seat once and takes the seats back.
ghost use Rattle.std.specs.Prelude.{◌≡◌, [], true, IfOk};
ghost use Rattle.ref_words.specs.Seated.{no_role, card_seat_view, app_seat_view};
ghost use Rattle.word_board.specs.{Board.{new_desk}, Desk.{AreOfBoard, AreServed, took_back}};

use crate::app_seat::AppSeat;
use crate::hands::{AppHand, MOST_APPS};
use crate::kinds::{join_seats, look_served};
use crate::nic_seat::NicSeat;
use crate::rule::WordSeat;
use crate::stepper::Stepper;
use board_face::Setting;
use board_parts::Cache;
use std::alloc::{AllocError, Global};
use std::marker::Model;

/// The seat without a role: it gives each role's seat once, takes it back once the role is over, and keeps what the roles
/// did. It has the memory that the seats need, and that for the list of free buffers at the end.
#[derive(Drop)]
pub struct Desk {
    pub(crate) setting: Setting,
    pub(crate) seat: WordSeat,
    pub(crate) nic_given: bool,
    /// What each application's seat is to keep, until it is given.
    pub(crate) hands: Vec<Option<AppHand>>,
    /// The cache of the card that is back.
    pub(crate) cache: Cache,
    /// For the end: a flag for each pool buffer, none of them set.
    pub(crate) listed: Vec<bool>,
    /// Empty, with room for each pool buffer.
    pub(crate) free: Vec<u32>,
}

impl Model for Desk {
    ghost use Rattle.std.specs.Prelude.{◌≡◌, ℕ, ◌∷◌, ◌<◌, ◌≤◌, [], length, map, is_none, slice_index_or, None, IfSome, vec_capacity};
    ghost use Rattle.area_layout.specs.Layout.{pool_buffers};
    ghost use Rattle.board_face.specs.NicCalls.{apps_of};
    ghost use Rattle.word_board.specs.{Board.{TheDesk, HasDealt}, Desk.{AreOver, cache_back}, Hands.{IsNew}};

    ghost Value = { TheDesk };

    ghost view = { λ d. record {
      board = record { table = d.seat.table_id; setting = d.setting };
      given = d.nic_given ∷ map is_none d.hands.items;
      view = d.seat.me.0;
    } };

    ghost invariant = { λ d. (d.seat.id ≡ 0)
        × (d.seat.me.1 ≡ [])
        × HasDealt (d.nic_given ∷ map is_none d.hands.items) d.seat.me.0
        × (length d.hands.items ≡ apps_of d.setting)
        × ((a : ℕ) → IfSome (slice_index_or d.hands.items a None) (λ hand. IsNew d.setting hand.note hand.entry hand.raw hand.loans.items hand.filled.items))
        × AreOver d.seat.me.0
        × (d.cache.items ≡ cache_back d.seat.me.0.nics)
        × (length d.listed.items ≡ pool_buffers d.setting.layout)
        × (d.free.items ≡ [])
        × (pool_buffers d.setting.layout ≤ vec_capacity d.free) };
}

impl Desk {
    /// The desk of a board on which nothing has happened.
    pub(crate) fn new(alloc: Global, setting: Setting, seat: WordSeat) -> Result<Desk, AllocError>
        requires number { seat.id ≡ 0 }
        requires role { seat.me ≡ (no_role, []) }
        ensures { IfOk result (λ desk.
            desk ≡ new_desk (record { table = seat.table_id; setting = setting })) }
    {
        let layout = setting.layout;
        let buffers = layout.buffers();
        let mut hands = Vec::with_capacity(alloc, MOST_APPS)?;
        for _app in 0..layout.total() - buffers {
            hands.push(Some(AppHand::new(alloc, &layout)?))?;
        }
        Ok(Desk {
            setting,
            seat,
            nic_given: false,
            hands,
            cache: Cache::new(),
            listed: vec![in alloc; false; buffers as usize]?,
            free: Vec::with_capacity(alloc, buffers as usize)?,
        })
    }
}

impl<'a> NicSeat<'a> {
    /// Goes back to the desk, once the card has ended.
    pub fn back(self, desk: &mut Desk)
        requires desk { desk.old.board ≡ self.board }
        requires ended { self.side.view.ended ≡ true }
        ensures desk { desk.new ≡ took_back desk.old (card_seat_view self.entry.side) }
        ensures served { AreServed desk.new.view }
        ensures known { AreOfBoard desk.new.board.setting desk.new.view }
    {
        let NicSeat { card, hand } = self;
        let Stepper { words, seat, .. } = card;
        join_seats(words, &mut desk.seat, seat);
        desk.cache = hand.cache;
        look_served(words, &mut desk.seat);
    }
}

impl<'a> AppSeat<'a> {
    /// Goes back to the desk, once the application has left.
    pub fn back(self, desk: &mut Desk)
        requires desk { desk.old.board ≡ self.board }
        requires left { self.side.view.left ≡ true }
        ensures desk { desk.new ≡ took_back desk.old (app_seat_view self.entry.side) }
        ensures served { AreServed desk.new.view }
        ensures known { AreOfBoard desk.new.board.setting desk.new.view }
    {
        let AppSeat { app, .. } = self;
        let Stepper { words, seat, .. } = app;
        join_seats(words, &mut desk.seat, seat);
        look_served(words, &mut desk.seat);
    }
}
