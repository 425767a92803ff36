ghost use Rattle.std.specs.Prelude.{◌≡◌, ◌+◌, ◌<◌, ◌≤◌, true, false, MatchOption, IfOk};
ghost use Rattle.board_face.specs.{NicCalls.{apps_of}, Opened.{new_nic, new_app}};
ghost use Rattle.word_board.specs.Board.{new_desk, was_given, gave_role};

use crate::app_seat::AppSeat;
use crate::desk::Desk;
use crate::hands::NicHand;
use crate::kinds::{deal_role, take_app_role, take_card_role};
use crate::nic_seat::NicSeat;
use crate::opening::{opened, opened_lines};
use crate::rule::SharedWords;
use crate::stepper::{AppRole, CardRole, Stepper};
use area_layout::Layout;
use atomic_table::Table;
use board_face::Setting;
use ref_words::WordMap;
use std::alloc::{AllocError, Global};
use std::marker::Model;

/// The board for threads: counts, rings and free list in words that change in single atomic steps, and the area in lines, which a
/// seat takes by such a step. Its steps are made by the seats.
#[derive(Drop)]
pub struct WordBoard {
    pub(crate) words: SharedWords,
}

impl Model for WordBoard {
    ghost use Rattle.word_board.specs.Board.{TheBoard, IsBoardSetting};

    ghost Value = { TheBoard };

    ghost view = { λ b. record { table = b.words.table.shared.table_id; setting = b.words.map } };

    ghost invariant = { λ b. IsBoardSetting b.words.map };
}

impl WordBoard {
    /// A board on which nothing has happened, each pool buffer on the free list, and its desk. All memory is taken here.
    pub fn open(
        alloc: Global,
        layout: Layout,
        apps: u32,
        places: u32,
    ) -> Result<(WordBoard, Desk), AllocError>
        requires reserves { layout.reserves ≡ apps }
        requires some { 1 ≤ places }
        requires few { places ≤ 256 }
        ensures setting { IfOk result
            (λ r. r.0.setting ≡ record { layout = layout; places = places }) }
        ensures desk { IfOk result (λ r. r.1 ≡ new_desk r.0) }
    {
        let map = WordMap::new(layout, places);
        let words = opened(alloc, &map, layout)?;
        let lines = opened_lines(alloc, &map)?;
        ref_words::laws::opened();
        let setting = Setting { layout, places };
        let Ok((table, seat)) = Table::new(alloc, &words, lines, &setting) else {
            return Err(AllocError);
        };
        let words = SharedWords { table, map };
        let desk = Desk::new(alloc, setting, seat)?;
        Ok((WordBoard { words }, desk))
    }

    /// The card's seat. `None` says that it was given before.
    pub fn nic(&self, desk: &mut Desk) -> Option<NicSeat<'_>>
        requires { desk.old.board ≡ self.now }
        ensures given { MatchOption result
            ((was_given desk.old 0 ≡ true) × (desk.new ≡ desk.old))
            (λ seat. (was_given desk.old 0 ≡ false) × (desk.new ≡ gave_role desk.old 0)
            × (seat ≡ record { board = self.now; side = new_nic self.now.setting })) }
    {
        if desk.nic_given {
            return None;
        }
        let mut seat = deal_role(&self.words, &mut desk.seat, 0);
        desk.nic_given = true;
        take_card_role(&self.words, &mut seat);
        Some(NicSeat::new(Stepper::new(&self.words, seat, CardRole), NicHand::new()))
    }

    /// The seat of an application. `None` says that it was given before.
    pub fn app(&self, desk: &mut Desk, app: u32) -> Option<AppSeat<'_>>
        requires desk { desk.old.board ≡ self.now }
        requires app { app < apps_of self.now.setting }
        ensures given { MatchOption result
            ((was_given desk.old (1 + app) ≡ true) × (desk.new ≡ desk.old))
            (λ seat. (was_given desk.old (1 + app) ≡ false)
            × (desk.new ≡ gave_role desk.old (1 + app))
            × (seat ≡ record { board = self.now; side = new_app self.now.setting app })) }
    {
        let kept = &mut desk.hands[app as usize];
        let hand = kept.take()?;
        let mut seat = deal_role(&self.words, &mut desk.seat, 1 + app as usize);
        take_app_role(&self.words, &mut seat, app);
        Some(AppSeat::new(
            Stepper::new(&self.words, seat, AppRole { number: app }),
            hand,
        ))
    }
}
