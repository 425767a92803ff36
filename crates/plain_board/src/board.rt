ghost use Rattle.std.specs.Prelude.{◌≡◌, ◌<◌, ◌≤◌, All, IfOk};
ghost use Rattle.zr_kinds.specs.Setting.{most_events};
ghost use Rattle.area_layout.specs.Layout.{pool_buffers};
ghost use Rattle.plain_board.specs.{Board.{new_board, stand_of, sides_of}, Finish.{IsBoardOver, free_buffers_of, IsEachOnce, HasNoCounts, IsServed}, Recorded.{IsRecorded}, Sound.{IsSound}};

use crate::contents::Contents;
use crate::log::EventLog;
use crate::logged::Logged;
use crate::{PlainApp, PlainNic};
use area_layout::Layout;
use std::alloc::{AllocError, Global};
use std::marker::Model;
use zr_kinds::{Ended, Log};

/// A board for one thread: counts, rings and free buffers in plain arrays, and a log of its events. All its memory is taken
/// at opening. It stands behind a pointer, since it goes into a role's hands for each turn, and back.
///
/// Between any two calls every board is sound (`IsSound`): counts are holders, each pool buffer is free once or held, the
/// area has each text at its place, what lies in the slots is what is on its way, what was read is what was sent, and no
/// entry of a loan was a stray. And its log tells how that came about (`IsRecorded`). So says each call that gives a board:
/// `open`, `open_logged`, and `back` of a part.
#[derive(Drop)]
pub struct PlainBoard {
    pub(crate) board: Box<Logged>,
}

impl Model for PlainBoard {
    ghost use Rattle.plain_board.specs.{Board.{Board, board_of}, Recorded.{IsSoundAndRecorded}};

    ghost Value = { Board };

    ghost view = { λ b. board_of b.board.value };

    ghost invariant = { λ b. IsSoundAndRecorded (view b) };
}

impl PlainBoard {
    /// A board on which nothing has happened, each pool buffer on the free list. All its memory is taken here. It keeps no
    /// event. As every board it is sound, and its log tells of it.
    pub fn open(
        alloc: Global,
        layout: Layout,
        apps: u32,
        places: u32,
    ) -> Result<PlainBoard, AllocError>
        requires reserves { layout.reserves ≡ apps }
        requires some { 1 ≤ places }
        requires few { places ≤ 256 }
        ensures board { IfOk result (λ board. board ≡ new_board layout places 0) }
        ensures sound { IfOk result (λ board. IsSound (stand_of board)) }
        ensures log { IfOk result (λ board. IsRecorded (sides_of board) board.log) }
    {
        PlainBoard::open_logged(alloc, layout, apps, places, 0)
    }

    /// A board as `open` gives it, whose log has room for so many events.
    pub fn open_logged(
        alloc: Global,
        layout: Layout,
        apps: u32,
        places: u32,
        events: u32,
    ) -> Result<PlainBoard, AllocError>
        requires reserves { layout.reserves ≡ apps }
        requires some { 1 ≤ places }
        requires few { places ≤ 256 }
        requires room { events ≤ most_events }
        ensures board { IfOk result (λ board. board ≡ new_board layout places events) }
        ensures sound { IfOk result (λ board. IsSound (stand_of board)) }
        ensures log { IfOk result (λ board. IsRecorded (sides_of board) board.log) }
    {
        let contents = Contents::open(alloc, layout, apps, places)?;
        let log = EventLog::open(alloc, events)?;
        let board = Box::new(alloc, Logged { contents, log })?;
        Ok(PlainBoard { board })
    }

    /// The board for the card.
    pub fn nic(self) -> PlainNic
        ensures { result ≡ self }
    {
        PlainNic { board: self.board }
    }

    /// The board for an application. `app` is its number, from 0.
    pub fn app(self, app: u32) -> PlainApp
        requires { app < self.arrays.layout.reserves }
        ensures { result ≡ record { board = self; app = app } }
    {
        PlainApp {
            board: self.board,
            app,
        }
    }

    /// The events so far, and whether they are all.
    pub fn log(&self) -> &Log
        ensures events { result.now.events.items ≡ self.now.log.events }
        ensures whole { result.now.whole ≡ self.now.log.whole }
    {
        self.board.log.log()
    }

    /// Ends a board that all have left, and answers its free buffers. It takes no memory.
    pub fn finish(self) -> Ended
        requires { IsBoardOver (stand_of self) }
        ensures order { result.free.items ≡ free_buffers_of self.arrays }
        ensures once { IsEachOnce (pool_buffers self.arrays.layout) result.free.items }
        ensures counts { HasNoCounts (stand_of self) }
        ensures served { All (IsServed self.nic) self.apps }
    {
        let Logged { contents, log: _ } = Box::into_inner(self.board);
        contents.finish()
    }
}
