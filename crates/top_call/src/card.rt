//! What a command leaves beside its answer: the board of a run, or what a check found.

use plain_board::PlainBoard;
use run_check::Checked;
use word_board::{Desk, WordBoard};
use zr_kinds::Ended;

/// What a command left: the board of a run, once it is over, or what a check found.
#[derive(Drop)]
pub enum Card {
    /// Nothing.
    Blank,
    /// What a check found.
    Found(Checked),
    /// The board for one thread.
    Plain(PlainBoard),
    /// The board on words, and its desk with all that its roles did.
    Words(WordBoard, Desk),
}

impl Card {
    ghost use Rattle.top_call.specs.Cards.{HasFreed, HasOver};

    /// Ends the board, and answers its free buffers. It takes no memory.
    pub fn free(self) -> Ended
        requires { HasOver self }
        ensures { HasFreed self result.free.items }
    {
        match self {
            Card::Blank | Card::Found(_) => unreachable!(),
            Card::Plain(board) => board.finish(),
            Card::Words(board, desk) => board.finish(desk),
        }
    }
}
