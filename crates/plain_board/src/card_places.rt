ghost use Rattle.std.specs.Prelude.{◌≡◌, ◌+◌, ◌<◌, ◌≤◌, length};
ghost use Rattle.board_face.specs.{NicCalls.{IsOpen, HasOwn}, NicEvents.{placed}, Sides.{nic_at}, Tokens.{filled_by, next_place}};
ghost use Rattle.plain_board.specs.OneSide.{OnlyCard};

use crate::contents::Contents;
use board_face::{Filling, Own, Piece};
use board_parts::{filled_up, filling_of, raise, store};
use std::marker::Brand;
use zr_kinds::Place;

impl Contents {
    /// Stores a text where the buffer's next bytes go.
    pub(crate) fn place(&mut self, own: &mut Own, bytes: &[u8]) -> Piece
        requires open { IsOpen self.old.nic.view }
        requires out { HasOwn self.old.nic.view own.old }
        requires some { 0 < length bytes.now }
        requires fits { own.old.start + length bytes.now ≤ own.old.size }
        ensures piece { result ≡ next_place own.old (length bytes.now) }
        ensures own { own.new ≡ filled_by own.old (length bytes.now) }
        ensures view { self.new.nic
            ≡ nic_at self.old.nic (placed self.old.nic.view own.old bytes.now) }
        ensures only { OnlyCard self.old self.new }
    {
        let filling = filling_of(own);
        let place = Place {
            buffer: filling.buffer,
            offset: filling.start,
            len: bytes.len() as u32,
        };
        let at = self.layout.byte_of(&place) as usize;
        store(&mut self.area, at, bytes);
        raise(&mut self.pool, place.buffer as usize);
        let nic = &mut self.nic;
        nic.note::<Brand, (Filling, &[u8])>((filling, bytes));
        *own = filled_up(own, place.len);
        Piece::new(place)
    }
}
