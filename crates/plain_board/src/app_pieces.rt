ghost use Rattle.std.specs.Prelude.{◌≡◌, ◌<◌};
ghost use Rattle.board_face.specs.{AppCalls.{IsHere, HasHeld, CanLend}, AppEvents.{cut, released, lent}, Texts.{front_place, rest_place}};
ghost use Rattle.plain_board.specs.{OneSide.{OnlyView}, Stand.{side_of}};

use crate::contents::Contents;
use board_face::{Held, Loan};
use board_parts::{came_free, list_if, lower, note_at, raise, user_index};
use std::marker::Brand;
use zr_kinds::Place;

impl Contents {
    /// Cuts a piece in two behind its first `at` bytes.
    pub(crate) fn cut(&mut self, app: u32, held: Held, at: u32) -> (Held, Held)
        requires app { app < self.old.arrays.layout.reserves }
        requires here { IsHere (side_of self.old app).view }
        requires out { HasHeld (side_of self.old app).view held }
        requires front { 0 < at }
        requires rest { at < held.len }
        ensures places { (result.0 ≡ front_place held at) × (result.1 ≡ rest_place held at) }
        ensures view { (side_of self.new app).view ≡ cut (side_of self.old app).view held at }
        ensures only { OnlyView self.old self.new app }
    {
        let place = held.place();
        raise(&mut self.pool, place.buffer as usize);
        note_at::<Brand, (Place, u32)>(&mut self.apps, app as usize, (place, at));
        let front = Place { len: at, ..place };
        let rest = Place {
            offset: place.offset + at,
            len: place.len - at,
            ..place
        };
        (Held::new(front), Held::new(rest))
    }

    /// Lends a piece: its reference becomes the loan's.
    pub(crate) fn lend(&mut self, app: u32, held: Held) -> Loan
        requires app { app < self.old.arrays.layout.reserves }
        requires here { IsHere (side_of self.old app).view }
        requires out { HasHeld (side_of self.old app).view held }
        requires can { CanLend (side_of self.old app).view }
        ensures place { result ≡ held }
        ensures view { (side_of self.new app).view ≡ lent (side_of self.old app).view held }
        ensures only { OnlyView self.old self.new app }
    {
        let place = held.place();
        let user = user_index(&self.layout, app, place.buffer);
        raise(&mut self.users, user);
        raise(&mut self.loans, user);
        note_at::<Brand, Place>(&mut self.apps, app as usize, place);
        Loan::new(place)
    }

    /// Gives a piece up. A pool buffer that came to be free is listed.
    pub(crate) fn release(&mut self, app: u32, held: Held)
        requires app { app < self.old.arrays.layout.reserves }
        requires here { IsHere (side_of self.old app).view }
        requires out { HasHeld (side_of self.old app).view held }
        ensures view { (side_of self.new app).view ≡ released (side_of self.old app).view held }
        ensures only { OnlyView self.old self.new app }
    {
        let place = held.place();
        let left = lower(&mut self.pool, place.buffer as usize);
        let free = came_free(left == 0, place.buffer, &self.layout);
        list_if(free, place.buffer, &mut self.listed);
        note_at::<Brand, Place>(&mut self.apps, app as usize, place);
    }
}
