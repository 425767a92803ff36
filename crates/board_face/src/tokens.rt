ghost use Rattle.std.specs.Prelude.{◌≡◌};
ghost use Rattle.board_face.specs.Tokens.{FitsBuffer, filling};

use std::marker::Model;
use zr_kinds::Place;

/// A buffer for filling. It names one holding of the face that gave it, and keeps that holding's reference even when it
/// is lost.
#[derive(Debug, Drop)]
pub struct Own {
    buffer: u32,
    start: u32,
    size: u32,
}

impl Model for Own {
    ghost use Rattle.board_face.specs.{Tokens.{FitsBuffer, filling}, declared.views.parts.Filling.{Filling}};

    ghost Value = { Filling };

    ghost view = { λ o. filling o.buffer o.start o.size };

    ghost invariant = { λ o. FitsBuffer (filling o.buffer o.start o.size) };
}

impl Own {
    /// For boards: the token of a buffer of `size` bytes that is filled up to `start`.
    pub fn new(buffer: u32, start: u32, size: u32) -> Own
        requires { FitsBuffer (filling buffer start size) }
        ensures { result ≡ filling buffer start size }
    {
        Own {
            buffer,
            start,
            size,
        }
    }

    /// The buffer's number.
    pub fn buffer(&self) -> u32
        ensures { result ≡ self.now.buffer }
    {
        self.buffer
    }

    /// Where the next bytes go: the next multiple of 64 after what is used.
    pub fn start(&self) -> u32
        ensures value { result ≡ self.now.start }
        ensures fits { FitsBuffer self.now }
    {
        self.start
    }

    /// How many bytes the buffer has.
    pub fn size(&self) -> u32
        ensures value { result ≡ self.now.size }
        ensures fits { FitsBuffer self.now }
    {
        self.size
    }
}

/// A piece of payload that was placed and not yet sent.
#[derive(Debug, Drop)]
pub struct Piece {
    place: Place,
}

impl Model for Piece {
    ghost use Rattle.zr_kinds.specs.declared.place.Place.{Place};

    ghost Value = { Place };

    ghost view = { λ p. p.place };
}

impl Piece {
    /// For boards: the token of a piece that lies there.
    pub fn new(place: Place) -> Piece
        ensures { result ≡ place }
    {
        Piece { place }
    }

    /// Where the piece lies.
    pub fn place(&self) -> Place
        ensures { result ≡ self.now }
    {
        self.place
    }
}

/// A sent piece in an application's stack.
#[derive(Debug, Drop)]
pub struct Held {
    place: Place,
}

impl Model for Held {
    ghost use Rattle.zr_kinds.specs.declared.place.Place.{Place};

    ghost Value = { Place };

    ghost view = { λ h. h.place };
}

impl Held {
    /// For boards: the token of a sent piece that lies there.
    pub fn new(place: Place) -> Held
        ensures { result ≡ place }
    {
        Held { place }
    }

    /// Where the piece lies.
    pub fn place(&self) -> Place
        ensures { result ≡ self.now }
    {
        self.place
    }
}

/// A piece that is lent to an application for reading.
#[derive(Debug, Drop)]
pub struct Loan {
    place: Place,
}

impl Model for Loan {
    ghost use Rattle.zr_kinds.specs.declared.place.Place.{Place};

    ghost Value = { Place };

    ghost view = { λ l. l.place };
}

impl Loan {
    /// For boards: the token of a loan of what lies there.
    pub fn new(place: Place) -> Loan
        ensures { result ≡ place }
    {
        Loan { place }
    }

    /// Where the lent bytes lie.
    pub fn place(&self) -> Place
        ensures { result ≡ self.now }
    {
        self.place
    }
}
