/// What keeps a buffer from being free: an entry of the buffer's holders. Offsets and lengths are bytes.
#[derive(Clone, Copy, Debug, PartialEq, Eq)]
pub enum Holding {
    /// The card has the buffer.
    Own,
    /// Bytes that the card placed and sent no note of.
    Piece { offset: u32, len: u32 },
    /// Bytes whose note is on its way to the application.
    Sent { app: u32, offset: u32, len: u32 },
    /// Bytes that the application has and didn't lend.
    Held { app: u32, offset: u32, len: u32 },
    /// The application has the buffer to copy bytes into it.
    Spare { app: u32 },
    /// Bytes that the application lent.
    Loan { app: u32, offset: u32, len: u32 },
    /// A loan of the application that is over, and that no refill entry gave back yet.
    Owed { app: u32 },
}
