ghost use Rattle.std.specs.Prelude.{◌≡◌};
ghost use Rattle.zr_kinds.specs.EventFields.{bytes_of_event, counts_of};

/// How many events a record of a run has at most.
pub const MOST_EVENTS: u32 = 1_000_000;

/// What happened to the holders of one buffer. `pool` is the buffer's pool count behind the event, and `user` the user
/// count of the application and the buffer. Offsets and lengths are bytes.
#[derive(Clone, Copy, Debug, PartialEq, Eq)]
pub enum Event {
    /// The card took a pool buffer.
    Take {
        buffer: u32,
        pool: u32,
    },
    /// The card placed a piece in a buffer that it has.
    Place {
        buffer: u32,
        offset: u32,
        len: u32,
        pool: u32,
    },
    /// The card sent a note of a piece.
    Sent {
        app: u32,
        buffer: u32,
        offset: u32,
        len: u32,
    },
    /// The application took the note.
    Held {
        app: u32,
        buffer: u32,
        offset: u32,
        len: u32,
    },
    /// The application cut a piece behind its first `at` bytes.
    Cut {
        app: u32,
        buffer: u32,
        offset: u32,
        len: u32,
        at: u32,
        pool: u32,
    },
    /// The application lent a piece.
    Lend {
        app: u32,
        buffer: u32,
        offset: u32,
        len: u32,
        pool: u32,
        user: u32,
    },
    /// The application gave a loan back, or abandoned it.
    Back {
        app: u32,
        buffer: u32,
        offset: u32,
        len: u32,
        user: u32,
    },
    /// The card honoured a refill entry of the application.
    Honour {
        app: u32,
        buffer: u32,
        pool: u32,
        user: u32,
    },
    /// The card passed over a refill entry of the application.
    Stray {
        app: u32,
    },
    /// The application let a piece go that it didn't lend.
    Free {
        app: u32,
        buffer: u32,
        offset: u32,
        len: u32,
        pool: u32,
    },
    /// The application took a spare buffer.
    Spare {
        app: u32,
        buffer: u32,
        pool: u32,
    },
    /// The application filled its spare buffer and lent it.
    Own {
        app: u32,
        buffer: u32,
        len: u32,
        pool: u32,
        user: u32,
    },
    /// The card shut a buffer.
    Shut {
        buffer: u32,
        pool: u32,
    },
    /// The application's loans that are owed in a buffer were taken back, all at once.
    Scrub {
        app: u32,
        buffer: u32,
        pool: u32,
        user: u32,
    },
}

impl Event {
    /// The offset and the length of the bytes that the event names, or 0.
    pub fn bytes(self) -> (u32, u32)
        ensures { result ≡ bytes_of_event self }
    {
        match self {
            Event::Place { offset, len, .. }
            | Event::Sent { offset, len, .. }
            | Event::Held { offset, len, .. }
            | Event::Cut { offset, len, .. }
            | Event::Lend { offset, len, .. }
            | Event::Back { offset, len, .. }
            | Event::Free { offset, len, .. } => (offset, len),
            Event::Own { len, .. } => (0, len),
            _ => (0, 0),
        }
    }

    /// The pool count and the user count behind the event. One that it doesn't say is 0.
    pub fn counts(self) -> (u32, u32)
        ensures { result ≡ counts_of self }
    {
        match self {
            Event::Lend { pool, user, .. }
            | Event::Honour { pool, user, .. }
            | Event::Own { pool, user, .. }
            | Event::Scrub { pool, user, .. } => (pool, user),
            Event::Take { pool, .. }
            | Event::Place { pool, .. }
            | Event::Cut { pool, .. }
            | Event::Free { pool, .. }
            | Event::Spare { pool, .. }
            | Event::Shut { pool, .. } => (pool, 0),
            Event::Back { user, .. } => (0, user),
            _ => (0, 0),
        }
    }
}

/// The events of a run, in order: all of them, or the first where the log had no room for more.
#[derive(Debug, Drop)]
pub struct Log {
    pub events: Vec<Event>,
    /// Whether these are all.
    pub whole: bool,
}
