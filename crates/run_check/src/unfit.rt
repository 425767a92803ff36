//! Why a line isn't as in a legal run.

use zr_kinds::Event;

/// What an event lacks behind those before it.
#[derive(Clone, Copy, Debug, PartialEq, Eq)]
pub enum Lack {
    /// Its application, its buffer or its bytes aren't there.
    Range,
    /// The holders of its buffer aren't what it needs.
    Holders,
    /// It says other counts than its buffer has behind it: these are the pool count and the user count of its application, which
    /// is 0 where it says none.
    Counts { pool: u32, user: u32 },
}

/// Why no legal run has a line behind those before it.
#[derive(Clone, Copy, Debug, PartialEq, Eq)]
pub enum Unfit {
    /// There is none: no line feed comes within 129 bytes.
    NoLine,
    /// As the first line it says no setting.
    NoSetting,
    /// It says no event, and isn't the last one.
    NoEvent,
    /// It is behind as many events as a record has at most, and isn't the last one.
    TooMany,
    /// It is `end`, and a buffer has a holder.
    Held,
    /// It is behind the last one.
    Behind,
    /// Its event can't come here.
    Event { event: Event, lack: Lack },
}
