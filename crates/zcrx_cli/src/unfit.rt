//! Why a line of a run's record is bad, in words.

use run_check::{Lack, Unfit};
use std::fmt;
use zr_kinds::{Event, MOST_EVENTS};

/// The words for it.
#[derive(Clone, Copy)]
pub(crate) struct Words(pub(crate) Unfit);

impl fmt::Display for Words {
    fn fmt<W: fmt::Write>(&self, f: &mut fmt::Formatter<W>) -> fmt::Result {
        match self.0 {
            Unfit::NoLine => f.write_str("it is missing, has no line feed, or more than 128 bytes"),
            Unfit::NoSetting => {
                f.write_str("it isn't the first line of a record, as 'run 64:4096 2'")
            }
            Unfit::NoEvent => f.write_str("it says no event, and neither 'end' nor 'more'"),
            Unfit::TooMany => write!(f, "there are more than {MOST_EVENTS} events"),
            Unfit::Held => f.write_str("a buffer has a holder still"),
            Unfit::Behind => f.write_str("the record ended before it"),
            Unfit::Event {
                event,
                lack: Lack::Range,
            } => out_of_range(event, f),
            Unfit::Event {
                event,
                lack: Lack::Holders,
            } => unheld(event, f),
            Unfit::Event {
                event,
                lack: Lack::Counts { pool, user },
            } => miscounted(event, pool, user, f),
        }
    }
}

/// What of an event isn't there.
fn out_of_range<W: fmt::Write>(event: Event, f: &mut fmt::Formatter<W>) -> fmt::Result {
    match event {
        Event::Take { buffer, .. } | Event::Shut { buffer, .. } => {
            write!(f, "there is no buffer {buffer}")
        }
        Event::Place { buffer, .. } => {
            write!(f, "there is no buffer {buffer}, or it has fewer bytes")
        }
        Event::Stray { app } => write!(f, "there is no application {app}"),
        Event::Honour { app, buffer, .. }
        | Event::Spare { app, buffer, .. }
        | Event::Scrub { app, buffer, .. } => {
            write!(f, "there is no application {app}, or no buffer {buffer}")
        }
        Event::Sent { app, buffer, .. }
        | Event::Held { app, buffer, .. }
        | Event::Cut { app, buffer, .. }
        | Event::Lend { app, buffer, .. }
        | Event::Back { app, buffer, .. }
        | Event::Free { app, buffer, .. }
        | Event::Own { app, buffer, .. } => write!(
            f,
            "there is no application {app}, or no buffer {buffer}, or it has fewer bytes"
        ),
    }
}

/// What an event needs of its buffer's holders.
fn unheld<W: fmt::Write>(event: Event, f: &mut fmt::Formatter<W>) -> fmt::Result {
    match event {
        Event::Take { buffer, .. } => {
            write!(f, "buffer {buffer} has a holder, or is none of the pool")
        }
        Event::Place { buffer, .. } => write!(
            f,
            "the card hasn't buffer {buffer}, or the bytes aren't apart from others, or none, or begin at no multiple of 64"
        ),
        Event::Sent { .. } => f.write_str("the card hasn't the piece"),
        Event::Held { app, .. } => write!(f, "no note of the piece was sent to application {app}"),
        Event::Cut { app, .. } => write!(
            f,
            "the piece isn't held by application {app}, or isn't cut within"
        ),
        Event::Lend { app, .. } | Event::Free { app, .. } => {
            write!(f, "the piece isn't held by application {app}")
        }
        Event::Back { app, .. } => write!(f, "the piece isn't lent by application {app}"),
        Event::Honour { app, buffer, .. } | Event::Scrub { app, buffer, .. } => {
            write!(f, "application {app} owes nothing in buffer {buffer}")
        }
        Event::Stray { app } => write!(f, "application {app} may not"),
        Event::Spare { app, buffer, .. } => write!(
            f,
            "buffer {buffer} has a holder, or is neither of the pool nor kept for application {app}"
        ),
        Event::Own { app, buffer, .. } => write!(
            f,
            "application {app} hasn't buffer {buffer} to copy into, or the bytes aren't 1 to 256"
        ),
        Event::Shut { buffer, .. } => write!(f, "the card hasn't buffer {buffer}"),
    }
}

/// The first count that an event says and that isn't this.
fn miscounted<W: fmt::Write>(
    event: Event,
    pool: u32,
    user: u32,
    f: &mut fmt::Formatter<W>,
) -> fmt::Result {
    let (told_pool, told_user) = event.counts();
    match event {
        Event::Back { .. } => {}
        _ if told_pool != pool => {
            return write!(f, "the counts don't fit: pool {pool}, told {told_pool}");
        }
        _ => {}
    }
    write!(f, "the counts don't fit: user {user}, told {told_user}")
}
