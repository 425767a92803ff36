//! What the program says to people, on standard error. No clause speaks of it; where it can't be said nothing is.

use crate::records::LastSeen;
use crate::unfit::Words;
use command_words::{USAGE, what_is_wrong};
use run_check::Checked;
use std::fmt;
use std::rt::Files;
use zr_io::FileShelf;
use zr_kinds::Fault;

/// What the first bytes of standard input look like, where they are no capture's.
#[derive(Clone, Copy)]
enum FrontLook {
    Nothing,
    Gzip,
    Text,
    Unknown,
}

fn look_of(front: &[u8]) -> FrontLook {
    match front {
        [] => FrontLook::Nothing,
        [0x1f, 0x8b, ..] => FrontLook::Gzip,
        _ if front.iter().all(|byte| byte.is_ascii_graphic() || byte.is_ascii_whitespace()) => {
            FrontLook::Text
        }
        _ => FrontLook::Unknown,
    }
}

/// What the input's first bytes say of a fault, in place of what the fault says itself.
fn told_by(front: &[u8], fault: Fault) -> Option<&'static str> {
    match (fault, look_of(front)) {
        (Fault::NotPcap, FrontLook::Gzip) => {
            Some("standard input is compressed by gzip (gzip -dc FILE | zcrx ..)")
        }
        (Fault::NotPcap, FrontLook::Text) => Some("standard input is text, and no capture"),
        (Fault::Cut, FrontLook::Nothing) => Some("standard input is empty"),
        _ => None,
    }
}

/// What a status says. The input began with `front`.
#[derive(Clone, Copy)]
struct Meaning<'a> {
    fault: Fault,
    front: &'a [u8],
}

impl fmt::Display for Meaning<'_> {
    fn fmt<W: fmt::Write>(&self, f: &mut fmt::Formatter<W>) -> fmt::Result {
        match told_by(self.front, self.fault) {
            Some(text) => f.write_str(text),
            None => write!(f, "{}", self.fault),
        }
    }
}

/// What else to do about a fault of a replay whose reading ended at `place`.
fn advice(fault: Fault, place: Option<LastSeen>) -> &'static str {
    match (fault, place) {
        (Fault::Memory, _) => "; give fewer --buffers, or a smaller --size",
        (Fault::LinkType, Some(LastSeen::Block(_, Some(_)))) => {
            "; keep what came at Ethernet alone: tshark -r FILE -Y 'frame.interface_id == 0' -w OTHER, or editcap FILE OTHER and the numbers of the records to leave out"
        }
        (Fault::LinkType, _) => "; capture at one interface, not at 'any'",
        _ => "",
    }
}

/// Whether the reading stood within what the fault is of when it ended.
fn is_within(fault: Fault) -> bool {
    matches!(
        fault,
        Fault::Version | Fault::LinkType | Fault::Cut | Fault::LongRecord | Fault::BadBlock
    )
}

/// Says what a status means, of a replay or another command, where it isn't 0. The input began with `front`, and its reading
/// ended at `place`.
pub(crate) fn say_status(
    rt: &HostRuntime,
    replays: bool,
    status: u8,
    front: &[u8],
    place: Option<LastSeen>,
) {
    let Some(fault) = Fault::numbered(status) else {
        return;
    };
    let meaning = Meaning { fault, front };
    let advice = if replays { advice(fault, place) } else { "" };
    let _ = match place {
        Some(place) if is_within(fault) => {
            eprintln!(rt; "zcrx: status {status}: {meaning} (at {place}){advice}")
        }
        _ => eprintln!(rt; "zcrx: status {status}: {meaning}{advice}"),
    };
}

/// Says why a line of a record is bad, if one is.
pub(crate) fn say_unfit(rt: &HostRuntime, found: Checked) {
    if let Checked::No { line, why } = found {
        let words = Words(why);
        let _ = eprintln!(rt; "zcrx: line {line}: {words}");
    }
}

/// Says what is wrong with words without a reading, and how the program is called.
pub(crate) fn say_usage(rt: &HostRuntime, words: &[&str]) {
    if let Some(wrong) = what_is_wrong(words) {
        let _ = eprintln!(rt; "zcrx: {wrong}");
    }
    let _ = eprint!(rt; "{USAGE}");
}

/// Says that a replay that went well wrote no stream.
pub(crate) fn say_none(rt: &HostRuntime) {
    let _ = eprintln!(rt;
        "zcrx: no stream was written; a flow is one direction, and a port its destination"
    );
}

/// Says that so many frames were refused while notices stayed behind by up to `delay` loans, if they did.
pub(crate) fn say_refused(rt: &HostRuntime, delay: u32, refused: usize) {
    if delay > 0 {
        let _ = eprintln!(rt;
            "zcrx: frames refused while notices stay up to {delay} loans behind: {refused}; give more --buffers, or a smaller --forward"
        );
    }
}

/// Says which stream was lost first at each shelf that failed, and why.
pub(crate) fn say_lost<R: Files + AllocGlobal + Drop>(
    rt: &HostRuntime,
    shelves: &[FileShelf<'_, R>],
) {
    for shelf in shelves {
        if let Some(lost) = shelf.lost() {
            let _ = eprintln!(rt; "zcrx: flow-{}.bin: {}", lost.flow, lost.error);
        }
    }
}
