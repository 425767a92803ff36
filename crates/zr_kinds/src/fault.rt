ghost use Rattle.std.specs.Prelude.{◌≡◌, ◌↔◌, Some};
ghost use Rattle.zr_kinds.specs.Fault.{number_of};

use crate::{LONGEST_RECORD, MOST_FLOWS, MOST_RECORDS};
use thiserror::Error;

/// What went wrong in a command. Each fault has a number, which is the status that the program ends with; 0 stands
/// for no fault. No fault has the number 12. As a text it is what the program says of its status to people.
#[derive(Clone, Copy, Debug, PartialEq, Eq, Error)]
pub enum Fault {
    /// Want of memory.
    #[error("there was no memory for all of it")]
    Memory = 1,
    /// The command's words have no reading.
    #[error("the words have no reading")]
    Usage = 2,
    /// The first four bytes are neither a magic of a classic capture nor the type of a pcapng section header.
    #[error("standard input is no pcap or pcapng capture")]
    NotPcap = 3,
    /// The major version isn't 2 in a classic capture, or isn't 1 in a section of a pcapng capture.
    #[error("the capture's major version isn't 2, or that of a pcapng section isn't 1")]
    Version = 4,
    /// The frames of a classic capture, or of the interface that a pcapng packet names, aren't Ethernet.
    #[error("the capture, or an interface of its packets, isn't of Ethernet")]
    LinkType = 5,
    /// The bytes end within a header, a frame or a block.
    #[error("the capture ends within a header, a frame or a block; what came before it was replayed")]
    Cut = 6,
    /// A record or packet block states more captured bytes than a record may have.
    #[error("a record states more than {LONGEST_RECORD} bytes, so the capture is damaged there; what came before it was replayed")]
    LongRecord = 7,
    /// The source failed.
    #[error("standard input or the system's random bytes couldn't be read")]
    Read = 8,
    /// A stream or the report couldn't be written.
    #[error("standard output or a stream couldn't be written")]
    Write = 9,
    /// A flow more than a replay can number.
    #[error("there are more than {MOST_FLOWS} flows to these ports; what came before was replayed")]
    TooManyFlows = 10,
    /// A record more than a replay can number.
    #[error("there are more than {MOST_RECORDS} records; what came before was replayed")]
    TooManyFrames = 11,
    /// A block of a pcapng capture is out of form.
    #[error("a block of the pcapng capture is out of form; what came before it was replayed")]
    BadBlock = 13,
    /// The lines of a run record aren't those of a legal run.
    #[error("the run record isn't that of a legal run")]
    BadRun = 14,
}

impl Fault {
    /// Every fault, by their numbers.
    pub const ALL: [Fault; 13] = [
        Fault::Memory,
        Fault::Usage,
        Fault::NotPcap,
        Fault::Version,
        Fault::LinkType,
        Fault::Cut,
        Fault::LongRecord,
        Fault::Read,
        Fault::Write,
        Fault::TooManyFlows,
        Fault::TooManyFrames,
        Fault::BadBlock,
        Fault::BadRun,
    ];

    /// The fault's number, from 1 on.
    pub fn number(&self) -> u8
        ensures { result ≡ number_of self.now }
    {
        *self as u8
    }

    /// The fault with a number, if one has it.
    pub fn numbered(number: u8) -> Option<Fault>
        ensures { (fault : Fault) → (result ≡ Some fault) ↔ (number_of fault ≡ number) }
    {
        Fault::ALL
            .iter()
            .find(|fault| fault.number() == number)
            .copied()
    }
}
