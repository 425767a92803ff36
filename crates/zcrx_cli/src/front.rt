//! A source whose bytes are looked at on their way, for people to be told of them.
ghost use Rattle.std.specs.{Prelude.{◌<◌, length}, Io.{ReadsAtMost, KnownBytes.{ReadConsumes}}};
ghost use Rattle.zr_io.specs.Moved.{HasCause};

use crate::progress::Progress;
use crate::records::{LastSeen, RecordCounter};
use zr_io::{Failed, Source};

/// How many of the first bytes are kept.
const KEPT: usize = 4;

/// What was seen of the bytes that went by.
#[derive(Drop)]
struct FrontSeen<'a> {
    kept: [u8; KEPT],
    count: usize,
    records: RecordCounter,
    progress: Option<Progress<'a>>,
}

impl FrontSeen<'_> {
    fn keep(&mut self, piece: &[u8]) {
        for byte in piece.iter().take(KEPT) {
            let Some(place) = self.kept.get_mut(self.count) else {
                return;
            };
            *place = *byte;
            self.count += 1;
        }
    }

    fn look(&mut self, piece: &[u8]) {
        self.keep(piece);
        self.records.see(piece);
        if let Some(progress) = &mut self.progress {
            progress.count(piece, self.records.count());
        }
    }
}

/// Reads from a source, keeps the first bytes that it gave and where it stands, and shows how far it has come. It tells what the
/// source tells.
#[derive(Drop)]
pub(crate) struct Front<'a, S: Source> {
    source: S,
    seen: FrontSeen<'a>,
}

impl<'a, S: Source> Front<'a, S> {
    pub(crate) fn new(source: S, progress: Option<Progress<'a>>) -> Front<'a, S> {
        Front {
            source,
            seen: FrontSeen {
                kept: [0; KEPT],
                count: 0,
                records: RecordCounter::new(),
                progress,
            },
        }
    }

    /// The first bytes, up to four.
    pub(crate) fn bytes(&self) -> &[u8] {
        &self.seen.kept[..self.seen.count.min(KEPT)]
    }

    /// The record, or the block, of which bytes were read last.
    pub(crate) fn place(&self) -> Option<LastSeen> {
        self.seen.records.place()
    }

    /// Clears the line of progress.
    pub(crate) fn clear(&self) {
        if let Some(progress) = &self.seen.progress {
            progress.clear();
        }
    }
}

impl<S: Source> Source for Front<'_, S> {
    ghost left = { λ f. S.left f.source };

    ghost faults = { λ f. S.faults f.source };

    fn read(&mut self, into: &mut [u8]) -> Result<usize, Failed>
        requires { 0 < length into.old }
        ensures bound { ReadsAtMost result into.new }
        ensures bytes { ReadConsumes (S.left self.old.source) (S.left self.new.source) result
            into.new }
        ensures cause { HasCause (S.faults self.old.source) (S.faults self.new.source) result }
    {
        let read = self.source.read(into);
        if let Ok(count) = read {
            self.seen.look(&into[..count]);
        }
        read
    }
}
