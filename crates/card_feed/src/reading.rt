//! The reading of a source, record by record.

ghost use Rattle.std.specs.Prelude.{◌≡◌, ◌≢◌, ℕ, ◌≤◌, List, length, true, false, IfOk, OnOk, IfSome};
ghost use Rattle.zr_kinds.specs.Limits.{longest_record};
ghost use Rattle.card_feed.specs.{Offered.{WantsRoom}, Coming.{ComesTo, NextGives, OpenGives, Arrives, HasItsBytes, TookBytes, is_over, is_open}, declared.arrived.Arrived.TheVariants.{Nothing}};

use crate::arrived::Arrived;
use crate::intake::Stage;
use pcap_reader::Record;
use pcapng_reader::AnyCapture;
use std::alloc::Global;
use zr_io::Source;
use zr_kinds::Fault;

/// Reads the file header or the first section header, if it wasn't read.
fn open<S: Source>(stage: &mut Stage, alloc: Global, source: &mut S) -> Result<(), Fault>
    requires goes { is_over stage.old ≡ false }
    ensures opens { (split : ℕ) (first : S) (ports : List ℕ) (frames : List (List ℕ))
        → ComesTo (WantsRoom split ports) S.left S.faults first source.old ports stage.old frames
        → OpenGives (WantsRoom split ports) S.left S.faults first source.new ports stage.new frames
        result }
    ensures open { OnOk result (is_open stage.new ≡ true) }
    ensures on { is_over stage.new ≡ false }
    ensures further { TookBytes (S.left source.old) (S.left source.new) }
    ensures later { S.faults source.old ≤ S.faults source.new }
{
    if let Stage::Unopened = stage {
        *stage = Stage::Open(AnyCapture::open(alloc, source)?);
    }
    Ok(())
}

/// Reads the next record, behind that header, if there is one.
fn next_record<S: Source>(
    stage: &mut Stage,
    source: &mut S,
    into: &mut Vec<u8>,
) -> Result<Option<Record>, Fault>
    requires open { is_open stage.old ≡ true }
    ensures reads { (split : ℕ) (first : S) (ports : List ℕ) (frames : List (List ℕ))
        → ComesTo (WantsRoom split ports) S.left S.faults first source.old ports stage.old frames
        → NextGives (WantsRoom split ports) S.left S.faults first source.new ports stage.new frames
        into.new.items result }
    ensures bytes { IfOk result
        (λ found. IfSome found (λ one. (length into.new.items ≡ one.captured)
        × (one.captured ≤ longest_record))) }
    ensures on { is_over stage.new ≡ false }
    ensures further { TookBytes (S.left source.old) (S.left source.new) }
    ensures later { S.faults source.old ≤ S.faults source.new }
{
    match stage {
        Stage::Open(capture) => capture.next(source, into),
        _ => unreachable!(),
    }
}

impl Stage {
    /// Whether the reading ended.
    pub fn is_over(&self) -> bool
        ensures { result ≡ is_over self.now }
    {
        matches!(self, Stage::Over(_))
    }

    /// Reads the next record into that memory, the file header or the first section header before the first. Memory for
    /// interfaces is taken from `alloc`, of the first call. Where it answers that the reading is over, the stage is left to the
    /// caller.
    pub fn read<S: Source>(&mut self, alloc: Global, source: &mut S, into: Vec<u8>) -> Arrived
        requires goes { is_over self.old ≡ false }
        ensures reads { (split : ℕ) (first : S) (ports : List ℕ) (frames : List (List ℕ))
            → ComesTo (WantsRoom split ports) S.left S.faults first source.old ports self.old frames
            → Arrives (WantsRoom split ports) S.left S.faults first source.new ports self.new frames
            result }
        ensures there { result ≢ Nothing }
        ensures bytes { HasItsBytes result }
        ensures on { is_over self.new ≡ false }

        // What was taken of the source was taken of its front, and its count of faults never falls.
        ensures further { TookBytes (S.left source.old) (S.left source.new) }
        ensures later { S.faults source.old ≤ S.faults source.new }
    {
        let mut into = into;
        match self.read_record(alloc, source, &mut into) {
            Ok(Some(record)) => Arrived::Frame(record, into),
            Ok(None) => Arrived::Over(None),
            Err(fault) => Arrived::Over(Some(fault)),
        }
    }

    fn read_record<S: Source>(
        &mut self,
        alloc: Global,
        source: &mut S,
        into: &mut Vec<u8>,
    ) -> Result<Option<Record>, Fault>
        requires goes { is_over self.old ≡ false }
        ensures reads { (split : ℕ) (first : S) (ports : List ℕ) (frames : List (List ℕ))
            → ComesTo (WantsRoom split ports) S.left S.faults first source.old ports self.old frames
            → NextGives (WantsRoom split ports) S.left S.faults first source.new ports self.new
            frames into.new.items result }
        ensures bytes { IfOk result
            (λ found. IfSome found (λ one. (length into.new.items ≡ one.captured)
            × (one.captured ≤ longest_record))) }
        ensures on { is_over self.new ≡ false }
        ensures further { TookBytes (S.left source.old) (S.left source.new) }
        ensures later { S.faults source.old ≤ S.faults source.new }
    {
        open(self, alloc, source)?;
        next_record(self, source, into)
    }
}
