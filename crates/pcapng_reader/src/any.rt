ghost use Rattle.std.specs.Prelude.{◌≡◌, ◌≤◌, None, Some, IfOk, IfSome, IsErrOf, MatchResult};
ghost use Rattle.zr_kinds.specs.{Limits.{longest_record}, declared.fault.Fault.TheVariants.{Memory}};
ghost use Rattle.zr_io.specs.Moved.{Took};
ghost use Rattle.pcap_reader.specs.Capture.{HasReadCause};
ghost use Rattle.pcapng_reader.specs.Capture.{Opens, Gives, WantsMemory};

use crate::blocks::BlockCapture;
use crate::kind::is_section_header;
use pcap_reader::{Capture, Record, fill_whole};
use std::alloc::Global;
use std::marker::Model;
use zr_io::Source;
use zr_kinds::Fault;

/// A capture of either form that is being read.
#[derive(Debug, Drop)]
pub struct AnyCapture {
    form: Form,
}

#[derive(Debug, Drop)]
pub(crate) enum Form {
    Classic(Capture),
    Blocks(BlockCapture),
}

impl Model for AnyCapture {
    ghost use Rattle.pcapng_reader.specs.{Capture.{Reading}, Forms.{reading_of_form}};

    ghost Value = { Reading };

    ghost view = { λ c. reading_of_form c.form };
}

impl AnyCapture {
    /// Reads the file header of the classic form, or the first section header, for which no memory is needed. Memory
    /// for the interfaces is taken from `alloc` later.
    pub fn open<S: Source>(alloc: Global, source: &mut S) -> Result<AnyCapture, Fault>
        ensures opens { Opens (S.left source.old) (S.left source.new) result }
        ensures cause { HasReadCause (S.faults source.old) (S.faults source.new) result }
    {
        let mut first = [0; 4];
        fill_whole(source, &mut first)?;
        if is_section_header(&first) {
            let capture = BlockCapture::open_rest(alloc, first, source)?;
            return Ok(AnyCapture {
                form: Form::Blocks(capture),
            });
        }
        let capture = Capture::open_rest(first, source)?;
        Ok(AnyCapture {
            form: Form::Classic(capture),
        })
    }

    /// Reads the next record. `into` becomes the captured bytes; where no record is answered it holds any bytes. Blocks
    /// that are no packets are passed over, of which a capture has `most_others` at most.
    pub fn next<S: Source>(
        &mut self,
        source: &mut S,
        into: &mut Vec<u8>,
    ) -> Result<Option<Record>, Fault>
        ensures gives { self.old.fault ≡ None →
            Gives self.old.going self.new.going (S.left source.old) (S.left source.new)
            into.new.items result }
        ensures cause { self.old.fault ≡ None →
            HasReadCause (S.faults source.old) (S.faults source.new) result }

        // Memory is asked for captured bytes, once their packet was judged, and for an interface.
        ensures memory { self.old.fault ≡ None → IsErrOf result Memory →
            Took (S.left source.old) (S.left source.new) (WantsMemory self.old.going) }

        // No record states more captured bytes than a record may have.
        ensures most { IfOk result (λ found. IfSome found (λ one. one.captured ≤ longest_record)) }

        // After a fault each call answers it, and reads nothing.
        ensures stopped { IfSome self.old.fault
            (λ fault. (result ≡ Err fault) × (source.new ≡ source.old)) }
        ensures kept { MatchResult result (λ _. self.new.fault ≡ self.old.fault)
            (λ fault. self.new.fault ≡ Some fault) }
    {
        match &mut self.form {
            Form::Classic(capture) => capture.next(source, into),
            Form::Blocks(capture) => capture.next(source, into),
        }
    }
}
