ghost use Rattle.std.specs.Prelude.{◌≡◌, ◌≤◌, None, Some, IfOk, IfSome, IsErrOf, MatchResult};
ghost use Rattle.zr_kinds.specs.{Limits.{longest_record}, declared.fault.Fault.TheVariants.{Memory}};
ghost use Rattle.zr_io.specs.Moved.{Took};
ghost use Rattle.pcap_reader.specs.Capture.{OpensClassic, OpensBehind, GivesClassic, HasReadCause, ClassicWantsMemory};

use crate::filling::fill_whole;
use crate::header::{order_of, read_fields};
use crate::order::ByteOrder;
use crate::record::{read_body, read_record};
use std::marker::Model;
use zr_io::Source;
use zr_kinds::Fault;

/// How long a record's frame is, in bytes.
#[derive(Clone, Copy, Debug, PartialEq, Eq)]
pub struct Record {
    /// How many of its bytes were captured.
    pub captured: u32,
    /// How many it had on the wire, as the record states it.
    pub original: u32,
}

/// A capture that is being read.
#[derive(Debug, Drop)]
pub struct Capture {
    order: ByteOrder,
    fault: Option<Fault>,
}

impl Model for Capture {
    ghost use Rattle.pcap_reader.specs.Capture.{ClassicReading};

    ghost Value = { ClassicReading };

    ghost view = { λ c. record { order = c.order; fault = c.fault } };
}

impl Capture {
    /// Reads the file header of 24 bytes, for which no memory is needed.
    pub fn open<S: Source>(source: &mut S) -> Result<Capture, Fault>
        ensures opens { OpensClassic (S.left source.old) (S.left source.new) result }
        ensures cause { HasReadCause (S.faults source.old) (S.faults source.new) result }
    {
        let mut first = [0; 4];
        fill_whole(source, &mut first)?;
        Capture::open_rest(first, source)
    }

    /// Reads the file header whose first four bytes were read before.
    pub fn open_rest<S: Source>(first: [u8; 4], source: &mut S) -> Result<Capture, Fault>
        ensures opens { OpensBehind first (S.left source.old) (S.left source.new) result }
        ensures cause { HasReadCause (S.faults source.old) (S.faults source.new) result }
    {
        let order = order_of(&first).ok_or(Fault::NotPcap)?;
        read_fields(source, order)?;
        Ok(Capture { order, fault: None })
    }

    /// Reads the next record. `into` becomes the captured bytes; after an `Err` it holds any bytes.
    pub fn next<S: Source>(
        &mut self,
        source: &mut S,
        into: &mut Vec<u8>,
    ) -> Result<Option<Record>, Fault>
        ensures gives { self.old.fault ≡ None →
            GivesClassic self.old.order (S.left source.old) (S.left source.new) into.new.items
            result }
        ensures cause { self.old.fault ≡ None →
            HasReadCause (S.faults source.old) (S.faults source.new) result }

        // Memory is asked for once a header was read and its captured length is none too long.
        ensures memory { self.old.fault ≡ None → IsErrOf result Memory →
            Took (S.left source.old) (S.left source.new) (ClassicWantsMemory self.old.order) }

        // No record states more captured bytes than a record may have.
        ensures most { IfOk result (λ found. IfSome found (λ one. one.captured ≤ longest_record)) }

        // After a fault each call answers it, and reads nothing.
        ensures stopped { IfSome self.old.fault
            (λ fault. (result ≡ Err fault) × (source.new ≡ source.old)) }
        ensures kept { MatchResult result (λ _. self.new ≡ self.old)
            (λ fault. self.new ≡ record self.old { fault = Some fault }) }
    {
        if let Some(fault) = self.fault {
            return Err(fault);
        }
        let read = read_next(source, self.order, into);
        if let Err(fault) = read {
            self.fault = Some(fault);
        }
        read
    }
}

// Reads a record's header and its captured bytes.
fn read_next<S: Source>(
    source: &mut S,
    order: ByteOrder,
    into: &mut Vec<u8>,
) -> Result<Option<Record>, Fault>
    ensures gives { GivesClassic order (S.left source.old) (S.left source.new) into.new.items
        result }
    ensures cause { HasReadCause (S.faults source.old) (S.faults source.new) result }
    ensures memory { IsErrOf result Memory →
        Took (S.left source.old) (S.left source.new) (ClassicWantsMemory order) }
    ensures most { IfOk result (λ found. IfSome found (λ one. one.captured ≤ longest_record)) }
{
    let Some(record) = read_record(source, order)? else {
        return Ok(None);
    };
    read_body(source, record.captured, into)?;
    Ok(Some(record))
}
