ghost use Rattle.std.specs.Prelude.{◌≤◌, IfOk, IfSome, IsErrOf};
ghost use Rattle.zr_kinds.specs.{Limits.{longest_record}, declared.fault.Fault.TheVariants.{Memory}};
ghost use Rattle.pcap_reader.specs.{Capture.{HasReadCause}, Steps.{TakesHeader, TakesBody}};

use crate::capture::Record;
use crate::filling::{fill, fill_whole};
use crate::order::ByteOrder;
use zr_io::Source;
use zr_kinds::{Fault, LONGEST_RECORD};

const HEADER_LEN: usize = 16;

/// Reads the header of the next record. `Ok(None)` is the end.
pub(crate) fn read_record<S: Source>(
    source: &mut S,
    order: ByteOrder,
) -> Result<Option<Record>, Fault>
    ensures takes { TakesHeader order (S.left source.old) (S.left source.new) result }
    ensures cause { HasReadCause (S.faults source.old) (S.faults source.new) result }
    ensures no_memory { IsErrOf result Memory → ⊥ }
    ensures most { IfOk result (λ found. IfSome found (λ one. one.captured ≤ longest_record)) }
{
    let mut header = [0; HEADER_LEN];
    let filled = fill(source, &mut header)?;
    if filled == 0 {
        return Ok(None);
    }
    if filled < HEADER_LEN {
        return Err(Fault::Cut);
    }
    let record = Record {
        captured: order.number32(&header[8..]),
        original: order.number32(&header[12..]),
    };
    if record.captured > LONGEST_RECORD {
        return Err(Fault::LongRecord);
    }
    Ok(Some(record))
}

/// Reads the bytes behind a record's header into `into`, which keeps its memory.
pub fn read_body<S: Source>(source: &mut S, captured: u32, into: &mut Vec<u8>) -> Result<(), Fault>
    ensures takes { TakesBody captured (S.left source.old) (S.left source.new)
        into.new.items result }
    ensures cause { HasReadCause (S.faults source.old) (S.faults source.new) result }
{
    // Bytes that stood there are read over.
    if into.resize(captured as usize, 0).is_err() {
        return Err(Fault::Memory);
    }
    fill_whole(source, into.as_mut_slice())
}
