ghost use Rattle.pcap_reader.specs.{Capture.{HasReadCause}, Steps.{Fills, FillsWhole}};

use zr_io::Source;
use zr_kinds::Fault;

/// Reads until `into` is full or the source is at its end, and returns how many bytes that were.
pub fn fill<S: Source>(source: &mut S, into: &mut [u8]) -> Result<usize, Fault>
    ensures fills { Fills (S.left source.old) (S.left source.new) into.new result }
    ensures cause { HasReadCause (S.faults source.old) (S.faults source.new) result }
{
    let mut filled = 0;
    while filled < into.len() {
        let Ok(count) = source.read(&mut into[filled..]) else {
            return Err(Fault::Read);
        };
        if count == 0 {
            return Ok(filled);
        }
        filled += count;
    }
    Ok(filled)
}

/// Reads until `into` is full. Where the source ends before, `into` holds any bytes.
pub fn fill_whole<S: Source>(source: &mut S, into: &mut [u8]) -> Result<(), Fault>
    ensures fills { FillsWhole (S.left source.old) (S.left source.new) into.new result }
    ensures cause { HasReadCause (S.faults source.old) (S.faults source.new) result }
{
    if fill(source, into)? < into.len() {
        return Err(Fault::Cut);
    }
    Ok(())
}
