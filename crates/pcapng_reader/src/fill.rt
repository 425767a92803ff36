ghost use Rattle.std.specs.Prelude.{◌≡◌, ◌≤◌, length, take};
ghost use Rattle.pcap_reader.specs.Capture.{HasReadCause};
ghost use Rattle.pcapng_reader.specs.Steps.{FillsPart, Skips, TakesEnd};

use pcap_reader::{ByteOrder, fill_whole};
use zr_io::Source;
use zr_kinds::Fault;

/// How many bytes are passed over at a time.
const PIECE_LEN: usize = 256;

/// Reads the bytes from one place to another.
pub(crate) fn fill_part<S: Source>(
    source: &mut S,
    bytes: &mut [u8],
    from: usize,
    to: usize,
) -> Result<(), Fault>
    requires range { from ≤ to }
    requires within { to ≤ length bytes.old }
    ensures front { take from bytes.new ≡ take from bytes.old }
    ensures fills { FillsPart from to (S.left source.old) (S.left source.new)
        bytes.old bytes.new result }
    ensures cause { HasReadCause (S.faults source.old) (S.faults source.new) result }
{
    fill_whole(source, &mut bytes[from..to])
}

/// Passes over so many bytes.
pub(crate) fn skip<S: Source>(source: &mut S, count: u32) -> Result<(), Fault>
    ensures skips { Skips count (S.left source.old) (S.left source.new) result }
    ensures cause { HasReadCause (S.faults source.old) (S.faults source.new) result }
{
    let mut piece = [0; PIECE_LEN];
    let mut left = count as usize;
    while left > 0 {
        let len = left.min(PIECE_LEN);
        fill_whole(source, &mut piece[..len])?;
        left -= len;
    }
    Ok(())
}

/// Passes over so many bytes, and reads the total length behind them.
pub(crate) fn read_end<S: Source>(
    source: &mut S,
    order: ByteOrder,
    count: u32,
    total: u32,
) -> Result<(), Fault>
    ensures takes { TakesEnd order total count (S.left source.old) (S.left source.new) result }
    ensures cause { HasReadCause (S.faults source.old) (S.faults source.new) result }
{
    skip(source, count)?;
    let mut last = [0; 4];
    fill_whole(source, &mut last)?;
    if order.number32(&last) != total {
        return Err(Fault::BadBlock);
    }
    Ok(())
}
