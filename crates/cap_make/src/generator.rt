//! The capture, frame by frame.
ghost use Rattle.zr_io.specs.Moved.{AddsPiece, HasCause};
ghost use Rattle.cap_make.specs.GeneratedCapture.{generated_capture, record_of};

use crate::frame::{Block, put_record};
use crate::piece::{draw, piece_at};
use arrayvec::ArrayVec;
use zr_io::{Failed, Sink};

/// A classic capture's header: little-endian, microseconds, version 2.4, snaplen 262,144, Ethernet.
const FILE_HEADER: [u8; 24] = [
    0xd4, 0xc3, 0xb2, 0xa1, 2, 0, 4, 0, 0, 0, 0, 0, 0, 0, 0, 0, 0, 0, 4, 0, 1, 0, 0, 0,
];

/// Writes the record of frame `k`, for which `x` was drawn.
fn write_record<O: Sink>(
    block: &mut Block,
    seed: u32,
    k: u32,
    x: u32,
    out: &mut O,
) -> Result<(), Failed>
    ensures bytes { AddsPiece (O.sent out.old) (O.sent out.new) result (record_of seed k x) }
    ensures cause { HasCause (O.faults out.old) (O.faults out.new) result }
{
    block.clear();
    put_record(block, seed, k, piece_at(k, x));
    out.write_all(block.as_slice())
}

/// Writes the capture of a seed and a number of frames: its header and then the frames' records, each in one call of the
/// sink. `Failed` says that a call of the sink failed. It takes no memory.
pub fn make<O: Sink>(seed: u32, frames: u32, out: &mut O) -> Result<(), Failed>
    ensures bytes { AddsPiece (O.sent out.old) (O.sent out.new) result
        (generated_capture seed frames) }
    ensures cause { HasCause (O.faults out.old) (O.faults out.new) result }
{
    out.write_all(&FILE_HEADER)?;
    let mut block = ArrayVec::new();
    let mut x = seed;
    for k in 0..frames {
        x = draw(x);
        write_record(&mut block, seed, k, x, out)?;
    }
    Ok(())
}
