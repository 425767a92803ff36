//! A frame as bytes, and its record.
ghost use Rattle.std.specs.Prelude.{◌≡◌, ◌+◌, ◌*◌, ◌^◌, ◌<◌, ◌≤◌, [], ◌++◌, length};
ghost use Rattle.cap_make.specs.GeneratedCapture.{ipv4_header, tcp_header, record_header, generated_payload, frame_of_piece};

use crate::piece::Piece;
use arrayvec::ArrayVec;

/// The longest record: its header, the headers of its frame, and 1,100 bytes.
const LONGEST: usize = 1170;

/// How many bytes the headers of a frame have: Ethernet 14, IPv4 20, TCP 20.
const HEADERS: u16 = 54;

/// The sequence number of a flow's position 0.
const BASE: u64 = 4_294_960_000;

/// A record in the making.
pub(crate) type Block = ArrayVec<u8, LONGEST>;

/// Appends bytes.
fn put(block: &mut Block, bytes: &[u8])
    requires { length block.old.items + length bytes.now ≤ 1170 }
    ensures { block.new.items ≡ block.old.items ++ bytes.now }
{
    let _fits = block.try_extend_from_slice(bytes);
}

fn put_record_header(block: &mut Block, seconds: u32, len: u32)
    requires { length block.old.items + 16 ≤ 1170 }
    ensures { block.new.items ≡ block.old.items ++ record_header seconds len }
{
    put(block, &seconds.to_le_bytes());
    put(block, &0u32.to_le_bytes());
    put(block, &len.to_le_bytes());
    put(block, &len.to_le_bytes());
}

fn put_ipv4_header(block: &mut Block, count: u16)
    requires room { length block.old.items + 20 ≤ 1170 }
    requires few { count ≤ 1100 }
    ensures { block.new.items ≡ block.old.items ++ ipv4_header count }
{
    put(block, &[0x45, 0]);
    put(block, &(40 + count).to_be_bytes());
    put(
        block,
        &[0, 0, 0x40, 0, 0x40, 6, 0, 0, 10, 0, 0, 1, 10, 0, 0, 2],
    );
}

fn put_tcp_header(block: &mut Block, sport: u16, dport: u16, seq: u32)
    requires { length block.old.items + 20 ≤ 1170 }
    ensures { block.new.items ≡ block.old.items ++ tcp_header sport dport seq }
{
    put(block, &sport.to_be_bytes());
    put(block, &dport.to_be_bytes());
    put(block, &seq.to_be_bytes());
    put(block, &[0, 0, 0, 0, 0x50, 24, 0xff, 0xff, 0, 0, 0, 0]);
}

fn put_payload(block: &mut Block, seed: u32, piece: Piece)
    requires room { length block.old.items + piece.count ≤ 1170 }
    requires flow { piece.flow < 4 }
    requires first { piece.first < 2 ^ 42 }
    ensures { block.new.items ≡ block.old.items ++ generated_payload seed piece }
{
    let shift = 31 * u64::from(piece.flow) + u64::from(seed);
    let first = piece.first;
    for i in 0..u64::from(piece.count) {
        block.push(((first + i + shift) % 256) as u8);
    }
}

/// Makes the record of a frame that carries the piece.
pub(crate) fn put_record(block: &mut Block, seed: u32, seconds: u32, piece: Piece)
    requires empty { block.old.items ≡ [] }
    requires flow { piece.flow < 4 }
    requires first { piece.first < 2 ^ 42 }
    requires count { piece.count ≤ 1100 }
    ensures { block.new.items ≡ record_header seconds (54 + piece.count)
        ++ frame_of_piece seed piece }
{
    put_record_header(block, seconds, u32::from(HEADERS + piece.count));
    put(block, &[2, 0, 0, 0, 0, 2, 2, 0, 0, 0, 0, 1, 8, 0]);
    put_ipv4_header(block, piece.count);
    let seq = (BASE + piece.first) % (1 << 32);
    put_tcp_header(block, 40_000 + piece.flow, 9_000 + piece.flow, seq as u32);
    put_payload(block, seed, piece);
}
