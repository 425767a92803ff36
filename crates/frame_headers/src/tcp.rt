ghost use Rattle.std.specs.Prelude.{◌≡◌, ◌+◌, ◌≤◌, ◌<◌, ◌^◌, length, IfSome};
ghost use Rattle.frame_headers.specs.{FrameClass.{tcp_class}, Seen.{class_seen, segment_seen}};

use crate::segment::{Addr, Seen, Segment};
use byteorder::{BigEndian, ByteOrder};

/// The protocol number of TCP.
pub const PROTOCOL: u8 = 6;

/// The bytes of a TCP header without options (RFC 9293, 3.1).
const SHORTEST_HEADER: usize = 20;

/// Reads the TCP part that stands in `frame` from `from` up to `to`.
#[tactic(auto, unfolding(crate::specs::FrameClass::tcp_class))]
pub fn read_tcp(frame: &[u8], src: Addr, dst: Addr, from: usize, to: usize) -> Seen<'_>
    requires { from < 2 ^ 32 }
    ensures class { class_seen result ≡ tcp_class frame.now src dst from to }
    ensures size { IfSome (segment_seen result)
        (λ segment. length segment.payload + from + 20 ≤ to) }
{
    if frame.len() < to {
        return Seen::CutShort;
    }
    if to < from + SHORTEST_HEADER {
        return Seen::Bad;
    }
    let header = 4 * usize::from(frame[from + 12] >> 4);
    if header < SHORTEST_HEADER || to < from + header {
        return Seen::Bad;
    }
    Seen::Tcp(Segment {
        src,
        dst,
        sport: BigEndian::read_u16(&frame[from..]),
        dport: BigEndian::read_u16(&frame[from + 2..]),
        seq: BigEndian::read_u32(&frame[from + 4..]),
        flags: frame[from + 13],
        payload: &frame[from + header..to],
    })
}
