ghost use Rattle.std.specs.Prelude.{◌≡◌, ◌+◌, ◌≤◌, ◌<◌, ◌^◌, length, IfSome};
ghost use Rattle.zr_kinds.specs.Limits.{longest_payload};
ghost use Rattle.frame_headers.specs.{FrameClass.{ipv4_class}, Seen.{class_seen, segment_seen}};

use crate::bytes::bytes_at;
use crate::segment::{Addr, Seen};
use crate::tcp;
use byteorder::{BigEndian, ByteOrder};

/// The bytes of an IPv4 header without options (RFC 791, 3.1).
const SHORTEST_HEADER: usize = 20;

/// The more-fragments bit and the fragment's offset. The bit above them says not to fragment.
const FRAGMENT: u16 = 0x3fff;

/// Reads the IPv4 packet that begins at `at`.
#[tactic(auto, unfolding(crate::specs::FrameClass::ipv4_class))]
pub fn read_ipv4(frame: &[u8], at: usize) -> Seen<'_>
    requires { at < 2 ^ 16 }
    ensures class { class_seen result ≡ ipv4_class frame.now at }
    ensures size { IfSome (segment_seen result)
        (λ segment. length segment.payload ≤ longest_payload) }
{
    if frame.len() < at + SHORTEST_HEADER {
        return Seen::CutShort;
    }
    let header = 4 * usize::from(frame[at] & 0x0f);
    let total = usize::from(BigEndian::read_u16(&frame[at + 2..]));
    if frame[at] >> 4 != 4 || header < SHORTEST_HEADER || total < header {
        return Seen::Bad;
    }
    if BigEndian::read_u16(&frame[at + 6..]) & FRAGMENT != 0 {
        return Seen::Fragment;
    }
    if frame[at + 9] != tcp::PROTOCOL {
        return Seen::Other;
    }
    let src = Addr::V4(bytes_at(frame, at + 12));
    let dst = Addr::V4(bytes_at(frame, at + 16));
    tcp::read_tcp(frame, src, dst, at + header, at + total)
}
