ghost use Rattle.std.specs.Prelude.{◌≡◌, ℕ, ◌+◌, ◌*◌, ◌≤◌, ◌<◌, ◌^◌, length, IfSome};
ghost use Rattle.zr_kinds.specs.Limits.{longest_payload};
ghost use Rattle.frame_headers.specs.{FrameClass.{ipv6_class, ipv6_from, is_extension}, Seen.{class_seen, segment_seen}};

use crate::bytes::bytes_at;
use crate::segment::{Addr, Seen};
use crate::tcp;
use byteorder::{BigEndian, ByteOrder};

/// The bytes of an IPv6 header (RFC 8200, 3).
const HEADER: usize = 40;

/// An extension header's length is counted in units of 8 bytes, and the first isn't counted (RFC 8200, 4).
const UNIT: usize = 8;

// The numbers of the headers that may stand before TCP.
const HOP_BY_HOP: u8 = 0;

const ROUTING: u8 = 43;

const FRAGMENT: u8 = 44;

const DESTINATION: u8 = 60;

// Whether this is the number of a header that is passed over.
fn is_passed_over(next: u8) -> bool
    ensures { result ≡ is_extension next }
{
    matches!(next, HOP_BY_HOP | ROUTING | DESTINATION)
}

// Reads what stands from `at` up to `end`, where the header before has the number of the next.
#[tactic(auto, unfolding(crate::specs::FrameClass::ipv6_from))]
fn read_next(
    frame: &[u8],
    src: Addr,
    dst: Addr,
    mut next: u8,
    mut at: usize,
    end: usize,
) -> Seen<'_>
    ghost steps: { ℕ }
    requires within { at ≤ end }
    requires bounded { end < 2 ^ 32 }
    requires enough { end < at + 8 * steps }
    ensures class { class_seen result ≡ ipv6_from steps frame.now src dst next at end }
    ensures size { IfSome (segment_seen result)
        (λ segment. length segment.payload + at + 20 ≤ end) }
{
    while is_passed_over(next) {
        if end < at + UNIT {
            return Seen::Bad;
        }
        if frame.len() < at + 2 {
            return Seen::CutShort;
        }
        let header = UNIT * (usize::from(frame[at + 1]) + 1);
        if end < at + header {
            return Seen::Bad;
        }
        next = frame[at];
        at += header;
    }
    if next == FRAGMENT {
        return Seen::Fragment;
    }
    if next != tcp::PROTOCOL {
        return Seen::Other;
    }
    tcp::read_tcp(frame, src, dst, at, end)
}

/// Reads the IPv6 packet that begins at `at`.
#[tactic(auto, unfolding(crate::specs::FrameClass::ipv6_class))]
pub fn read_ipv6(frame: &[u8], at: usize) -> Seen<'_>
    requires { at < 2 ^ 16 }
    ensures class { class_seen result ≡ ipv6_class frame.now at }
    ensures size { IfSome (segment_seen result)
        (λ segment. length segment.payload ≤ longest_payload) }
{
    if frame.len() < at + HEADER {
        return Seen::CutShort;
    }
    if frame[at] >> 4 != 6 {
        return Seen::Bad;
    }
    let payload = usize::from(BigEndian::read_u16(&frame[at + 4..]));
    let src = Addr::V6(bytes_at(frame, at + 8));
    let dst = Addr::V6(bytes_at(frame, at + 24));
    let start = at + HEADER;
    read_next(frame, src, dst, frame[at + 6], start, start + payload)
}
