ghost use Rattle.std.specs.Prelude.{◌≡◌, ◌≤◌, ◌<◌, ◌^◌, length, IfSome};
ghost use Rattle.zr_kinds.specs.Limits.{longest_payload};
ghost use Rattle.frame_headers.specs.{FrameClass.{class_of, packet_class}, Seen.{class_seen, segment_seen}};

use crate::ipv4::read_ipv4;
use crate::ipv6::read_ipv6;
use crate::segment::Seen;
use byteorder::{BigEndian, ByteOrder};

/// The bytes of an Ethernet header without a tag: two addresses and the type.
const HEADER: usize = 14;

/// Where the type stands.
const TYPE_AT: usize = 12;

/// The bytes that a VLAN tag puts before the type (IEEE 802.1Q).
const TAG: usize = 4;

/// The type that says that a tag follows.
const TAGGED: u16 = 0x8100;

/// The Ethernet type of IPv4.
const IPV4: u16 = 0x0800;

/// The Ethernet type of IPv6.
const IPV6: u16 = 0x86dd;

/// Reads the headers of a captured frame: Ethernet with at most one VLAN tag, then IPv4 (RFC 791) or IPv6
/// (RFC 8200), then TCP (RFC 9293). Any bytes have an answer. Those behind the packet are padding, and no part of
/// the payload.
#[tactic(auto, unfolding(crate::specs::FrameClass::class_of))]
pub fn read_frame(frame: &[u8]) -> Seen<'_>
    ensures class { class_seen result ≡ class_of frame.now }
    // An IP packet's length is a number of two bytes, and a TCP header has at least 20.
    ensures size { IfSome (segment_seen result)
        (λ segment. length segment.payload ≤ longest_payload) }
{
    if frame.len() < HEADER {
        return Seen::CutShort;
    }
    let ether_type = BigEndian::read_u16(&frame[TYPE_AT..]);
    if ether_type != TAGGED {
        return read_packet(frame, ether_type, HEADER);
    }
    if frame.len() < HEADER + TAG {
        return Seen::CutShort;
    }
    let ether_type = BigEndian::read_u16(&frame[TYPE_AT + TAG..]);
    read_packet(frame, ether_type, HEADER + TAG)
}

// Reads the packet of this Ethernet type that begins at `at`.
#[tactic(auto, unfolding(crate::specs::FrameClass::packet_class))]
fn read_packet(frame: &[u8], ether_type: u16, at: usize) -> Seen<'_>
    requires { at < 2 ^ 16 }
    ensures class { class_seen result ≡ packet_class frame.now ether_type at }
    ensures size { IfSome (segment_seen result)
        (λ segment. length segment.payload ≤ longest_payload) }
{
    match ether_type {
        IPV4 => read_ipv4(frame, at),
        IPV6 => read_ipv6(frame, at),
        _ => Seen::Other,
    }
}
