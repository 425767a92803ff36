ghost use Rattle.std.{specs.{Prelude.{[], ◌∷◌}, Cmp.Rules.{hashing}}, proofs.Common.{rules}};
ghost use Rattle.frame_headers.specs.AddrBytes.{bytes_of_address};

use std::hash::{Hash, Hasher};

/// An IP address, with its version.
#[derive(Clone, Copy, Debug, PartialEq, Eq)]
pub enum Addr {
    /// An address of IPv4.
    V4([u8; 4]),
    /// An address of IPv6.
    V6([u8; 16]),
}

/// The bytes of the address in one write, which costs much less than a write for each.
impl Hash for Addr {
    ghost hash_input = { λ a. bytes_of_address a ∷ [] };

    ghost respects_eq = { Prim.search (hashing, rules) };

    fn hash<H: Hasher>(&self, state: &mut H) {
        match self {
            Addr::V4(bytes) => state.write(bytes),
            Addr::V6(bytes) => state.write(bytes),
        }
    }
}

/// A TCP segment: where it goes from and to, its sequence number and flags as they stand in the header, and
/// its payload, a slice of the frame.
#[derive(Clone, Copy, Debug, PartialEq, Eq)]
pub struct Segment<'a> {
    pub src: Addr,
    pub dst: Addr,
    pub sport: u16,
    pub dport: u16,
    pub seq: u32,
    /// FIN 1, SYN 2, RST 4, PSH 8, ACK 16, URG 32.
    pub flags: u8,
    pub payload: &'a [u8],
}

/// What a frame was seen to hold.
#[derive(Clone, Copy, Debug, PartialEq, Eq)]
pub enum Seen<'a> {
    /// A TCP segment, over IPv4 or IPv6.
    Tcp(Segment<'a>),
    /// Another protocol.
    Other,
    /// A part of a packet that was sent in fragments.
    Fragment,
    /// The capture ends before the headers, or before the packet that they describe.
    CutShort,
    /// A header whose version or lengths don't fit.
    Bad,
}
