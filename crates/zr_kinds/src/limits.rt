//! The limits that several crates share. Their definitions for clauses are in specs/Limits.antt.

/// How many flows a replay has at most. Flows are numbered from 0, so it is one more than the greatest number of a flow.
pub const MOST_FLOWS: u32 = 65_535;

/// How many bytes the payload of a TCP segment has at most. What stands behind an IPv6 header has at most 65,535 bytes, by its
/// length field of 16 bits (RFC 8200, 3), and 20 of them at least are the segment's header (RFC 9293, 3.1). A whole IPv4 packet
/// has at most 65,535 bytes (RFC 791, 3.1), so its payload has fewer.
pub const LONGEST_PAYLOAD: u32 = 65_515;

/// How many records of a capture are read at most. A record's number, from 1, is at most this.
pub const MOST_RECORDS: u32 = 16_777_216;

/// How many captured bytes a record has at most, as of the classic pcap writers (262,144 is their greatest length of a snapshot).
pub const LONGEST_RECORD: u32 = 262_144;
