use frame_headers::{Addr, Seen, Segment, read_frame};
use std::process::Abort;

/// A segment from 10.0.0.1, port 40000, to 10.0.0.2, port 9000, that carries `hello`.
const HELLO: [u8; 59] = [
    0x02, 0, 0, 0, 0, 0x02, 0x02, 0, 0, 0, 0, 0x01, 0x08, 0x00, 0x45, 0, 0, 0x2d, 0, 0, 0x40, 0,
    0x40, 0x06, 0, 0, 10, 0, 0, 1, 10, 0, 0, 2, 0x9c, 0x40, 0x23, 0x28, 0, 0, 0x03, 0xe9, 0, 0, 0,
    0, 0x50, 0x18, 0xff, 0xff, 0, 0, 0, 0, 0x68, 0x65, 0x6c, 0x6c, 0x6f,
];

/// Ethernet and IPv6 before a payload of 25 bytes, from 2001:db8::1 to 2001:db8::2. The next header is TCP.
const IPV6: [u8; 54] = [
    0x02, 0, 0, 0, 0, 0x02, 0x02, 0, 0, 0, 0, 0x01, 0x86, 0xdd, 0x60, 0, 0, 0, 0, 25, 6, 0x40,
    0x20, 0x01, 0x0d, 0xb8, 0, 0, 0, 0, 0, 0, 0, 0, 0, 0, 0, 1, 0x20, 0x01, 0x0d, 0xb8, 0, 0, 0, 0,
    0, 0, 0, 0, 0, 0, 0, 2,
];

/// A VLAN tag with its type.
const TAG: [u8; 4] = [0x81, 0x00, 0x00, 0x05];

/// Where a frame over IPv6 has the payload's length, in two bytes, and the number of the next header.
const PAYLOAD_LEN_AT: usize = 19;

const NEXT_AT: usize = 20;

// The segment between these two, with this payload.
fn segment(src: Addr, dst: Addr, payload: &[u8]) -> Seen<'_> {
    Seen::Tcp(Segment {
        src,
        dst,
        sport: 40000,
        dport: 9000,
        seq: 1001,
        flags: 24,
        payload,
    })
}

fn over_ipv4(payload: &[u8]) -> Seen<'_> {
    segment(Addr::V4([10, 0, 0, 1]), Addr::V4([10, 0, 0, 2]), payload)
}

fn over_ipv6(payload: &[u8]) -> Seen<'_> {
    let src = [0x20, 0x01, 0x0d, 0xb8, 0, 0, 0, 0, 0, 0, 0, 0, 0, 0, 0, 1];
    let dst = [0x20, 0x01, 0x0d, 0xb8, 0, 0, 0, 0, 0, 0, 0, 0, 0, 0, 0, 2];
    segment(Addr::V6(src), Addr::V6(dst), payload)
}

fn expect_seen(rt: &impl Abort, frame: &[u8], wanted: Seen, at: usize) {
    assert!(rt; read_frame(frame) == wanted, "row {at}");
}

/// `HELLO` with this pair of bytes at each place is seen as what stands beside it.
fn expect_pairs(rt: &impl Abort, rows: &[(usize, [u8; 2], Seen)]) {
    for (row, (at, pair, wanted)) in rows.iter().enumerate() {
        assert!(rt; *at < 58);
        let mut frame = HELLO;
        frame[*at] = pair[0];
        frame[*at + 1] = pair[1];
        expect_seen(rt, &frame, *wanted, row);
    }
}

/// A frame of these parts, one behind the other, is seen as what stands beside them.
fn expect_parts(rt: &(impl Abort + AllocGlobal), rows: &[(&[&[u8]], Seen)]) {
    for (row, (parts, wanted)) in rows.iter().enumerate() {
        let frame = parts.concat(rt.alloc()).expect(rt, "memory");
        expect_seen(rt, &frame, *wanted, row);
    }
}

/// A frame over IPv6 with this length of the payload, this number of the next header, and these headers before that of TCP.
fn expect_headers(rt: &(impl Abort + AllocGlobal), rows: &[(u8, u8, &[u8], Seen)]) {
    for (row, (len, next, headers, wanted)) in rows.iter().enumerate() {
        let mut begin = IPV6;
        begin[PAYLOAD_LEN_AT] = *len;
        begin[NEXT_AT] = *next;
        let parts: [&[u8]; 3] = [&begin, headers, &HELLO[34..]];
        let frame = parts.concat(rt.alloc()).expect(rt, "memory");
        expect_seen(rt, &frame, *wanted, row);
    }
}

#[test]
fn bytes_behind_the_packet_are_padding(rt: HostRuntime) {
    expect_parts(
        &rt,
        &[
            (&[&HELLO], over_ipv4(b"hello")),
            (&[&HELLO, &[0, 0, 0, 0]], over_ipv4(b"hello")),
        ],
    );
}

#[test]
fn a_part_of_a_frame_is_cut_short(rt: HostRuntime) {
    expect_parts(
        &rt,
        &[
            (&[], Seen::CutShort),
            (&[&HELLO[..13]], Seen::CutShort),
            (&[&HELLO[..33]], Seen::CutShort),
            (&[&HELLO[..58]], Seen::CutShort),
        ],
    );
}

#[test]
fn one_tag_is_passed_over(rt: HostRuntime) {
    let (stations, packet) = HELLO.split_at(12);
    expect_parts(
        &rt,
        &[
            (&[stations, &TAG, &TAG, packet], Seen::Other),
            (&[stations, &TAG, &[0x81]], Seen::CutShort),
            (&[stations, &TAG, packet, b"ello"], over_ipv4(b"hello")),
        ],
    );
}

#[test]
fn lengths_that_do_not_fit_are_bad(rt: HostRuntime) {
    expect_pairs(
        &rt,
        &[
            (14, [0x55, 0x00], Seen::Bad),
            (14, [0x44, 0x00], Seen::Bad),
            (16, [0x00, 0x00], Seen::Bad),
            (16, [0x00, 0x13], Seen::Bad),
            (16, [0x00, 0x27], Seen::Bad),
            (16, [0x00, 0x28], over_ipv4(b"")),
            (46, [0x40, 0x18], Seen::Bad),
            (46, [0x60, 0x18], over_ipv4(b"o")),
            (46, [0x70, 0x18], Seen::Bad),
        ],
    );
}

#[test]
fn fragments_and_other_protocols_are_told_apart(rt: HostRuntime) {
    expect_pairs(
        &rt,
        &[
            (12, [0x08, 0x06], Seen::Other),
            (20, [0x20, 0x00], Seen::Fragment),
            (20, [0x00, 0x01], Seen::Fragment),
            (23, [0x11, 0x00], Seen::Other),
        ],
    );
}

#[test]
fn a_segment_over_ipv6_is_read(rt: HostRuntime) {
    expect_parts(
        &rt,
        &[
            (&[&IPV6, &HELLO[34..]], over_ipv6(b"hello")),
            (&[&IPV6[..53]], Seen::CutShort),
            (&[&IPV6, &HELLO[34..58]], Seen::CutShort),
        ],
    );
}

#[test]
fn extension_headers_are_passed_over(rt: HostRuntime) {
    expect_headers(
        &rt,
        &[
            // Hop-by-hop options of 8 bytes, then a routing header of 8.
            (
                41,
                0,
                &[43, 0, 0, 0, 0, 0, 0, 0, 6, 0, 0, 0, 0, 0, 0, 0],
                over_ipv6(b"hello"),
            ),
            // Destination options of 16 bytes.
            (
                41,
                60,
                &[6, 1, 0, 0, 0, 0, 0, 0, 6, 0, 0, 0, 0, 0, 0, 0],
                over_ipv6(b"hello"),
            ),
        ],
    );
}

#[test]
fn an_extension_header_decides_what_follows(rt: HostRuntime) {
    expect_headers(
        &rt,
        &[
            (33, 44, &[6, 0, 0, 0, 0, 0, 0, 0], Seen::Fragment),
            (33, 0, &[44, 0, 0, 0, 0, 0, 0, 0], Seen::Fragment),
            (33, 0, &[17, 0, 0, 0, 0, 0, 0, 0], Seen::Other),
            (33, 0, &[6, 4, 0, 0, 0, 0, 0, 0], Seen::Bad),
            (7, 0, &[6, 0, 0, 0, 0, 0, 0, 0], Seen::Bad),
            // A jumbogram: its true length stands in the options (RFC 2675).
            (0, 0, &[6, 0, 0, 0, 0, 0, 0, 0], Seen::Bad),
        ],
    );
}
