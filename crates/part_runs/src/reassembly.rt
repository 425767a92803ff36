use crate::calls::expect_bytes;
use std::process::Abort;
use tcp_reorder::{Gap, RecvQueue, Span};

/// A call of a queue that goes as it should. A piece is a letter.
#[derive(Drop)]
enum Step {
    /// A frame of so many bytes from a sequence number on is offered, and each of its gaps is taken with this piece.
    Offer(u32, u32, u8),
    /// Whether such a frame is accepted.
    Accepts(u32, u32, bool),
    /// It is accepted, and this is its first gap.
    Gap(u32, u32, Option<Gap>),
    /// This piece is next, at this position and with so many bytes.
    Pop(u8, u64, u32),
    /// No piece is next.
    NoFront,
    /// This piece has the least position, and so many bytes.
    Pull(u8, u64, u32),
    /// This is the first position that is missing.
    Next(u64),
}

/// Takes each gap of the bytes, with the same piece for each.
fn offer(queue: &mut RecvQueue<u8>, seq: u32, len: u32, piece: u8) -> Result<(), u8> {
    for _gap in 0..8 {
        if !queue.accepts(seq, len) {
            return Ok(());
        }
        let Some(gap) = queue.gap(seq, len) else {
            return Ok(());
        };
        queue.take(seq.wrapping_add(gap.skip), gap.len, piece)?;
    }
    Ok(())
}

fn has_gap(queue: &RecvQueue<u8>, seq: u32, len: u32, gap: Option<Gap>) -> bool {
    queue.accepts(seq, len) && queue.gap(seq, len) == gap
}

fn pops(queue: &mut RecvQueue<u8>, piece: u8, span: Span) -> bool {
    queue.front() == Some(span) && queue.pop_front() == Some((piece, span))
}

/// Whether the queue goes this step.
fn goes(queue: &mut RecvQueue<u8>, step: &Step) -> bool {
    match *step {
        Step::Offer(seq, len, piece) => offer(queue, seq, len, piece).is_ok(),
        Step::Accepts(seq, len, answer) => queue.accepts(seq, len) == answer,
        Step::Gap(seq, len, gap) => has_gap(queue, seq, len, gap),
        Step::Pop(piece, position, len) => pops(queue, piece, Span { position, len }),
        Step::NoFront => queue.front().is_none() && queue.pop_front().is_none(),
        Step::Pull(piece, position, len) => queue.pull() == Some((piece, Span { position, len })),
        Step::Next(position) => queue.next_position() == position,
    }
}

/// A queue of this base goes these steps, and is left.
fn expect_steps(rt: &(impl Abort + AllocGlobal), base: u32, steps: &[Step]) -> RecvQueue<u8> {
    let mut queue = RecvQueue::new(rt.alloc(), base);
    for (at, step) in steps.iter().enumerate() {
        assert!(rt; goes(&mut queue, step), "step {at}");
    }
    queue
}

#[test]
fn the_window_and_what_lies_far_behind(rt: HostRuntime) {
    let steps = [
        Step::Accepts(1_073_741_823, 1, true),
        Step::Accepts(1_073_741_824, 1, false),
        Step::Gap(2_147_483_648, 1, None),
    ];
    expect_steps(&rt, 0, &steps);
}

#[test]
fn sequence_numbers_wrap(rt: HostRuntime) {
    let steps = [
        Step::Offer(0, 2, b'c'),
        Step::NoFront,
        Step::Offer(4_294_967_294, 2, b'a'),
        Step::Next(4),
        Step::Pop(b'a', 0, 2),
        Step::Pop(b'c', 2, 2),
    ];
    expect_steps(&rt, 4_294_967_294, &steps);
}

#[test]
fn bytes_before_the_base_are_skipped(rt: HostRuntime) {
    let gap = Gap { skip: 2, len: 1 };
    expect_steps(&rt, 1000, &[Step::Gap(998, 3, Some(gap))]);
}

#[test]
fn later_bytes_take_no_place(rt: HostRuntime) {
    let steps = [
        Step::Offer(1002, 2, b'c'),
        Step::Gap(1003, 3, Some(Gap { skip: 1, len: 2 })),
        Step::Offer(1000, 6, b'x'),
        Step::Gap(1000, 6, None),
        Step::Pop(b'x', 0, 2),
        Step::Pop(b'c', 2, 2),
        Step::Pop(b'x', 4, 2),
    ];
    expect_steps(&rt, 1000, &steps);
}

/// `abc` is there, and `XYcd` comes from the place of `b` on: only `cd` is still wanted.
#[test]
fn what_is_there_is_skipped(rt: HostRuntime) {
    let gap = Gap { skip: 2, len: 2 };
    let steps = [Step::Offer(1000, 3, b'a'), Step::Gap(1001, 4, Some(gap))];
    expect_steps(&rt, 1000, &steps);
}

#[test]
fn teardown_takes_every_piece(rt: HostRuntime) {
    let steps = [
        Step::Offer(7, 2, b'h'),
        Step::Offer(3, 1, b'd'),
        Step::Pull(b'd', 3, 1),
        Step::Next(4),
        Step::Pull(b'h', 7, 2),
    ];
    let mut queue = expect_steps(&rt, 0, &steps);
    assert!(rt; queue.pull().is_none());
    queue.destroy_empty();
}

/// Sequence numbers and lengths: out of order, before the base, twice, over one another.
const FRAMES: [(u32, u32); 7] = [(12, 3), (9, 2), (20, 4), (11, 12), (8, 4), (10, 6), (25, 2)];

/// Who has each of the positions from 0 on, where the first frame counts and 0 is nobody. The base is 10.
fn owners() -> [u8; 32] {
    let mut owners = [0; 32];
    let mut name = 0u8;
    for (seq, len) in FRAMES {
        name = name.wrapping_add(1);
        for place in 0..len {
            let position = seq.wrapping_add(place).wrapping_sub(10) as usize;
            if position < 32 && owners[position] == 0 {
                owners[position] = name;
            }
        }
    }
    owners
}

/// Pops what is in order, and says which piece has each of the positions.
fn popped(queue: &mut RecvQueue<u8>) -> [u8; 32] {
    let mut shown = [0; 32];
    for _piece in 0..16 {
        let Some((piece, span)) = queue.pop_front() else {
            return shown;
        };
        for place in 0..u64::from(span.len) {
            let position = span.position.wrapping_add(place) as usize;
            if position < 32 {
                shown[position] = piece;
            }
        }
    }
    shown
}

/// Offers the frames, each with its number as its piece.
fn offer_frames(queue: &mut RecvQueue<u8>) -> Result<(), u8> {
    let mut name = 0u8;
    for (seq, len) in FRAMES {
        name = name.wrapping_add(1);
        offer(queue, seq, len, name)?;
    }
    Ok(())
}

#[test]
fn pieces_stand_as_in_a_plain_table(rt: HostRuntime) {
    let mut queue = RecvQueue::new(rt.alloc(), 10);
    assert!(rt; offer_frames(&mut queue).is_ok());
    assert!(rt; queue.next_position() == 14);
    expect_bytes(&rt, &popped(&mut queue)[..14], &owners()[..14]);
}
