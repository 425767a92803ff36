use completion_ring::CqRing;
use std::process::Abort;
use zr_kinds::Completion;

/// A call of a ring that goes as it should, or a state of the ring. A completion and its loan are told by a number.
#[derive(Drop)]
enum Step {
    /// This one is posted.
    Post(u32),
    /// This one is given back, since each place has another.
    Refused(u32),
    /// This one is the oldest.
    Reap(u32),
    /// There is none.
    Empty,
    /// Each place has one.
    Full,
    /// A place has none.
    Free,
}

fn completion(number: u32) -> Completion {
    Completion {
        user_data: u64::from(number),
        res: 5,
        flags: 2,
        off: 1024,
    }
}

fn posts(ring: &mut CqRing<u32>, number: u32) -> bool {
    ring.post(completion(number), number).is_ok()
}

fn gives_back(ring: &mut CqRing<u32>, number: u32) -> bool {
    ring.post(completion(number), number) == Err((completion(number), number))
}

fn reaps(ring: &mut CqRing<u32>, number: u32) -> bool {
    ring.reap() == Some((completion(number), number))
}

/// Whether the ring goes this step.
fn goes(ring: &mut CqRing<u32>, step: &Step) -> bool {
    match *step {
        Step::Post(number) => posts(ring, number),
        Step::Refused(number) => gives_back(ring, number),
        Step::Reap(number) => reaps(ring, number),
        Step::Empty => ring.is_empty() && ring.reap().is_none(),
        Step::Full => ring.is_full(),
        Step::Free => !ring.is_full(),
    }
}

fn expect_steps(rt: &impl Abort, ring: &mut CqRing<u32>, steps: &[Step]) {
    for (at, step) in steps.iter().enumerate() {
        assert!(rt; goes(ring, step), "step {at}");
    }
}

/// Two are in the ring, of which `oldest` is the first, and each round posts one more and takes the oldest out.
fn expect_rounds(rt: &impl Abort, ring: &mut CqRing<u32>, rounds: u32) {
    for oldest in 0..rounds {
        let next = oldest.wrapping_add(2);
        expect_steps(
            rt,
            ring,
            &[Step::Post(next), Step::Full, Step::Reap(oldest), Step::Free],
        );
    }
}

#[test]
fn one_place_is_full_at_once(rt: HostRuntime) {
    let mut ring = CqRing::new(rt.alloc(), 1).expect(&rt, "memory");
    expect_steps(
        &rt,
        &mut ring,
        &[
            Step::Empty,
            Step::Post(0),
            Step::Full,
            Step::Refused(1),
            Step::Reap(0),
            Step::Empty,
        ],
    );
}

#[test]
fn longer_ring_goes_round(rt: HostRuntime) {
    let mut ring = CqRing::new(rt.alloc(), 3).expect(&rt, "memory");
    expect_steps(&rt, &mut ring, &[Step::Post(0), Step::Post(1)]);
    expect_rounds(&rt, &mut ring, 8);
}
