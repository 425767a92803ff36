//! What `make` writes.
use super::checks::check_number;
use frame_headers::{Seen, Segment, read_frame};
use pcap_reader::Capture;
use run_driver::{Given, faultless, run};
use std::alloc::Global;
use std::random::RandomSource;
use std::sync::Wait;
use std::test::Fail;
use std::thread::Threads;
use zr_io::MemSource;

/// More bytes than any capture here has.
const ROOM: usize = 2_500_000;

/// How many bytes of each flow the longest capture here has.
pub const LONG: usize = 500_000;

/// The sequence number of the first byte of each flow.
const BASE: u32 = 4_294_960_000;

/// The capture that `make` writes by these words.
pub fn made(
    rt: &(impl AllocGlobal + RandomSource + Threads + Wait + Sync),
    words: &[&str],
) -> Result<Vec<u8>, Fail> {
    let given = Given {
        words,
        sink_room: ROOM,
        ..faultless(&[])
    };
    let left = run(rt, &given)?;
    check_number("make", 0, u64::from(left.status))?;
    Ok(left.sent)
}

/// The bytes of a flow of this number, with the seed 7, from position 0 on.
pub fn bytes_of(alloc: Global, flow: usize, count: usize) -> Result<Vec<u8>, Fail> {
    let mut bytes = Vec::with_capacity(alloc, count)?;
    let mut byte = 7u8;
    for _ in 0..flow {
        byte = byte.wrapping_add(31);
    }
    for _ in 0..count {
        bytes.push(byte)?;
        byte = byte.wrapping_add(1);
    }
    Ok(bytes)
}

/// Which positions of a flow came, worked out by the book.
#[derive(Drop)]
struct Came {
    /// Whether the position of this place came.
    positions: Vec<bool>,
}

impl Came {
    /// Takes a segment's positions. Answers how many runs of them were missing.
    fn take(&mut self, segment: &Segment<'_>) -> Result<u32, Fail> {
        let first = segment.seq.wrapping_sub(BASE) as usize;
        let mut runs = 0u32;
        let mut in_run = false;
        for place in 0..segment.payload.len() {
            let position = first.saturating_add(place);
            for _ in self.positions.len()..position.saturating_add(1) {
                self.positions.push(false)?;
            }
            let came = self.positions.get_mut(position).ok_or("no position")?;
            if !*came && !in_run {
                runs = runs.saturating_add(1);
            }
            in_run = !*came;
            *came = true;
        }
        Ok(runs)
    }
}

/// The flows of a made capture, and how many frames were taken.
#[derive(Drop)]
struct Flows {
    flows: Vec<Came>,
    frames: u32,
}

impl Flows {
    fn new(alloc: Global) -> Result<Flows, Fail> {
        let mut flows = Vec::new(alloc);
        for _ in 0..4 {
            flows.push(Came {
                positions: Vec::new(alloc),
            })?;
        }
        Ok(Flows { flows, frames: 0 })
    }

    /// Takes a frame, which has to bring one run.
    fn take(&mut self, name: &str, frame: &[u8]) -> Result<(), Fail> {
        let Seen::Tcp(segment) = read_frame(frame) else {
            return Err("no segment".into());
        };
        let flow = usize::from(segment.dport.saturating_sub(9000));
        let came = self.flows.get_mut(flow).ok_or("another flow")?;
        check_number(name, 1, u64::from(came.take(&segment)?))?;
        self.frames = self.frames.saturating_add(1);
        Ok(())
    }
}

/// Each of the 400 frames of this seed brings exactly one run of positions that was missing.
fn check_runs(
    rt: &(impl AllocGlobal + RandomSource + Threads + Wait + Sync),
    seed: &str,
) -> Result<(), Fail> {
    let alloc = rt.alloc();
    let mut source = MemSource::new(made(rt, &["make", seed, "400"])?, 65_536, Vec::new(alloc));
    let mut capture = Capture::open(&mut source).map_err(|_| "no capture")?;
    let mut frame = Vec::new(alloc);
    let mut flows = Flows::new(alloc)?;
    for _ in 0..401 {
        let record = capture.next(&mut source, &mut frame);
        if record.map_err(|_| "no record")?.is_none() {
            break;
        }
        flows.take(seed, &frame)?;
    }
    check_number(seed, 400, u64::from(flows.frames))
}

/// So where no frame is refused each makes one loan.
#[test]
fn each_frame_brings_one_run(rt: HostRuntime) -> Result<(), Fail> {
    for seed in ["7", "0", "1", "4294967295", "123456789"] {
        check_runs(&rt, seed)?;
    }
    Ok(())
}
