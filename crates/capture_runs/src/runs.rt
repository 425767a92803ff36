//! One run over memory by turns, and what it left.
ghost use Rattle.std.specs.{Prelude.{◌<◌, ◌≤◌, length, nat_eq, IsTrue, IfOk}, List.{IsDistinct}};
ghost use Rattle.card_feed.specs.Plan.{IsPlan, TakesTurns};
ghost use Rattle.replay_turns.specs.Schedule.{AreTurns};

use card_feed::{Outcome, Plan};
use replay_turns::run_turns;
use std::alloc::Global;
use std::collections::hash_map::RandomState;
use std::process::Abort;
use std::random::RandomSource;
use std::test::*;
use top_call::Report;
use zr_io::{MemShelf, MemSource};
use zr_kinds::{Behaviour, Options};

/// How many flows a shelf has room for.
pub const FLOWS: u32 = 12;

/// How a run is set up.
#[derive(Clone, Copy)]
pub struct Setup {
    /// The second port is replayed too.
    pub both: bool,
    pub buffers: u32,
    pub size: u32,
    pub ring: u32,
    pub split: u32,
    pub how: Behaviour,
}

/// An application that does nothing but read, write and give back.
pub const EAGER: Behaviour = Behaviour {
    hold: 0,
    leak: 0,
    stray: 0,
    quit: None,
};

/// One port, and what a replay has where nothing is said.
pub const USUAL: Setup = Setup {
    both: false,
    buffers: 64,
    size: 4096,
    ring: 64,
    split: 0,
    how: EAGER,
};

/// What a run is given.
#[derive(Clone, Copy)]
pub struct Given<'a> {
    pub setup: Setup,
    pub turns: &'a str,
    /// The source's bytes.
    pub bytes: &'a [u8],
}

/// What a run left.
#[derive(Drop)]
pub struct Left {
    pub outcome: Outcome,
    pub shelves: Vec<MemShelf>,
}

fn ports_of(alloc: Global, both: bool) -> Result<Vec<u16>, Fail>
    ensures distinct { IfOk result (λ ports. IsDistinct nat_eq ports.items) }
    ensures some { IfOk result (λ ports. 0 < length ports.items) }
    ensures most { IfOk result (λ ports. length ports.items ≤ 2) }
{
    if both {
        return Ok(vec![in alloc; 9000u16, 9001]?);
    }
    Ok(vec![in alloc; 9000u16]?)
}

/// The plan of a setup.
pub fn plan_of(alloc: Global, setup: &Setup) -> Result<Plan, Fail>
    ensures plan { IfOk result (λ plan. IsPlan plan) }
    ensures turns_only { IfOk result (λ plan. TakesTurns plan) }
{
    let Setup {
        buffers,
        size,
        ring,
        split,
        how,
        ..
    } = *setup;
    if ring == 0 || ring > 256 || split > 256 {
        return Err(Fail::from("a ring or a split out of its range"));
    }
    if how.hold > 4096 || how.leak > 4096 || how.stray > 16 {
        return Err(Fail::from("a behaviour out of its ranges"));
    }
    let plan = Plan {
        ports: ports_of(alloc, setup.both)?,
        areas: vec![in alloc; (buffers, size)]?,
        options: Options {
            ring,
            split,
            how,
            polled: false,
            forward: None,
            events: false,
        },
    };
    if plan.layout().is_none() {
        return Err(Fail::from("no layout"));
    }
    Ok(plan)
}

fn are_turns(turns: &str, apps: usize) -> bool
    ensures { IsTrue result → AreTurns apps turns.now }
{
    turns.bytes().all(|letter| letter == b'n'
        || (letter >= b'0' && usize::from(letter) < 48 + apps.min(8)))
}

/// A shelf for each of so many applications.
fn shelves_of(alloc: Global, apps: usize, room: usize) -> Result<Vec<MemShelf>, Fail> {
    let mut shelves = Vec::with_capacity(alloc, apps)?;
    for _ in 0..apps {
        shelves.push(MemShelf::new(alloc, FLOWS, room, Vec::new(alloc))?)?;
    }
    Ok(shelves)
}

/// Runs, and ends the board: each of its buffers is free, and its log has no event, which isn't all where a buffer was taken.
pub fn run(
    rt: &(impl Abort + AllocGlobal + RandomSource),
    name: &str,
    given: &Given<'_>,
) -> Result<Left, Fail> {
    let alloc = rt.alloc();
    let plan = plan_of(alloc, &given.setup)?;
    if !are_turns(given.turns, plan.ports.len()) {
        return Err(Fail::from("turns of no role"));
    }
    let mut source = MemSource::new(given.bytes.to_vec(alloc)?, 4096, Vec::new(alloc));
    let mut shelves = shelves_of(alloc, plan.ports.len(), given.bytes.len())?;
    assert!(rt; shelves.len() >= plan.ports.len());
    let random = RandomState::new(rt)?;
    let (outcome, board) = run_turns(alloc, random, &mut source, &mut shelves, &plan, given.turns)?;
    let log = board.log();
    let is_silent = outcome.pool.slow == 0;
    assert!(rt;
        log.events.is_empty() && (is_silent || !log.whole),
        "{name}: a log"
    );
    let free = board.finish().free.len();
    assert!(rt;
        free == given.setup.buffers as usize,
        "{name}: {free} buffers are free"
    );
    Ok(Left { outcome, shelves })
}

/// The report of a run.
fn report_of(alloc: Global, outcome: &Outcome) -> Result<String, Fail> {
    let report = Report {
        tally: &outcome.tally,
        apps: &outcome.apps,
        flows: &outcome.flows,
        refused: &outcome.refused,
        pool: &outcome.pool,
        status: outcome.end.map_or(0, |fault| fault.number()),
    };
    Ok(format!(in alloc; "{report}")?)
}

/// Each shelf has this stream, if it is of its application, and nothing else.
fn check_shelf(rt: &impl Abort, name: &str, app: usize, shelf: &MemShelf, stream: &[u8]) {
    for flow in 0..FLOWS {
        let wanted: &[u8] = if flow as usize == app { stream } else { &[] };
        assert!(rt;
            shelf.flow(flow) == wanted,
            "{name}: flow {flow} of shelf {app}"
        );
    }
}

/// Runs, and compares all that is left. Each application has one flow, of its own number, and this stream.
pub fn check(
    rt: &(impl Abort + AllocGlobal + RandomSource),
    name: &str,
    given: &Given<'_>,
    stream: &[u8],
    report: &str,
) -> Result<(), Fail> {
    let left = run(rt, name, given)?;
    let told = report_of(rt.alloc(), &left.outcome)?;
    assert!(rt; told.as_str() == report, "{name}: {told}");
    for (app, shelf) in left.shelves.iter().enumerate() {
        check_shelf(rt, name, app, shelf, stream);
    }
    Ok(())
}
