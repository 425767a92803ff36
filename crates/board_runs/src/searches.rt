//! Plays of searches for fresh buffers, with some applications: where a search ends, and what refill rings bring.
ghost use Rattle.std.specs.Prelude.{◌≡◌, IfOk};
ghost use Rattle.board_runs.specs.Played.{IsIdleBoard};

mod lists;
mod steps;

use super::drawing::drawn;
use area_layout::Layout;
use board_face::NicFace;
use lists::Lists;
use plain_board::PlainBoard;
use std::alloc::{AllocError, Global};
use std::process::Abort;
use std::test::*;
use steps::{Step, Told, app_step, card_step, collect};
use zr_kinds::PoolStats;

const NONE: PoolStats = PoolStats {
    fast: 0,
    refill: 0,
    slow: 0,
    empty: 0,
    strays: 0,
};

/// Steps with what they have to answer, over so many buffers of 1,024 bytes, applications and places of each ring.
#[derive(Drop)]
struct Play<'a> {
    name: &'a str,
    seed: u64,
    buffers: u32,
    apps: u32,
    places: u32,
    steps: &'a [(Step, Told)],
}

/// Makes a step.
fn one_step(
    board: PlainBoard,
    stats: &mut PoolStats,
    step: Step,
) -> Result<(PlainBoard, Told), Fail>
    requires { IsIdleBoard board }
    ensures { IfOk result (λ told. IsIdleBoard told.0) }
{
    let mut nic = board.nic();
    let Some(app) = step.app() else {
        let told = card_step(&mut nic, stats, step).ok_or("the card can't do it")?;
        return Ok((nic.back(), told));
    };
    if app >= nic.apps() {
        return Err(Fail::from("no such application"));
    }
    let mut face = nic.back().app(app);
    if !app_step(&mut face, step) {
        return Err(Fail::from("the application can't do it"));
    }
    Ok((face.back(), Told::Done))
}

/// The step of this number answered as it was to.
fn answered(rt: &impl Abort, play: &Play<'_>, number: u32, well: bool) {
    assert!(rt; well, "{} {}: step {number}", play.name, play.seed);
}

/// Makes the steps of a play at a board that was just opened, and compares their answers. It answers the buffers that are free at
/// the end: those of the cache, the last first, then those of the free list from the lowest.
fn run(rt: &impl Abort, alloc: Global, play: &Play<'_>) -> Result<Vec<u32>, Fail> {
    let layout = Layout::new(play.buffers, play.apps, 1024).ok_or("no layout")?;
    if play.places < 1 || play.places > 256 {
        return Err(Fail::from("no such rings"));
    }
    let mut board = PlainBoard::open(alloc, layout, play.apps, play.places)?;
    let mut stats = NONE;
    let mut number = 0u32;
    for &(step, wanted) in play.steps {
        number = number.wrapping_add(1);
        let (then, told) = one_step(board, &mut stats, step)?;
        board = then;
        answered(rt, play, number, told == wanted);
    }
    let mut free = Vec::new(alloc);
    collect(&mut board.nic(), &mut free)?;
    Ok(free)
}

/// A search ends in the cache, at the rings, on the free list, or nowhere, and is counted there.
#[test]
fn search_ends_at_each_place(rt: HostRuntime) -> Result<(), Fail> {
    let slow = PoolStats { slow: 1, ..NONE };
    let fast = PoolStats { fast: 1, ..slow };
    let empty = PoolStats { empty: 1, ..fast };
    let refill = PoolStats {
        refill: 1,
        strays: 1,
        ..empty
    };
    let play = Play {
        name: "ends",
        seed: 0,
        buffers: 2,
        apps: 1,
        places: 4,
        steps: &[
            (Step::Search(1), Told::Found(true, 2, slow)),
            (Step::Search(2), Told::Found(true, 2, fast)),
            (Step::Search(3), Told::Found(false, 2, empty)),
            (Step::Send(0, 2, 1), Told::Done),
            (Step::GiveBack(0, 1, true), Told::Done),
            (Step::Search(1), Told::Found(true, 1, refill)),
        ],
    };
    run(&rt, rt.alloc(), &play)?;
    Ok(())
}

/// Searches that were answered from the free list, so many.
fn slow(times: u64) -> PoolStats {
    PoolStats {
        slow: times,
        ..NONE
    }
}

/// A search goes on until 64 buffers are cached, and no further: it stops behind the first words of the free list, and
/// in the middle of a ring, whose other entries fill the cache.
#[test]
fn search_stops_at_64(rt: HostRuntime) -> Result<(), Fail> {
    let refill = PoolStats {
        refill: 1,
        ..slow(2)
    };
    let steps = &[
        (Step::Search(1), Told::Found(true, 64, slow(1))),
        (Step::Send(0, 3, 1), Told::Done),
        (Step::Search(64), Told::Found(true, 125, slow(2))),
        (Step::Send(0, 62, 1), Told::Done),
        (Step::GiveBack(0, 65, false), Told::Done),
        (Step::Search(64), Told::Found(true, 64, refill)),
        (Step::Drain, Told::Drained(64, 0, 128)),
    ];
    large(&rt, rt.alloc(), steps)
}

/// The cache holds 128 buffers. What else comes to be free goes to the free list.
#[test]
fn cache_holds_128(rt: HostRuntime) -> Result<(), Fail> {
    let steps = &[
        (Step::Search(1), Told::Found(true, 64, slow(1))),
        (Step::Send(0, 3, 1), Told::Done),
        (Step::Search(64), Told::Found(true, 125, slow(2))),
        (Step::Send(0, 62, 1), Told::Done),
        (Step::Search(64), Told::Found(true, 127, slow(3))),
        (Step::GiveBack(0, 65, false), Told::Done),
        (Step::Drain, Told::Drained(65, 0, 128)),
    ];
    large(&rt, rt.alloc(), steps)
}

/// Makes steps over 256 buffers, all of which are free at the end.
fn large(rt: &impl Abort, alloc: Global, steps: &[(Step, Told)]) -> Result<(), Fail> {
    let play = Play {
        name: "large",
        seed: 0,
        buffers: 256,
        apps: 1,
        places: 128,
        steps,
    };
    let free = run(rt, alloc, &play)?;
    assert!(rt; free.len() == 256);
    Ok(())
}

/// Both rings are drained, and strays are counted wherever they stand.
#[test]
fn drain_counts_strays(rt: HostRuntime) -> Result<(), Fail> {
    let play = Play {
        name: "drains",
        seed: 0,
        buffers: 8,
        apps: 2,
        places: 4,
        steps: &[
            (Step::Search(1), Told::Found(true, 8, slow(1))),
            (Step::Send(0, 2, 1), Told::Done),
            (Step::Send(1, 2, 1), Told::Done),
            (Step::GiveBack(0, 1, false), Told::Done),
            (Step::GiveBack(0, 1, true), Told::Done),
            (Step::GiveBack(1, 1, true), Told::Done),
            (Step::WriteStray(1), Told::Done),
            (Step::Drain, Told::Drained(6, 3, 7)),
            (Step::Drain, Told::Drained(0, 0, 7)),
        ],
    };
    run(&rt, rt.alloc(), &play)?;
    Ok(())
}

/// A drawn step of the card or of an application, where it can be made on the lists.
fn drawn_step(lists: &mut Lists, state: &mut u64) -> Result<Option<Step>, AllocError> {
    let app = drawn(state, 2);
    let (can, step) = match drawn(state, 16) {
        0..=6 => {
            let pieces = 1 + drawn(state, 2);
            (lists.send(app, pieces)?, Step::Send(app, 1, pieces))
        }
        7..=14 => {
            let stray = drawn(state, 16) == 0;
            (lists.give_back(app, stray)?, Step::GiveBack(app, 1, stray))
        }
        _ => {
            let writes = drawn(state, 8) == 0 && lists.write_stray(app)?;
            (writes, Step::WriteStray(app))
        }
    };
    Ok(if can { Some(step) } else { None })
}

/// Drawn steps with searches between them, and a drain at their end.
fn drawn_steps(lists: &mut Lists, state: &mut u64) -> Result<Vec<(Step, Told)>, AllocError> {
    let mut steps = Vec::new(lists.alloc);
    for _ in 0..8 {
        let needed = drawn(state, 65);
        let found = lists.search(needed as usize)?;
        let told = Told::Found(found, lists.cached(), lists.stats);
        steps.push((Step::Search(needed), told))?;
        for _ in 0..drawn(state, 200) {
            if let Some(step) = drawn_step(lists, state)? {
                steps.push((step, Told::Done))?;
            }
        }
    }
    let before = lists.stats.strays;
    let count = lists.drain()?;
    let strays = lists.stats.strays.wrapping_sub(before);
    steps.push((Step::Drain, Told::Drained(count, strays, lists.cached())))?;
    Ok(steps)
}

/// A drawn play, and a look at all free buffers at its end. It answers the numbers of its searches.
fn drawn_play(rt: &impl Abort, alloc: Global, seed: u64) -> Result<PoolStats, Fail> {
    let mut state = seed;
    let buffers = 1 + drawn(&mut state, 200);
    let places = 1 + drawn(&mut state, 100);
    let mut lists = Lists::open(alloc, buffers, 2, places)?;
    let steps = drawn_steps(&mut lists, &mut state)?;
    let play = Play {
        name: "seed",
        seed,
        buffers,
        apps: 2,
        places,
        steps: &steps,
    };
    let free = run(rt, alloc, &play)?;
    assert!(rt; free == lists.free()?, "seed {seed}");
    Ok(lists.stats)
}

/// What many drawn plays count together.
fn drawn_plays(rt: &impl Abort, alloc: Global) -> Result<PoolStats, Fail> {
    let mut most = NONE;
    for seed in 0..100 {
        let stats = drawn_play(rt, alloc, seed)?;
        most.fast = most.fast.saturating_add(stats.fast);
        most.refill = most.refill.saturating_add(stats.refill);
        most.slow = most.slow.saturating_add(stats.slow);
        most.empty = most.empty.saturating_add(stats.empty);
        most.strays = most.strays.saturating_add(stats.strays);
    }
    Ok(most)
}

/// Searches and drains of drawn states do what slow code over plain lists does, and all ends are met often.
#[test]
fn searches_as_plain_lists_do(rt: HostRuntime) -> Result<(), Fail> {
    let most = drawn_plays(&rt, rt.alloc())?;
    let searches = most.fast.min(most.refill).min(most.slow).min(most.empty);
    assert!(rt; searches > 50 && most.strays > 50, "{most:?}");
    Ok(())
}
