//! Runs by a list of steps, with what each comes to.
ghost use Rattle.board_face.specs.declared.views.app.AppView.{AppView};
ghost use Rattle.app_worker.specs.State.{AppStands};
ghost use Rattle.app_runs.specs.Scene.{IsPlaying};

use super::{Scene, all_free, card_step, open, turn_and_deal, turn_step, turns_until};
use crate::card::{CardMove, Told};
use crate::step::{Line, Step, move_of, same_bytes, same_line, went};
use app_worker::{AppState, Turn};
use plain_board::PlainBoard;
use std::alloc::Global;
use std::process::Abort;
use std::test::*;
use zr_io::MemShelf;
use zr_kinds::{Behaviour, Stopped};

/// A run: how it is set up, its steps, and what it comes to.
#[derive(Clone, Copy)]
pub struct Case<'a> {
    pub name: &'a str,
    /// How many pool buffers there are, of how many bytes, and how many places each ring has.
    pub board: (u32, u32, u32),
    /// How many completions the application keeps unread, how many loans it leaks, how many strays follow each that it gives back,
    /// and how many bytes it writes before it quits.
    pub how: (u32, u32, u32, Option<u64>),
    /// The sequence number of each flow's first byte.
    pub base: u32,
    /// Which of the shelf's calls fail, and behind how many bytes.
    pub fails: &'a [(u64, usize)],
    pub steps: &'a [Step<'a>],
    /// The flows from 0 on, and how many counted bytes flow 0 has where there are none.
    pub streams: &'a [&'a [u8]],
    pub counted: usize,
    pub line: Line,
}

/// A run of no steps of a plain application, on a board with 4 buffers and rings of 4 places.
pub const CASE: Case = Case {
    name: "",
    board: (4, 1024, 4),
    how: (0, 0, 0, None),
    base: 1000,
    fails: &[],
    steps: &[],
    streams: &[],
    counted: 0,
    line: Line(0, 0, 0, Stopped::No),
};

/// Bytes that tell their place, modulo 251.
fn counted_bytes(alloc: Global) -> Result<Vec<u8>, Fail> {
    let mut bytes = Vec::new(alloc);
    for place in 0..4096u32 {
        bytes.push((place % 251) as u8)?;
    }
    Ok(bytes)
}

/// A step of the application, and whether it went as it was to.
fn app_step(step: Step<'_>, board: PlainBoard, scene: &mut Scene) -> (PlainBoard, bool)
    requires { IsPlaying board scene.old.card scene.old.st scene.old.left }
    ensures { IsPlaying result.0 scene.new.card scene.new.st scene.new.left }
{
    match step {
        Step::Takes(wanted) => {
            let (board, turn) = turn_step(board, scene);
            (board, turn == Some(wanted))
        }
        Step::Taken(..) | Step::ShortTaken(..) => {
            let (board, turn) = turn_step(board, scene);
            (board, turn == Some(Turn::Did))
        }
        Step::TakesAny => {
            let (board, _) = turn_and_deal(board, scene);
            (board, true)
        }
        Step::TakesUntil(wanted) => turns_until(wanted, board, scene),
        _ => (board, false),
    }
}

/// Makes the step of this number, and compares what comes of it.
fn step_once(
    rt: &impl Abort,
    name: &str,
    number: u32,
    step: Step<'_>,
    call: Option<(CardMove<'_>, Told)>,
    board: PlainBoard,
    scene: &mut Scene,
) -> PlainBoard
    requires { IsPlaying board scene.old.card scene.old.st scene.old.left }
    ensures { IsPlaying result scene.new.card scene.new.st scene.new.left }
{
    let mut board = board;
    if let Some((call, wanted)) = call {
        let (then, told) = card_step(board, scene, call);
        went(rt, name, number, told == wanted);
        board = then;
        if !matches!(&step, Step::Taken(..) | Step::ShortTaken(..)) {
            return board;
        }
    }
    let (board, well) = app_step(step, board, scene);
    went(rt, name, number, well);
    board
}

/// Makes the steps of a run.
fn play(
    rt: &impl Abort,
    case: &Case<'_>,
    steps: &[Step<'_>],
    counted: &[u8],
    board: PlainBoard,
    scene: &mut Scene,
) -> PlainBoard
    requires { IsPlaying board scene.old.card scene.old.st scene.old.left }
    ensures { IsPlaying result scene.new.card scene.new.st scene.new.left }
{
    let mut board = board;
    let mut number = 0u32;
    for step in steps {
        number = number.wrapping_add(1);
        let call = move_of(*step, case.base, number, counted);
        board = step_once(rt, case.name, number, *step, call, board, scene);
    }
    board
}

/// Compares what the shelf has.
fn compare_shelf(rt: &impl Abort, case: &Case<'_>, counted: &[u8], shelf: &MemShelf) {
    if case.streams.is_empty() {
        let stream = counted.get(..case.counted).unwrap_or(&[]);
        same_bytes(rt, case.name, 0, shelf.flow(0), stream);
    }
    let mut flow = 0u32;
    for stream in case.streams {
        same_bytes(rt, case.name, flow, shelf.flow(flow), stream);
        flow = flow.wrapping_add(1);
    }
    same_bytes(rt, case.name, flow, shelf.flow(flow.max(1)), b"");
}

/// What the application tells. What it counts of each flow is what the shelf has, unless that failed.
fn line_of(rt: &impl Abort, name: &str, st: &AppState, shelf: &MemShelf) -> Line
    requires { (v : AppView) × AppStands st.now v }
{
    for flow in 0..4 {
        let same = st.flow_bytes(flow) == shelf.flow(flow).len() as u64;
        went(rt, name, flow, same || st.stopped() == Stopped::Write);
    }
    Line(st.written(), st.loans(), st.copied(), st.stopped())
}

/// Plays these steps, and answers what the application tells of itself, and the shelf. Where both have ended each buffer is free.
pub fn played(
    rt: &impl Abort,
    alloc: Global,
    case: &Case<'_>,
    steps: &[Step<'_>],
    counted: &[u8],
) -> Result<(Line, MemShelf), Fail> {
    let (buffers, size, places) = case.board;
    let (hold, leak, stray, quit) = case.how;
    let how = Behaviour {
        hold,
        leak,
        stray,
        quit,
    };
    let fails = case.fails.to_vec(alloc)?;
    let (board, mut scene) = open(alloc, buffers, size, places, how, fails)?;
    let board = play(rt, case, steps, counted, board, &mut scene);
    let line = line_of(rt, case.name, &scene.st, &scene.shelf);
    if scene.left {
        let free = all_free(board, &scene)?;
        went(rt, case.name, 0, free == buffers as usize);
    }
    let Scene { shelf, .. } = scene;
    Ok((line, shelf))
}

/// Plays these runs.
pub fn plays(rt: &impl Abort, alloc: Global, cases: &[Case<'_>]) -> Result<(), Fail> {
    let counted = counted_bytes(alloc)?;
    for case in cases {
        let (line, shelf) = played(rt, alloc, case, case.steps, &counted)?;
        same_line(rt, case.name, line, case.line);
        compare_shelf(rt, case, &counted, &shelf);
    }
    Ok(())
}
