//! `row_runs FILE..` plays the rows of these files over `zcrx` on memory. A line tells of each thing in which a row differs from
//! what it wants, and a last line counts the rows. It ends with 0 where nothing differs. How to write a row stands in `HOW.txt`.
#![tactic(auto)]

mod case;
mod changes;
mod files;
mod frames;
mod input;
mod judge;
mod plays;
mod row;
mod texts;
mod told;
mod wanted;
mod wrong;

use crate::files::play_all;
use crate::told::Told;
use std::process::ExitCode;
use std::random::RandomSource;
use std::sync::Wait;
use std::test::Fail;
use std::thread::Threads;
use std::{env, fs};

/// Plays the rows of all files.
fn start(
    rt: &HostRuntime,
    threads: &(impl AllocGlobal + RandomSource + Threads + Wait + Sync),
) -> Result<Told, Fail> {
    let files: Vec<String> = env::args(rt)?.skip(1).collect(rt.alloc())?;
    let mut told = Told::new(rt.alloc());
    for file in files.iter() {
        let text = fs::read_to_string(rt, file.as_str())?;
        play_all(threads, file, &text, &mut told)?;
    }
    Ok(told)
}

fn main(rt: HostRuntime) -> Result<ExitCode, Fail> {
    // The system's value serves for threads only where `main` lends it for that, so it comes a second time.
    let told = start(&rt, &rt)?;
    for line in told.lines.iter() {
        println!(rt; "{line}")?;
    }
    let Told { rows, differ, .. } = &told;
    println!(rt; "{rows} rows, {differ} differ")?;
    Ok(ExitCode::from(u8::from(!told.lines.is_empty())))
}
