//! Commands, as words ask for them.

ghost use Rattle.std.specs.{Prelude.{◌≡◌, ◌≤◌, List, ℕ, IfOk, IfSome, codes, drop, length, map, option_map}, Str.{bytes_eq}};
ghost use Rattle.clap.specs.Words.{first_value, found_of, matched_of, raw_values};
ghost use Rattle.command_words.specs.{Numbers.{ports_of}, Assigned.{if_any, sorted}, Asking.{flag_in, port_id}, Options.{flag_names, option_names}, Words.{IsCommand, command_shown, reading_of, replay_of, replay_shown, told_by_words, told_with}};

use crate::areas::read_pool;
use crate::making::{Make, read_make};
use crate::options::{FLAGS, NAMES, read_options, read_turns, stand_together};
use crate::{assign, numbers};
use clap::ArgMatches;
use std::alloc::{AllocError, Global};
use zr_kinds::Options;

/// A command that words ask for.
#[derive(Debug, Drop)]
pub enum Command<'a> {
    Replay(Replay<'a>),
    Make(Make),
    Check,
}

/// What `replay` is told.
#[derive(Debug, Drop)]
pub struct Replay<'a> {
    /// The destination ports whose flows are followed, in the order given: application `a` has the port at place `a`.
    pub ports: Vec<u16>,
    /// The areas of the pool, each with its number of buffers and their size in bytes.
    pub areas: Vec<(u32, u32)>,
    pub options: Options,
    /// Whose turns come first, one a letter: `n` for the card, a digit for the application with that number.
    pub turns: Option<&'a str>,
}

fn is_replay(word: &str) -> bool
    ensures { result ≡ bytes_eq word.now (codes "replay") }
{
    word == "replay"
}

fn is_make(word: &str) -> bool
    ensures { result ≡ bytes_eq word.now (codes "make") }
{
    word == "make"
}

fn is_check(word: &str) -> bool
    ensures { result ≡ bytes_eq word.now (codes "check") }
{
    word == "check"
}

fn ports_said(alloc: Global, said: &ArgMatches) -> Result<Option<Vec<u16>>, AllocError>
    ensures { (words : List (List ℕ))
        → option_map raw_values (matched_of (found_of said.now) port_id) ≡ if_any words
        → IfOk result (λ r. option_map (λ ports. ports.items) r ≡ ports_of words) }
{
    match assign::plain_words(said) {
        Some(words) => numbers::read_ports(alloc, words),
        None => Ok(None),
    }
}

fn with_areas<'a>(
    said: &ArgMatches<'a>,
    ports: Vec<u16>,
    areas: Vec<(u32, u32)>,
) -> Option<Replay<'a>>
    requires { length ports.items ≤ 8 }
    ensures { option_map replay_shown result
        ≡ told_with (λ name. first_value (found_of said.now) name)
        (flag_in said.now) ports.items areas.items }
{
    let options = read_options(said)?;
    let turns = read_turns(said, ports.len())?;
    Some(Replay {
        ports,
        areas,
        options,
        turns,
    })
}

fn with_ports<'a>(
    alloc: Global,
    said: &ArgMatches<'a>,
    ports: Vec<u16>,
) -> Result<Option<Replay<'a>>, AllocError>
    requires { length ports.items ≤ 8 }
    ensures { IfOk result (λ r. option_map replay_shown r
        ≡ told_by_words (λ name. first_value (found_of said.now) name) (flag_in said.now)
        ports.items) }
{
    if !stand_together(said) {
        return Ok(None);
    }
    match read_pool(alloc, said)? {
        Some(areas) => Ok(with_areas(said, ports, areas)),
        None => Ok(None),
    }
}

fn read_replay<'a>(alloc: Global, words: &'a [&'a str]) -> Result<Option<Replay<'a>>, AllocError>
    ensures { IfOk result (λ r. option_map replay_shown r
        ≡ replay_of (sorted option_names flag_names (drop 1 (map (λ w. w.now) words.entry.now)))) }
{
    let Some(said) = assign::assign(alloc, NAMES.as_slice(), FLAGS.as_slice(), words)? else {
        return Ok(None);
    };
    let Some(ports) = ports_said(alloc, &said)? else {
        return Ok(None);
    };
    with_ports(alloc, &said, ports)
}

/// The command that the words after the program's name ask for; `None` where they ask for none.
///
/// `replay` takes 1 to 8 distinct ports, numbers from 1 to 65,535, and before, between or after them its options, as
/// `--name value` or `--name=value`, and its flags, as `--name`, each at most once; `make` takes a seed from 0 to
/// 4,294,967,295 and a number of frames from 0 to 1,000,000; `check` takes none. Numbers have 1 to 18 ASCII digits; after
/// `--` each word is one. There is no text of help or of a version.
pub fn read_words<'a>(
    alloc: Global,
    words: &'a [&'a str],
) -> Result<Option<Command<'a>>, AllocError>
    ensures reading { IfOk result (λ r. option_map command_shown r
        ≡ reading_of (map (λ w. w.now) words.entry.now)) }
    ensures told { IfOk result (λ r. IfSome r IsCommand) }
{
    match words {
        [first, ..] if is_replay(first) => match read_replay(alloc, words)? {
            Some(replay) => Ok(Some(Command::Replay(replay))),
            None => Ok(None),
        },
        [first, ..] if is_make(first) => match read_make(alloc, words)? {
            Some(make) => Ok(Some(Command::Make(make))),
            None => Ok(None),
        },
        [first] if is_check(first) => Ok(Some(Command::Check)),
        _ => Ok(None),
    }
}
