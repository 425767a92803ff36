//! The words of `make`.

ghost use Rattle.std.specs.Prelude.{◌≡◌, List, ℕ, [], IfOk, drop, map, option_map};
ghost use Rattle.clap.specs.Words.{found_of, matched_of, raw_values};
ghost use Rattle.command_words.specs.{Assigned.{if_any, sorted}, Asking.{port_id}, Words.{make_of, make_numbers_of}};

use crate::{assign, numbers};
use clap::ArgMatches;
use std::alloc::{AllocError, Global};

/// The most frames that `make` makes.
pub(crate) const MOST_FRAMES: u32 = 1_000_000;

/// What `make` is told.
#[derive(Clone, Copy, Debug, PartialEq, Eq)]
pub struct Make {
    /// What the numbers drawn start as.
    pub seed: u32,
    /// How many frames the capture has.
    pub frames: u32,
}

// `make` has no options and no flags.
static NAMES: [&str; 0] = [];

fn read_numbers(words: &[&str]) -> Option<Make>
    ensures { result ≡ make_numbers_of (map (λ w. w.now) words.now) }
{
    match words {
        [seed, frames] => Some(Make {
            seed: numbers::read_up_to(u32::MAX, seed)?,
            frames: numbers::read_up_to(MOST_FRAMES, frames)?,
        }),
        _ => None,
    }
}

fn numbers_said(said: &ArgMatches) -> Option<Make>
    ensures { (words : List (List ℕ))
        → option_map raw_values (matched_of (found_of said.now) port_id) ≡ if_any words
        → result ≡ make_numbers_of words }
{
    match assign::plain_words(said) {
        Some(words) => read_numbers(words),
        None => None,
    }
}

/// What the words after the first tell `make`; `None` where they are no two numbers in range.
pub fn read_make(alloc: Global, words: &[&str]) -> Result<Option<Make>, AllocError>
    ensures { IfOk result (λ r. r ≡ make_of (sorted [] [] (drop 1 (map (λ w. w.now) words.now)))) }
{
    match assign::assign(alloc, NAMES.as_slice(), NAMES.as_slice(), words)? {
        Some(said) => Ok(numbers_said(&said)),
        None => Ok(None),
    }
}
