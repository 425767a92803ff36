//! The options and flags of `replay`.

ghost use Rattle.std.specs.{Prelude.{◌≡◌, ◌≤◌, codes, is_some, map, option_map}, List.{list_all, list_any}};
ghost use Rattle.clap.specs.Words.{found_of, first_value};
ghost use Rattle.command_words.specs.{Asking.{flag_in}, Options.{are_turns, behaviour_of, delay_of, is_turn, number_or, options_of, quit_of, buffer_size_of, stand_together, turns_of}};

use crate::areas::few_areas;
use crate::numbers;
use area_layout::{MAX_BUFFERS, MAX_SIZE, MIN_SIZE};
use clap::ArgMatches;
use zr_kinds::{Behaviour, Options};

/// The names of the options, without their dashes.
pub static NAMES: [&str; 11] = [
    "areas", "buffers", "size", "ring", "split", "hold", "leak", "stray", "quit", "turns",
    "forward",
];

/// The names of the flags, without their dashes.
pub static FLAGS: [&str; 2] = ["polled", "events"];

/// The options that say how an application takes turns of its own.
pub(crate) static OWN: [&str; 5] = ["turns", "hold", "leak", "stray", "quit"];

/// The range of an option's number, and the number that stands for it where it isn't said.
#[derive(Clone, Copy)]
pub(crate) struct Number {
    default: u32,
    least: u32,
    most: u32,
}

pub(crate) const BUFFERS: Number = Number {
    default: 64,
    least: 1,
    most: MAX_BUFFERS,
};

const SIZE: Number = Number {
    default: 4096,
    least: MIN_SIZE,
    most: MAX_SIZE,
};

const RING: Number = Number {
    default: 64,
    least: 1,
    most: 256,
};

const SPLIT: Number = Number {
    default: 0,
    least: 0,
    most: 256,
};

/// How many completions an application keeps unread, and how many loans to the end.
const KEPT: Number = Number {
    default: 0,
    least: 0,
    most: 4096,
};

const STRAY: Number = Number {
    default: 0,
    least: 0,
    most: 16,
};

/// The most tags by which a carrier's notices stay behind.
const MOST_DELAY: u32 = 63;

/// The most characters that a text of turns may have.
const MOST_TURNS: usize = 4096;

impl Number {
    /// The number that was said.
    pub(crate) fn read(self, word: Option<&str>) -> Option<u32>
        ensures { result ≡ number_or self.default self.least self.most
            (option_map (λ w. w.now) word.entry) }
    {
        match word {
            Some(word) => numbers::read_within(self.least, self.most, word),
            None => Some(self.default),
        }
    }
}

pub(crate) fn read_size(word: Option<&str>) -> Option<u32>
    ensures { result ≡ buffer_size_of (option_map (λ w. w.now) word.entry) }
{
    let size = SIZE.read(word)?;
    match size {
        1024 | 2048 | 4096 | 8192 | 16_384 | 32_768 | 65_536 => Some(size),
        _ => None,
    }
}

// A number that need not be said.
fn read_quit(word: Option<&str>) -> Option<Option<u64>>
    ensures { result ≡ quit_of (option_map (λ w. w.now) word.entry) }
{
    match word {
        Some(word) => Some(Some(numbers::read_number(word)?)),
        None => Some(None),
    }
}

// A number that need not be said.
fn read_delay(word: Option<&str>) -> Option<Option<u32>>
    ensures { result ≡ delay_of (option_map (λ w. w.now) word.entry) }
{
    match word {
        Some(word) => Some(Some(numbers::read_up_to(MOST_DELAY, word)?)),
        None => Some(None),
    }
}

// A flag's value is `true` where it was said, and else `false`.
fn is_flagged(said: &ArgMatches, flag: &str) -> bool
    ensures { result ≡ flag_in said.now flag.now }
{
    match said.get_str(flag) {
        Some(value) => value == "true",
        None => false,
    }
}

#[tactic(auto, unfolding(crate::specs::Options::behaviour_of))]
fn read_behaviour(said: &ArgMatches) -> Option<Behaviour>
    ensures { result ≡ behaviour_of (λ name. first_value (found_of said.now) name) }
{
    let hold = KEPT.read(said.get_str("hold"))?;
    let leak = KEPT.read(said.get_str("leak"))?;
    let stray = STRAY.read(said.get_str("stray"))?;
    let quit = read_quit(said.get_str("quit"))?;
    Some(Behaviour {
        hold,
        leak,
        stray,
        quit,
    })
}

/// The numbers that were said, each in its range; those that weren't are their defaults.
#[tactic(auto, unfolding(crate::specs::Options::options_of))]
pub fn read_options(said: &ArgMatches) -> Option<Options>
    ensures { result ≡ options_of (λ name. first_value (found_of said.now) name)
        (flag_in said.now) }
{
    let ring = RING.read(said.get_str("ring"))?;
    let split = SPLIT.read(said.get_str("split"))?;
    let how = read_behaviour(said)?;
    let forward = read_delay(said.get_str("forward"))?;
    Some(Options {
        ring,
        split,
        how,
        polled: is_flagged(said, "polled"),
        forward,
        events: is_flagged(said, "events"),
    })
}

fn is_said(said: &ArgMatches, name: &str) -> bool
    ensures { result ≡ is_some (first_value (found_of said.now) name.now) }
{
    said.get_str(name).is_some()
}

fn any_said(said: &ArgMatches, names: &[&str]) -> bool
    ensures { result ≡ list_any (λ name. is_some (first_value (found_of said.now) name))
        (map (λ n. n.now) names.now) }
{
    match names {
        [] => false,
        [name, rest @ ..] => is_said(said, *name) || any_said(said, rest),
    }
}

/// Whether it is said of one way at most that applications go by it: turns of their own, polled, forwarding. The record of a
/// run is asked for only with a text of turns.
#[tactic(auto, unfolding(crate::specs::Options::stand_together))]
pub fn stand_together(said: &ArgMatches) -> bool
    ensures { result ≡ stand_together (λ name. first_value (found_of said.now) name)
        (flag_in said.now) }
{
    let own = any_said(said, OWN.as_slice());
    let polled = is_flagged(said, "polled");
    let forward = is_said(said, "forward");
    let events = is_flagged(said, "events");
    !(own && polled)
        && !(own && forward)
        && !(polled && forward)
        && (!events || is_said(said, "turns"))
}

fn is_turn(letter: u8, apps: usize) -> bool
    requires { apps ≤ 8 }
    ensures { result ≡ is_turn apps letter }
{
    letter == b'n' || b'0' <= letter && usize::from(letter) < 48 + apps
}

fn all_turns(text: &str, apps: usize) -> bool
    requires { apps ≤ 8 }
    ensures { result ≡ list_all (is_turn apps) text.now }
{
    text.as_bytes().iter().all(|letter| is_turn(*letter, apps))
}

pub(crate) fn are_turns(text: &str, apps: usize) -> bool
    requires { apps ≤ 8 }
    ensures { result ≡ are_turns apps text.now }
{
    1 <= text.len() && text.len() <= MOST_TURNS && all_turns(text, apps)
}

/// The text of turns that was said, if one was, for so many applications.
pub fn read_turns<'a>(said: &ArgMatches<'a>, apps: usize) -> Option<Option<&'a str>>
    requires { apps ≤ 8 }
    ensures { option_map (λ turns. option_map (λ text. text.now) turns) result
        ≡ turns_of apps (first_value (found_of said.now) (codes "turns")) }
{
    match said.get_str("turns") {
        Some(text) if are_turns(text, apps) => Some(Some(text)),
        Some(_) => None,
        None => Some(None),
    }
}

/// Whether an option of this name takes a value. Which letters a text of turns may have, the ports say.
pub(crate) fn takes(name: &str, value: &str) -> bool {
    match name {
        "areas" => few_areas(value).is_some(),
        "buffers" => BUFFERS.read(Some(value)).is_some(),
        "size" => read_size(Some(value)).is_some(),
        "ring" => RING.read(Some(value)).is_some(),
        "split" => SPLIT.read(Some(value)).is_some(),
        "hold" | "leak" => KEPT.read(Some(value)).is_some(),
        "stray" => STRAY.read(Some(value)).is_some(),
        "quit" => numbers::read_number(value).is_some(),
        "forward" => numbers::read_up_to(MOST_DELAY, value).is_some(),
        _ => true,
    }
}

/// Which values an option takes, for people to read.
pub(crate) fn range_of(name: &str) -> &'static str {
    match name {
        "areas" => "1 to 4 areas as COUNT:SIZE, with commas between",
        "buffers" => "a number from 1 to 4096",
        "size" => "a power of two from 1024 to 65536",
        "ring" => "a number from 1 to 256",
        "split" => "a number from 0 to 256",
        "hold" | "leak" => "a number from 0 to 4096",
        "stray" => "a number from 0 to 16",
        "quit" => "a number of at most 18 digits",
        "forward" => "a number from 0 to 63",
        _ => "1 to 4096 letters n and digits of the ports, counted from 0",
    }
}
