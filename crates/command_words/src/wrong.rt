//! What is wrong with words that have no reading, for people to read. No clause speaks of it: `read_words` decides.

use crate::areas::{few_areas, fit_together, read_area};
use crate::making::MOST_FRAMES;
use crate::numbers::{read_port, read_up_to};
use crate::options::{BUFFERS, FLAGS, NAMES, OWN, are_turns, range_of, read_size, takes};
use arrayvec::ArrayVec;
use std::fmt;

/// What is wrong with a command's words: the first that has no place among those before it, where one can be named.
#[derive(Clone, Copy)]
pub enum Wrong<'a> {
    /// There is no word.
    NoWord,
    /// This is no command.
    NoCommand(&'a str),
    /// There is no such option.
    NoOption(&'a str),
    /// The option or flag stands a second time.
    Twice(&'a str),
    /// The option has no value.
    NoValue(&'a str),
    /// The flag has one.
    Valued(&'a str),
    /// The option takes no such value.
    Value {
        name: &'a str,
        value: &'a str,
        range: &'static str,
    },
    /// This part of the areas is none.
    NoArea(&'a str),
    /// This is no port.
    NoPort(&'a str),
    /// The port stands a second time.
    SamePort(&'a str),
    /// There is no port.
    Portless,
    /// This is a ninth port.
    NinthPort(&'a str),
    /// The buffers have too many bytes together.
    TooManyBytes,
    /// The areas have too many buffers or bytes together.
    TooLargeAreas,
    /// These two don't stand together.
    Beside(&'static str, &'static str),
    /// The flag stands only with the option.
    Only(&'static str, &'static str),
    /// Beside areas neither a number of buffers nor a size may stand.
    BesideAreas,
    /// `make` takes no options.
    OfNoOptions(&'a str),
    /// `make` takes no such number here.
    NoNumber {
        value: &'a str,
        range: &'static str,
    },
    /// `make` wants two numbers.
    NotTwoNumbers,
    /// `check` takes no word more.
    Further(&'a str),
}

impl fmt::Display for Wrong<'_> {
    fn fmt<W: fmt::Write>(&self, f: &mut fmt::Formatter<W>) -> fmt::Result {
        match *self {
            Wrong::NoWord => f.write_str("there is no command"),
            Wrong::NoCommand(word) => write!(f, "'{word}' is no command"),
            Wrong::NoOption(word) => write!(f, "there is no option '{word}'"),
            Wrong::Twice(name) => write!(f, "--{name} stands twice"),
            Wrong::NoValue(name) => write!(f, "--{name} wants a value"),
            Wrong::Valued(name) => write!(f, "--{name} takes no value"),
            Wrong::Value { name, value, range } => write!(
                f,
                "--{name} takes {range}, not '{value}'"
            ),
            Wrong::NoArea(part) => write!(
                f,
                "--areas takes parts COUNT:SIZE, a number from 1 to 4096 and a power of two from 1024 to 65536, not '{part}'"
            ),
            Wrong::NoPort(word) => write!(f, "'{word}' is no port, a number from 1 to 65535"),
            Wrong::SamePort(word) => write!(f, "port {word} stands twice"),
            Wrong::Portless => f.write_str("there is no port"),
            Wrong::NinthPort(word) => write!(f, "'{word}' is a ninth port, and there may be 8"),
            Wrong::TooManyBytes => f.write_str("--buffers times --size is above 67108864"),
            Wrong::TooLargeAreas => {
                f.write_str(
                    "--areas has more than 4096 buffers, or more than 67108864 bytes, together",
                )
            }
            Wrong::Beside(one, other) => write!(f, "--{one} stands without --{other}"),
            Wrong::Only(flag, option) => write!(f, "--{flag} stands only with --{option}"),
            Wrong::BesideAreas => f.write_str("--areas stands without --buffers and --size"),
            Wrong::OfNoOptions(word) => write!(f, "make takes no option, as '{word}'"),
            Wrong::NoNumber { value, range } => write!(f, "make takes {range}, not '{value}'"),
            Wrong::NotTwoNumbers => f.write_str("make wants two numbers"),
            Wrong::Further(word) => write!(f, "check takes no word more, as '{word}'"),
        }
    }
}

/// How the program is called, in twelve lines or fewer.
pub const USAGE: &str = "\
usage: zcrx replay [--NAME VALUE].. PORT.. < CAPTURE
       zcrx make SEED FRAMES > CAPTURE
       zcrx check < RECORD
replay follows the TCP flows to 1 to 8 ports, writes the stream of flow N to flow-N.bin
in the current folder, and prints a report, with --events also the run's record. Options:
  --buffers 64   1 to 4096 buffers            --hold 0     loans kept unread, to 4096
  --size 4096    their bytes, 2^10 to 2^16    --leak 0     loans kept to the end, to 4096
  --areas A      or 1 to 4 COUNT:SIZE, by ,   --stray 0    entries behind each, to 16
  --ring 64      1 to 256 places in a ring    --quit N     stop after so many bytes
  --split 0      payload in a note, to 256    --turns T    on one thread: n card, 0 to 7 application
  --polled       loans as a polled stream     --forward D  loans to a carrier, notices D behind
make writes a capture: a seed to 4294967295, 0 to 1000000 frames. zcrx(1) has the rest.
";

/// What was said of `replay` so far.
#[derive(Drop)]
struct SaidSoFar<'a> {
    named: [bool; NAMES.len()],
    flagged: [bool; FLAGS.len()],
    areas: Option<&'a str>,
    buffers: Option<&'a str>,
    size: Option<&'a str>,
    turns: Option<&'a str>,
    ports: ArrayVec<u16, 8>,
}

impl<'a> SaidSoFar<'a> {
    fn nothing() -> SaidSoFar<'a> {
        SaidSoFar {
            named: [false; NAMES.len()],
            flagged: [false; FLAGS.len()],
            areas: None,
            buffers: None,
            size: None,
            turns: None,
            ports: ArrayVec::new(),
        }
    }

    /// The place that says whether this option or flag was named.
    fn place(&mut self, name: &str) -> Option<&mut bool> {
        match NAMES.iter().position(|one| *one == name) {
            Some(place) => self.named.get_mut(place),
            None => {
                let place = FLAGS.iter().position(|one| *one == name)?;
                self.flagged.get_mut(place)
            }
        }
    }

    /// The option or flag of a word was named.
    fn name(&mut self, word: &'a str, name: &'a str) -> Result<(), Wrong<'a>> {
        match self.place(name) {
            None => Err(Wrong::NoOption(word)),
            Some(true) => Err(Wrong::Twice(name)),
            Some(named) => {
                *named = true;
                Ok(())
            }
        }
    }

    fn has(&mut self, name: &str) -> bool {
        self.place(name).is_some_and(|named| *named)
    }

    /// The first two that don't stand together, or the flag that stands without its option.
    fn beside(&mut self) -> Option<Wrong<'a>> {
        let own = OWN.iter().copied().find(|name| self.has(name));
        match (self.has("polled"), self.has("forward"), own) {
            (true, true, _) => Some(Wrong::Beside("polled", "forward")),
            (true, false, Some(own)) => Some(Wrong::Beside("polled", own)),
            (false, true, Some(own)) => Some(Wrong::Beside("forward", own)),
            _ if self.has("events") && !self.has("turns") => Some(Wrong::Only("events", "turns")),
            _ => None,
        }
    }

    fn option(&mut self, name: &'a str, value: &'a str) -> Result<(), Wrong<'a>> {
        if !takes(name, value) {
            return Err(wrong_value(name, value));
        }
        match name {
            "areas" => self.areas = Some(value),
            "buffers" => self.buffers = Some(value),
            "size" => self.size = Some(value),
            "turns" => self.turns = Some(value),
            _ => {}
        }
        Ok(())
    }

    fn port(&mut self, word: &'a str) -> Result<(), Wrong<'a>> {
        let Some(port) = read_port(word) else {
            return Err(Wrong::NoPort(word));
        };
        if self.ports.contains(&port) {
            return Err(Wrong::SamePort(word));
        }
        self.ports
            .try_push(port)
            .map_err(|_| Wrong::NinthPort(word))
    }

    /// What only all words together show.
    fn whole(&mut self) -> Option<Wrong<'a>> {
        if self.ports.is_empty() {
            return Some(Wrong::Portless);
        }
        if let Some(wrong) = self.beside() {
            return Some(wrong);
        }
        match self.turns {
            Some(text) if !are_turns(text, self.ports.len()) => Some(Wrong::Value {
                name: "turns",
                value: text,
                range: range_of("turns"),
            }),
            _ => wrong_pool(self.areas, self.buffers, self.size),
        }
    }
}

/// What is wrong with a value that the option doesn't take: of areas the first part that is none, where there is one.
fn wrong_value<'a>(name: &'a str, value: &'a str) -> Wrong<'a> {
    match value.split(',').find(|part| read_area(part).is_none()) {
        Some(part) if name == "areas" => Wrong::NoArea(part),
        _ => Wrong::Value {
            name,
            value,
            range: range_of(name),
        },
    }
}

/// What is wrong with the areas, by the values that were said.
fn wrong_pool<'a>(
    areas: Option<&'a str>,
    number: Option<&'a str>,
    size: Option<&'a str>,
) -> Option<Wrong<'a>> {
    if let Some(areas) = areas {
        return match few_areas(areas) {
            _ if number.is_some() || size.is_some() => Some(Wrong::BesideAreas),
            Some(areas) if fit_together(&areas) => None,
            _ => Some(Wrong::TooLargeAreas),
        };
    }
    match (BUFFERS.read(number), read_size(size)) {
        (Some(buffers), Some(size)) if fit_together(&[(buffers, size)]) => None,
        _ => Some(Wrong::TooManyBytes),
    }
}

/// What stands behind the dashes of an option, parted at the first `=`.
fn parted(name: &str) -> (&str, Option<&str>) {
    match name.split_once('=') {
        Some((name, value)) => (name, Some(value)),
        None => (name, None),
    }
}

/// What is wrong with the words behind `replay`.
fn wrong_replay<'a>(words: &[&'a str]) -> Result<Option<Wrong<'a>>, Wrong<'a>> {
    let mut said = SaidSoFar::nothing();
    let mut words = words.iter();
    let mut options = true;
    while let Some(word) = words.next() {
        match word.strip_prefix("--") {
            Some("") if options => options = false,
            Some(name) if options => {
                let (name, value) = parted(name);
                said.name(word, name)?;
                match value {
                    Some(_) if FLAGS.contains(&name) => return Err(Wrong::Valued(name)),
                    Some(value) => said.option(name, value)?,
                    None if FLAGS.contains(&name) => {}
                    None => said.option(name, value_behind(name, words.next())?)?,
                }
            }
            _ if options && is_dashed(word) => return Err(Wrong::NoOption(word)),
            _ => said.port(word)?,
        }
    }
    Ok(said.whole())
}

/// Whether a word looks like an option.
fn is_dashed(word: &str) -> bool {
    word.starts_with('-') && word.len() > 1
}

/// The word behind an option, which is its value where it doesn't look like an option.
fn value_behind<'a>(name: &'a str, word: Option<&&'a str>) -> Result<&'a str, Wrong<'a>> {
    match word {
        Some(word) if !is_dashed(word) => Ok(word),
        _ => Err(Wrong::NoValue(name)),
    }
}

/// What is wrong with the words behind `make`. Behind a word `--` all are numbers.
fn wrong_make<'a>(words: &[&'a str]) -> Option<Wrong<'a>> {
    match words.iter().copied().find(|word| is_dashed(word)) {
        Some("--") | None => {}
        Some(word) => return Some(Wrong::OfNoOptions(word)),
    }
    match words {
        ["--", seed, frames] | [seed, "--", frames] | [seed, frames, "--"] => {
            wrong_numbers(seed, frames)
        }
        ["--", _] | [_, "--"] => Some(Wrong::NotTwoNumbers),
        [seed, frames] => wrong_numbers(seed, frames),
        _ => Some(Wrong::NotTwoNumbers),
    }
}

fn wrong_numbers<'a>(seed: &'a str, frames: &'a str) -> Option<Wrong<'a>> {
    wrong_number(seed, u32::MAX, "a seed from 0 to 4294967295").or(wrong_number(
        frames,
        MOST_FRAMES,
        "0 to 1000000 frames",
    ))
}

fn wrong_number<'a>(value: &'a str, most: u32, range: &'static str) -> Option<Wrong<'a>> {
    match read_up_to(most, value) {
        Some(_) => None,
        None => Some(Wrong::NoNumber { value, range }),
    }
}

/// What is wrong with words that have no reading, as far as it can be told.
pub fn what_is_wrong<'a>(words: &[&'a str]) -> Option<Wrong<'a>> {
    match words {
        [] => Some(Wrong::NoWord),
        ["replay", rest @ ..] => match wrong_replay(rest) {
            Ok(wrong) => wrong,
            Err(wrong) => Some(wrong),
        },
        ["make", rest @ ..] => wrong_make(rest),
        ["check", word, ..] => Some(Wrong::Further(word)),
        [word, ..] => Some(Wrong::NoCommand(word)),
    }
}
