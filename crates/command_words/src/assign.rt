//! Words assigned by `clap`.

ghost use Rattle.std.specs.{Prelude.{◌≡◌, ◌++◌, IfOk, [], drop, map, option_map}, Str.{IsUtf8}, List.{All}};
ghost use Rattle.clap.specs.Words.{app_of, found_of, matched_of, raw_values, with_rule};
ghost use Rattle.command_words.specs.{Assigned.{sorted}, Asking.{AreMatched, AreNamesApart, app_for, app_with, flag_rules, option_rules, port_id, raw_flag}};
ghost use Rattle.command_words.specs.Asking.{raw_option};

use clap::error::ErrorKind;
use clap::{Arg, ArgAction, ArgMatches, Command};
use std::alloc::{AllocError, Global};

// The id of the words that stand for themselves. No option may have it as its name.
const PORT: &str = "PORT";

fn with_option<'a>(
    alloc: Global,
    command: Command<'a>,
    name: &'a str,
) -> Result<Command<'a>, AllocError>
    ensures { IfOk result (λ r. app_of r
        ≡ with_rule (app_of command.entry) (raw_option name.entry.now)) }
{
    command.arg(Arg::new(alloc, name).long(name).action(ArgAction::Set))
}

fn with_flag<'a>(
    alloc: Global,
    command: Command<'a>,
    name: &'a str,
) -> Result<Command<'a>, AllocError>
    ensures { IfOk result (λ r. app_of r
        ≡ with_rule (app_of command.entry) (raw_flag name.entry.now)) }
{
    command.arg(Arg::new(alloc, name).long(name).action(ArgAction::SetTrue))
}

fn command_without_options<'a>(alloc: Global) -> Command<'a>
    ensures { app_of result ≡ app_with [] }
{
    Command::new(alloc, "zcrx").disable_help_flag(true)
}

fn command_with_options<'a>(alloc: Global, names: &'a [&'a str]) -> Result<Command<'a>, AllocError>
    ensures { IfOk result (λ r. app_of r
        ≡ app_with (option_rules (map (λ n. n.now) names.entry.now))) }
{
    let mut command = command_without_options(alloc);
    for name in names {
        command = with_option(alloc, command, *name)?;
    }
    Ok(command)
}

fn command_with_flags<'a>(
    alloc: Global,
    names: &'a [&'a str],
    flags: &'a [&'a str],
) -> Result<Command<'a>, AllocError>
    ensures { IfOk result (λ r. app_of r
        ≡ app_with (option_rules (map (λ n. n.now) names.entry.now)
        ++ flag_rules (map (λ n. n.now) flags.entry.now))) }
{
    let mut command = command_with_options(alloc, names)?;
    for flag in flags {
        command = with_flag(alloc, command, *flag)?;
    }
    Ok(command)
}

fn command_for<'a>(
    alloc: Global,
    names: &'a [&'a str],
    flags: &'a [&'a str],
) -> Result<Command<'a>, AllocError>
    ensures { IfOk result (λ r. app_of r
        ≡ app_for (map (λ n. n.now) names.entry.now) (map (λ n. n.now) flags.entry.now)) }
{
    let ports = Arg::new(alloc, PORT).action(ArgAction::Append);
    command_with_flags(alloc, names, flags)?.arg(ports)
}

// A `&str` is UTF-8, which the type of a slice doesn't say of its elements.
fn known_text(word: &str)
    ensures { IsUtf8 word.now }
{}

fn known_texts(words: &[&str])
    ensures { All (λ word. IsUtf8 word.now) words.now }
{
    for word in words {
        known_text(*word);
    }
}

/// What the words after the first say, where `names` are the names of options and `flags` those of flags, without their
/// dashes; `None` where they say nothing. An option takes its value behind `=` or from the next word, a flag has none, and
/// each may stand once; after `--` each word stands for itself.
///
/// The value of an option is `get_str` of the matches, that of a flag `true` or `false`, and the words that stand for
/// themselves are `plain_words`.
pub fn assign<'a>(
    alloc: Global,
    names: &'a [&'a str],
    flags: &'a [&'a str],
    words: &'a [&'a str],
) -> Result<Option<ArgMatches<'a>>, AllocError>
    requires { AreNamesApart (map (λ n. n.now) names.now) (map (λ n. n.now) flags.now) }
    ensures { IfOk result (λ r. AreMatched (map (λ n. n.now) names.entry.now)
        (map (λ n. n.now) flags.entry.now) r
        (sorted (map (λ n. n.now) names.entry.now) (map (λ n. n.now) flags.entry.now)
        (drop 1 (map (λ w. w.now) words.entry.now)))) }
{
    known_texts(words);
    let command = command_for(alloc, names, flags)?;
    match command.try_get_matches_from(words) {
        Ok(matches) => Ok(Some(matches)),
        Err(error) => match error.kind() {
            ErrorKind::OutOfMemory => Err(AllocError),
            _ => Ok(None),
        },
    }
}

/// The words that stand for themselves, in their order; `None` where there are none.
pub fn plain_words<'m, 'a>(said: &'m ArgMatches<'a>) -> Option<&'m [&'a str]>
    ensures { option_map (λ s. map (λ w. w.now) s.now) result
        ≡ option_map raw_values (matched_of (found_of said.now) port_id) }
{
    said.get_strs(PORT)
}
