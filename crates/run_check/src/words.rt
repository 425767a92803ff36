//! The words of a line, and the events that they say.
ghost use Rattle.std.specs.{Prelude.{◌≡◌, [], ◌∷◌, IfOk, map, option_map}, Char.{is_ascii_digit}, List.{list_all}, Str.{bytes_eq}};
ghost use Rattle.run_check.specs.Reading.{all_numbers, event_by, event_from, event_of, is_numeral, number_in_word, parts_of};

use std::alloc::{AllocError, Global};
use zr_kinds::Event;

/// The most digits of a number.
const MOST_DIGITS: usize = 10;

fn all_digits(word: &[u8]) -> bool
    ensures { result ≡ list_all is_ascii_digit word.now }
{
    word.iter().all(|byte| byte.is_ascii_digit())
}

fn is_numeral(word: &[u8]) -> bool
    ensures { result ≡ is_numeral word.now }
{
    1 <= word.len()
        && word.len() <= MOST_DIGITS
        && all_digits(word)
        && (word.len() == 1 || word[0] != b'0')
}

/// The number of a word: below 2^32, of digits, without leading zeros.
pub(crate) fn number_of(word: &[u8]) -> Option<u32>
    ensures { result ≡ number_in_word word.now }
{
    if !is_numeral(word) {
        return None;
    }
    let mut value = 0u64;
    for byte in word {
        value = value * 10 + u64::from(*byte - b'0');
    }
    u32::try_from(value).ok()
}

/// The numbers of all words, where each is one.
fn all_numbers(alloc: Global, words: &[&[u8]]) -> Result<Option<Vec<u32>>, AllocError>
    ensures { IfOk result (λ r. option_map (λ numbers. numbers.items) r
        ≡ all_numbers (map (λ w. w.now) words.now)) }
{
    let mut numbers = Vec::new(alloc);
    for word in words {
        match number_of(word) {
            Some(number) => numbers.push(number)?,
            None => return Ok(None),
        }
    }
    Ok(Some(numbers))
}

/// The parts of a text between the places of a byte.
pub(crate) fn parts_of(alloc: Global, byte: u8, text: &[u8]) -> Result<Vec<&[u8]>, AllocError>
    ensures { IfOk result (λ parts. map (λ w. w.now) parts.items ≡ parts_of byte text.entry.now) }
{
    text.split(|b| *b == byte).collect(alloc)
}

pub(crate) fn is_word(word: &[u8], name: &str) -> bool
    ensures { result ≡ bytes_eq word.now name.now }
{
    word == name.as_bytes()
}

fn event_of_four(name: &[u8], first: u32, second: u32, third: u32, fourth: u32) -> Option<Event>
    ensures { result ≡ event_from name.now (first ∷ second ∷ third ∷ fourth ∷ []) }
{
    if is_word(name, "place") {
        return Some(Event::Place {
            buffer: first,
            offset: second,
            len: third,
            pool: fourth,
        });
    }
    if is_word(name, "sent") {
        return Some(Event::Sent {
            app: first,
            buffer: second,
            offset: third,
            len: fourth,
        });
    }
    if is_word(name, "held") {
        return Some(Event::Held {
            app: first,
            buffer: second,
            offset: third,
            len: fourth,
        });
    }
    if is_word(name, "honour") {
        return Some(Event::Honour {
            app: first,
            buffer: second,
            pool: third,
            user: fourth,
        });
    }
    if is_word(name, "scrub") {
        return Some(Event::Scrub {
            app: first,
            buffer: second,
            pool: third,
            user: fourth,
        });
    }
    None
}

fn event_of_five(
    name: &[u8],
    app: u32,
    buffer: u32,
    third: u32,
    fourth: u32,
    fifth: u32,
) -> Option<Event>
    ensures { result ≡ event_from name.now (app ∷ buffer ∷ third ∷ fourth ∷ fifth ∷ []) }
{
    if is_word(name, "back") {
        Some(Event::Back {
            app,
            buffer,
            offset: third,
            len: fourth,
            user: fifth,
        })
    } else if is_word(name, "free") {
        Some(Event::Free {
            app,
            buffer,
            offset: third,
            len: fourth,
            pool: fifth,
        })
    } else if is_word(name, "own") {
        Some(Event::Own {
            app,
            buffer,
            len: third,
            pool: fourth,
            user: fifth,
        })
    } else {
        None
    }
}

fn event_of_six(
    name: &[u8],
    app: u32,
    buffer: u32,
    offset: u32,
    len: u32,
    fifth: u32,
    sixth: u32,
) -> Option<Event>
    ensures { result ≡ event_from name.now (app ∷ buffer ∷ offset ∷ len ∷ fifth ∷ sixth ∷ []) }
{
    if is_word(name, "cut") {
        Some(Event::Cut {
            app,
            buffer,
            offset,
            len,
            at: fifth,
            pool: sixth,
        })
    } else if is_word(name, "lend") {
        Some(Event::Lend {
            app,
            buffer,
            offset,
            len,
            pool: fifth,
            user: sixth,
        })
    } else {
        None
    }
}

/// The event of a name with these numbers.
fn event_from(name: &[u8], numbers: &[u32]) -> Option<Event>
    ensures { result ≡ event_from name.now numbers.now }
{
    match *numbers {
        [app] if is_word(name, "stray") => Some(Event::Stray { app }),
        [buffer, pool] if is_word(name, "take") => Some(Event::Take { buffer, pool }),
        [buffer, pool] if is_word(name, "shut") => Some(Event::Shut { buffer, pool }),
        [app, buffer, pool] if is_word(name, "spare") => Some(Event::Spare { app, buffer, pool }),
        [a, b, c, d] => event_of_four(name, a, b, c, d),
        [a, b, c, d, e] => event_of_five(name, a, b, c, d, e),
        [a, b, c, d, e, f] => event_of_six(name, a, b, c, d, e, f),
        _ => None,
    }
}

/// The event that words say.
fn event_by(alloc: Global, words: &[&[u8]]) -> Result<Option<Event>, AllocError>
    ensures { IfOk result (λ e. e ≡ event_by (map (λ w. w.now) words.now)) }
{
    match words {
        [name, rest @ ..] => match all_numbers(alloc, rest)? {
            Some(numbers) => Ok(event_from(name, &numbers)),
            None => Ok(None),
        },
        [] => Ok(None),
    }
}

/// The event that a line says.
pub(crate) fn event_of(alloc: Global, line: &[u8]) -> Result<Option<Event>, AllocError>
    ensures { IfOk result (λ e. e ≡ event_of line.now) }
{
    let words = parts_of(alloc, b' ', line)?;
    event_by(alloc, &words)
}
