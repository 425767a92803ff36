//! Numbers that words write.

ghost use Rattle.std.specs.{Prelude.{◌≡◌, IfOk, map, nat_eq, option_map}, Char.{is_ascii_digit}, List.{list_all}};
ghost use Rattle.command_words.specs.Numbers.{all_ports, in_range, is_distinct, is_number, is_port_list, port_of, ports_of, up_to, value_of};

use std::alloc::{AllocError, Global};

fn all_digits(word: &str) -> bool
    ensures { result ≡ list_all is_ascii_digit word.now }
{
    word.as_bytes().iter().all(|byte| byte.is_ascii_digit())
}

fn is_number(word: &str) -> bool
    ensures { result ≡ is_number word.now }
{
    1 <= word.len() && word.len() <= 18 && all_digits(word)
}

/// The number of a word: 1 to 18 ASCII digits, leading zeros allowed.
pub fn read_number(word: &str) -> Option<u64>
    ensures { result ≡ value_of word.now }
{
    if is_number(word) {
        word.parse::<u64>().ok()
    } else {
        None
    }
}

/// The number of a word, from `least` to `most`.
pub fn read_within(least: u32, most: u32, word: &str) -> Option<u32>
    ensures { result ≡ in_range least most word.now }
{
    let number = read_number(word)?;
    if u64::from(least) <= number && number <= u64::from(most) {
        Some(number as u32)
    } else {
        None
    }
}

/// The number of a word, of at most so much.
pub fn read_up_to(most: u32, word: &str) -> Option<u32>
    ensures { result ≡ up_to most word.now }
{
    read_within(0, most, word)
}

/// The port of a word: a number from 1 to 65,535.
pub fn read_port(word: &str) -> Option<u16>
    ensures { result ≡ port_of word.now }
{
    let number = read_number(word)?;
    if 1 <= number && number <= 65_535 {
        Some(number as u16)
    } else {
        None
    }
}

fn all_ports(alloc: Global, words: &[&str]) -> Result<Option<Vec<u16>>, AllocError>
    ensures { IfOk result (λ r. option_map (λ ports. ports.items) r
        ≡ all_ports (map (λ w. w.now) words.now)) }
{
    let mut ports = Vec::new(alloc);
    for word in words {
        match read_port(word) {
            Some(port) => ports.push(port)?,
            None => return Ok(None),
        }
    }
    Ok(Some(ports))
}

fn are_distinct(ports: &[u16]) -> bool
    ensures { result ≡ is_distinct nat_eq ports.now }
{
    match ports {
        [] => true,
        [port, rest @ ..] => !rest.contains(port) && are_distinct(rest),
    }
}

fn is_port_list(ports: &[u16]) -> bool
    ensures { result ≡ is_port_list ports.now }
{
    1 <= ports.len() && ports.len() <= 8 && are_distinct(ports)
}

/// The words as 1 to 8 distinct ports, in their order.
pub fn read_ports(alloc: Global, words: &[&str]) -> Result<Option<Vec<u16>>, AllocError>
    ensures { IfOk result (λ r. option_map (λ ports. ports.items) r
        ≡ ports_of (map (λ w. w.now) words.now)) }
{
    match all_ports(alloc, words)? {
        Some(ports) if is_port_list(&ports) => Ok(Some(ports)),
        _ => Ok(None),
    }
}
