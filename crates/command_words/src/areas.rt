//! The areas of a replay's pool.

ghost use Rattle.std.specs.{Prelude.{◌≡◌, IfOk, option_map}, List.{slice_split}};
ghost use Rattle.clap.specs.Words.{found_of, first_value};
ghost use Rattle.command_words.specs.Areas.{area_in_word, areas_in_word, areas_or, few_areas, fit_together, is_comma, one_area, pool_areas_of};

use crate::options::{BUFFERS, read_size};
use area_layout::{MAX_AREAS, MAX_BUFFERS, MAX_BYTES};
use arrayvec::ArrayVec;
use clap::ArgMatches;
use std::alloc::{AllocError, Global};

/// An area, written as its number of buffers, a colon and their size.
pub(crate) fn read_area(text: &str) -> Option<(u32, u32)>
    ensures { result ≡ area_in_word text.now }
{
    let (buffers, size) = text.split_once(':')?;
    Some((BUFFERS.read(Some(buffers))?, read_size(Some(size))?))
}

/// The areas between commas; `None` where a part is no area, or where there are more than there may be.
pub(crate) fn few_areas(text: &str) -> Option<ArrayVec<(u32, u32), MAX_AREAS>>
    ensures { option_map (λ areas. areas.items) result ≡ few_areas (slice_split is_comma text.now) }
{
    let mut areas = ArrayVec::new();
    let mut rest = text;
    for _ in 0..MAX_AREAS {
        let Some((part, more)) = rest.split_once(',') else {
            areas.push(read_area(rest)?);
            return Some(areas);
        };
        areas.push(read_area(part)?);
        rest = more;
    }
    None
}

/// Whether all areas together have no more buffers and bytes than they may.
pub(crate) fn fit_together(areas: &[(u32, u32)]) -> bool
    ensures { result ≡ fit_together areas.now }
{
    let (mut number, mut bytes) = (0, 0);
    for &(buffers, size) in areas {
        number += u64::from(buffers);
        bytes += u64::from(buffers) * u64::from(size);
        if number > u64::from(MAX_BUFFERS) || bytes > MAX_BYTES {
            return false;
        }
    }
    true
}

/// One to four areas.
fn read_areas(alloc: Global, text: &str) -> Result<Option<Vec<(u32, u32)>>, AllocError>
    ensures { IfOk result (λ r. option_map (λ areas. areas.items) r ≡ areas_in_word text.now) }
{
    match few_areas(text) {
        Some(areas) if fit_together(&areas) => Ok(Some(areas.to_vec(alloc)?)),
        _ => Ok(None),
    }
}

/// One area, by what was said of its number of buffers and of their size.
fn one_area(
    alloc: Global,
    number: Option<&str>,
    size: Option<&str>,
) -> Result<Option<Vec<(u32, u32)>>, AllocError>
    ensures { IfOk result (λ r. option_map (λ areas. areas.items) r
        ≡ one_area (option_map (λ w. w.now) number.entry) (option_map (λ w. w.now) size.entry)) }
{
    let (Some(buffers), Some(bytes)) = (BUFFERS.read(number), read_size(size)) else {
        return Ok(None);
    };
    if u64::from(buffers) * u64::from(bytes) > MAX_BYTES {
        return Ok(None);
    }
    let mut areas = Vec::new(alloc);
    areas.push((buffers, bytes))?;
    Ok(Some(areas))
}

fn read_either(
    alloc: Global,
    areas: Option<&str>,
    number: Option<&str>,
    size: Option<&str>,
) -> Result<Option<Vec<(u32, u32)>>, AllocError>
    ensures { IfOk result (λ r. option_map (λ areas. areas.items) r
        ≡ areas_or (option_map (λ w. w.now) areas.entry) (option_map (λ w. w.now) number.entry)
        (option_map (λ w. w.now) size.entry)) }
{
    match (areas, number, size) {
        (None, number, size) => one_area(alloc, number, size),
        (Some(areas), None, None) => read_areas(alloc, areas),
        _ => Ok(None),
    }
}

/// The areas of the pool: those that were said, or one with the number of buffers and the size that were said.
#[tactic(auto, unfolding(crate::specs::Areas::pool_areas_of))]
pub fn read_pool(alloc: Global, said: &ArgMatches) -> Result<Option<Vec<(u32, u32)>>, AllocError>
    ensures { IfOk result (λ r. option_map (λ areas. areas.items) r
        ≡ pool_areas_of (λ name. first_value (found_of said.now) name)) }
{
    read_either(
        alloc,
        said.get_str("areas"),
        said.get_str("buffers"),
        said.get_str("size"),
    )
}
