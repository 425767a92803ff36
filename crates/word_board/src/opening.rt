//! The words and the lines of a board on which nothing has happened.
ghost use Rattle.std.specs.Prelude.{◌≡◌, IfOk};
ghost use Rattle.area_layout.specs.Layout.{IsLayout};
ghost use Rattle.ref_words.specs.Words.{full_bits, table_of, opened_words};

use crate::kinds::WORD_BITS;
use crate::lines::Line;
use area_layout::Layout;
use ref_words::{LINE_BYTES, WordMap};
use std::alloc::{AllocError, Global};

/// A word with its lowest `n` bits set, or all 64.
fn full_word(n: u32) -> u64
    ensures { result ≡ full_bits n }
{
    if n >= WORD_BITS {
        u64::MAX
    } else {
        (1 << n) - 1
    }
}

/// All words, in the order of the table.
pub(crate) fn opened(alloc: Global, map: &WordMap, layout: Layout) -> Result<Vec<u64>, AllocError>
    requires { layout ≡ map.now.layout }
    ensures words { IfOk result (λ words. words.items ≡ table_of (opened_words map.now)) }
    ensures sound { IfOk result (λ _. IsLayout layout) }
{
    let buffers = layout.buffers();
    let free_words = (buffers + WORD_BITS - 1) / WORD_BITS;
    let mut words = Vec::with_capacity(alloc, map.words())?;
    words.resize(map.free(0), 0)?;
    for word in 0..free_words {
        words.push(full_word(buffers - WORD_BITS * word))?;
    }
    words.resize(map.words(), 0)?;
    Ok(words)
}

/// All lines of the area.
pub(crate) fn opened_lines(alloc: Global, map: &WordMap) -> Result<Vec<Line>, AllocError>
    ensures { IfOk result (λ lines. lines.items ≡ (opened_words map.now).area) }
{
    let count = map.lines();
    let mut lines = Vec::with_capacity(alloc, count)?;
    for _line in 0..count {
        lines.push([0; LINE_BYTES])?;
    }
    Ok(lines)
}
