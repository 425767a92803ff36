ghost use Rattle.std.specs.Prelude.{◌≡◌, ◌+◌, ◌^◌, ◌<◌, ◌≤◌};
ghost use Rattle.area_layout.specs.Layout.{IsLayout, all_buffers, size_of};
ghost use Rattle.board_face.specs.NicCalls.{apps_of, free_words_of};
ghost use Rattle.ref_words.specs.{Words.{roles_of, table_words, role_at, phase_at, pool_at, user_word_at, free_at, note_at, refill_at}, Lines.{area_lines, line_at}};
ghost use Rattle.word_rings.specs.Slots.{note_width, refill_width};

use area_layout::Layout;
use std::marker::Model;
use word_rings::{NOTE_WORDS, REFILL_WORDS};

/// How many pool buffers a word of the free list tells of.
const WORD_BITS: usize = 64;

/// How many bytes a line of the area has.
pub const LINE_BYTES: usize = 64;

/// How many words of 8 bytes it would have.
const LINE_WORDS: u64 = 8;

/// Where each word of a board lies in its table, and each line of its area among the slots. The groups of words follow each
/// other in the order of its calls; the first call's words begin at 0.
#[derive(Debug, Drop)]
pub struct WordMap {
    layout: Layout,
    places: u32,
    users: usize,
    free: usize,
    notes: usize,
    refills: usize,
    end: usize,
}

impl Model for WordMap {
    ghost use Rattle.board_face.specs.declared.views.parts.Setting.{Setting};
    ghost use Rattle.ref_words.specs.Words.{IsMap};

    ghost Value = { Setting };

    ghost view = { λ m. record { layout = m.layout; places = m.places } };

    ghost invariant = { λ m. IsMap (record { layout = m.layout; places = m.places }) m.users m.free m.notes m.refills m.end };
}

impl WordMap {
    /// The words of a board with this layout and so many slots in each ring.
    pub fn new(layout: Layout, places: u32) -> WordMap
        requires some { 1 ≤ places }
        requires few { places ≤ 256 }
        ensures { result ≡ record { layout = layout; places = places } }
    {
        let buffers = layout.buffers() as usize;
        let total = layout.total() as usize;
        let apps = total - buffers;
        let users = 2 * (1 + apps) + total;
        let free = users + apps * total;
        let notes = free + (buffers + WORD_BITS - 1) / WORD_BITS;
        let refills = notes + apps * (places as usize * NOTE_WORDS);
        let end = refills + apps * (places as usize * REFILL_WORDS);
        WordMap {
            layout,
            places,
            users,
            free,
            notes,
            refills,
            end,
        }
    }

    /// How the area is cut into buffers.
    pub fn layout(&self) -> Layout
        ensures value { result ≡ self.now.layout }
        ensures sound { IsLayout self.now.layout }
    {
        self.layout
    }

    /// How many slots each ring has.
    pub fn places(&self) -> u32
        ensures value { result ≡ self.now.places }
        ensures some { 1 ≤ result }
        ensures few { result ≤ 256 }
    {
        self.places
    }

    /// How many words there are.
    pub fn words(&self) -> usize
        ensures { result ≡ table_words self.now }
    {
        self.end
    }

    /// The word of a role: 0 is the card, `1 + a` the application `a`.
    pub fn role(&self, role: usize) -> usize
        requires { role < roles_of self.now }
        ensures value { result ≡ role_at self.now role }
        ensures within { result < table_words self.now }
    {
        role
    }

    /// The word of a role's phase.
    pub fn phase(&self, role: usize) -> usize
        requires { role < roles_of self.now }
        ensures value { result ≡ phase_at self.now role }
        ensures within { result < table_words self.now }
    {
        self.roles() + role
    }

    /// The word of a buffer's pool count.
    pub fn pool(&self, buffer: u32) -> usize
        requires { buffer < all_buffers self.now.layout }
        ensures value { result ≡ pool_at self.now buffer }
        ensures within { result < table_words self.now }
    {
        2 * self.roles() + buffer as usize
    }

    /// The word of an application's user count for a buffer.
    pub fn user(&self, app: u32, buffer: u32) -> usize
        requires app { app < apps_of self.now }
        requires buffer { buffer < all_buffers self.now.layout }
        ensures value { result ≡ user_word_at self.now app buffer }
        ensures within { result < table_words self.now }
    {
        self.users + (app as usize * self.layout.total() as usize + buffer as usize)
    }

    /// A word of the free list.
    pub fn free(&self, word: u32) -> usize
        requires { word < free_words_of self.now }
        ensures value { result ≡ free_at self.now word }
        ensures within { result < table_words self.now }
    {
        self.free + word as usize
    }

    /// A word of a note slot of an application; word 0 is the flag.
    pub fn note(&self, app: u32, slot: u32, word: u32) -> usize
        requires app { app < apps_of self.now }
        requires slot { slot < self.now.places }
        requires word { word < note_width }
        ensures value { result ≡ note_at self.now app slot word }
        ensures within { result < table_words self.now }
    {
        self.notes
            + (app as usize * (self.places as usize * NOTE_WORDS)
                + (slot as usize * NOTE_WORDS + word as usize))
    }

    /// A word of a refill slot of an application; word 0 is the flag.
    pub fn refill(&self, app: u32, slot: u32, word: u32) -> usize
        requires app { app < apps_of self.now }
        requires slot { slot < self.now.places }
        requires word { word < refill_width }
        ensures value { result ≡ refill_at self.now app slot word }
        ensures within { result < table_words self.now }
    {
        self.refills
            + (app as usize * (self.places as usize * REFILL_WORDS)
                + (slot as usize * REFILL_WORDS + word as usize))
    }

    /// How many lines the area has.
    pub fn lines(&self) -> usize
        ensures { result ≡ area_lines self.now.layout }
    {
        (self.layout.words() / LINE_WORDS) as usize
    }

    /// The line of the area that has a buffer's byte at an offset.
    pub fn line(&self, buffer: u32, offset: u32) -> usize
        requires buffer { buffer < all_buffers self.now.layout }
        requires offset { offset < size_of self.now.layout buffer }
        ensures value { result ≡ line_at self.now.layout buffer offset }
        ensures within { result < area_lines self.now.layout }
        ensures few { result < 2 ^ 32 }
    {
        (self.layout.first_word(buffer) / LINE_WORDS) as usize + offset as usize / LINE_BYTES
    }

    /// How many roles there are.
    fn roles(&self) -> usize
        ensures value { result ≡ roles_of self.now }
        ensures few { result ≤ 9 }
    {
        1 + (self.layout.total() - self.layout.buffers()) as usize
    }
}
