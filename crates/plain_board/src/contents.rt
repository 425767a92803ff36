ghost use Rattle.std.specs.Prelude.{◌≡◌, ℕ, ◌/◌, ◌<◌, ◌≤◌, [], false, length, slice_index, ◌==◌, MatchOption, MatchBool, IfOk, IfSome};
ghost use Rattle.board_face.specs.{Counts.{pool_count}, NicCalls.{apps_of, IsOpen, HasOwn, HasNoToken, TookBuffer, SweptWord, free_words_of, lost_of, sent_unsplit_bytes}, NicEvents.{word_bits, shut, nic_ended, saw_leave, nic_saw}, declared.views.nic.NicLook.TheVariants.{NotLeft}, Sides.{nic_at}};
ghost use Rattle.board_parts.specs.Free.{listed_in};
ghost use Rattle.plain_board.specs.{OneSide.{OnlyCard}, Sound.{IsSound}, Stand.{new_stand}, Seen.{CardSawSo}};

use area_layout::Layout;
use board_face::{AppSide, NicSide, Own};
use board_parts::{
    Cache, Diary, NoteSlot, came_free, diaries, free_if, lower, move_word, raise, rings,
};
use circular_buffer::HeapCircularBuffer;
use std::alloc::{AllocError, Global};
use std::marker::{Brand, Model};
use zr_kinds::Rqe;

/// What the board for one thread is made of: counts, rings and free buffers in plain arrays.
#[derive(Drop)]
pub struct Contents {
    pub(crate) layout: Layout,
    pub(crate) places: u32,
    /// The bytes of all buffers, one buffer after another.
    pub(crate) area: Vec<u8>,
    /// How many holders each buffer has.
    pub(crate) pool: Vec<u64>,
    /// How many of them are loans of an application, out or owed: those of one application after another.
    pub(crate) users: Vec<u64>,
    /// How many loans of an application are out, in the same order.
    pub(crate) loans: Vec<u64>,
    /// How many bytes the filled spare in a buffer has, where there is one.
    pub(crate) filled: Vec<u32>,
    /// Whether a pool buffer is on the free list.
    pub(crate) listed: Vec<bool>,
    pub(crate) cache: Cache,
    pub(crate) notes: Vec<HeapCircularBuffer<NoteSlot>>,
    pub(crate) refills: Vec<HeapCircularBuffer<Rqe>>,
    /// How many refill entries on their way don't stand behind the last raw one, by application.
    pub(crate) raw: Vec<u32>,
    pub(crate) ended: bool,
    pub(crate) left: Vec<bool>,
    pub(crate) nic: Diary<NicSide, Brand>,
    pub(crate) apps: Vec<Diary<AppSide, Brand>>,
    /// Empty, with room for each pool buffer.
    pub(crate) free: Vec<u32>,
}

impl Model for Contents {
    ghost use Rattle.plain_board.specs.{Stand.{Stand, HasRoom}, Sound.{IsSound}};
    ghost use Rattle.std.specs.Prelude.{vec_capacity};

    ghost Value = { Stand };

    ghost view = { λ s. record {
      arrays = record {
        layout = s.layout;
        places = s.places;
        area = s.area.items;
        pool = s.pool.items;
        users = s.users.items;
        loans = s.loans.items;
        filled = s.filled.items;
        listed = s.listed.items;
        cache = s.cache.items;
        notes = s.notes.items;
        refills = s.refills.items;
        raw = s.raw.items;
        ended = s.ended;
        left = s.left.items;
      };
      nic = s.nic;
      apps = s.apps.items;
    } };

    ghost invariant = { λ s. IsSound (view s) × HasRoom s.layout s.free.items (vec_capacity s.free) };
}

impl Contents {
    /// A board on which nothing has happened, each pool buffer on the free list.
    pub(crate) fn open(
        alloc: Global,
        layout: Layout,
        apps: u32,
        places: u32,
    ) -> Result<Contents, AllocError>
        requires reserves { layout.reserves ≡ apps }
        requires some { 1 ≤ places }
        requires few { places ≤ 256 }
        ensures stand { IfOk result (λ board. board ≡ new_stand layout places) }
        ensures sound { IfOk result IsSound }
    {
        let buffers = layout.buffers() as usize;
        let total = layout.total() as usize;
        let count = apps as usize;
        let mut nic = Diary::open(alloc)?;
        nic.note::<Brand, (Layout, u32)>((layout, places));
        Ok(Contents {
            layout,
            places,
            area: vec![in alloc; 0; layout.bytes() as usize]?,
            pool: vec![in alloc; 0; total]?,
            users: vec![in alloc; 0; count * total]?,
            loans: vec![in alloc; 0; count * total]?,
            filled: vec![in alloc; 0; total]?,
            listed: vec![in alloc; true; buffers]?,
            cache: Cache::new(),
            notes: rings(alloc, count, places as usize)?,
            refills: rings(alloc, count, places as usize)?,
            raw: vec![in alloc; 0; count]?,
            ended: false,
            left: vec![in alloc; false; count]?,
            nic,
            apps: diaries(alloc, layout, apps, places)?,
            free: Vec::with_capacity(alloc, buffers)?,
        })
    }

    /// Takes the buffer that entered the cache last.
    pub(crate) fn take(&mut self) -> Option<Own>
        requires { IsOpen self.old.nic.view }
        ensures view { MatchOption result
            ((self.old.nic.view.cache ≡ []) × (self.new ≡ self.old))
            (λ own. TookBuffer self.old.nic.view self.new.nic.view own) }
        ensures unheld { IfSome result
            (λ own. pool_count own.buffer self.old.nic self.old.apps ≡ 0) }
        ensures only { OnlyCard self.old self.new }
    {
        let Some(buffer) = self.cache.pop() else {
            let nic = &mut self.nic;
            nic.note::<Brand, ()>(());
            return None;
        };
        raise(&mut self.pool, buffer as usize);
        let nic = &mut self.nic;
        nic.note::<Brand, u32>(buffer);
        let size = self.layout.size_of(buffer);
        Some(Own::new(buffer, 0, size))
    }

    /// Gives the card's reference up. A buffer that came to be free is cached, or listed where the cache is full.
    pub(crate) fn shut(&mut self, own: Own)
        requires open { IsOpen self.old.nic.view }
        requires out { HasOwn self.old.nic.view own }
        ensures view { self.new.nic ≡ nic_at self.old.nic
            (shut self.old.nic.view own (slice_index self.new.arrays.pool own.buffer == 0)) }
        ensures told { CardSawSo self.old self.new }
        ensures only { OnlyCard self.old self.new }
    {
        let buffer = own.buffer();
        let last = lower(&mut self.pool, buffer as usize) == 0;
        let free = came_free(last, buffer, &self.layout);
        free_if(free, buffer, &mut self.cache, &mut self.listed);
        let nic = &mut self.nic;
        nic.note::<Brand, (&Own, bool)>((&own, last));
    }

    /// Moves all buffers of a word of the free list into the cache, and answers how many.
    pub(crate) fn sweep(&mut self, word: u32) -> u32
        requires room { length self.old.nic.view.cache < 64 }
        requires word { word < free_words_of self.old.nic.view.setting }
        ensures view { SweptWord self.old.nic.view self.new.nic.view word result }
        ensures bound { lost_of self.new.nic.view ≤ sent_unsplit_bytes self.new.nic.view }
        ensures emptied { (b : ℕ) → b / word_bits ≡ word
            → listed_in self.new.arrays.listed b ≡ false }
        ensures told { CardSawSo self.old self.new }
        ensures only { OnlyCard self.old self.new }
    {
        let count = move_word(word, &mut self.cache, &mut self.listed);
        let nic = &mut self.nic;
        let cache = &self.cache;
        nic.note::<Brand, (u32, &Cache)>((word, cache));
        count
    }

    /// Ends the card's part.
    pub(crate) fn end(&mut self)
        requires { HasNoToken self.old.nic.view }
        ensures view { self.new.nic ≡ nic_at self.old.nic (nic_ended self.old.nic.view) }
        ensures only { OnlyCard self.old self.new }
    {
        self.ended = true;
        let nic = &mut self.nic;
        nic.note::<Brand, ()>(());
    }

    /// Whether an application has left.
    pub(crate) fn left(&mut self, app: u32) -> bool
        requires { app < apps_of self.old.nic.view.setting }
        ensures view { MatchBool result
            (self.new.nic ≡ nic_at self.old.nic (saw_leave self.old.nic.view app))
            (self.new.nic ≡ nic_at self.old.nic (nic_saw self.old.nic.view (NotLeft app))) }
        ensures told { CardSawSo self.old self.new }
        ensures only { OnlyCard self.old self.new }
    {
        let gone = self.left[app as usize];
        let nic = &mut self.nic;
        nic.note::<Brand, (u32, bool)>((app, gone));
        gone
    }
}
