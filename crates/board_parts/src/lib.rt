//! The parts of the board for one thread: its area, counts and free list, its rings and what lies in their slots, and the
//! diary in which each role notes what it did.
#![tactic(auto)]

mod area;
mod counts;
mod diary;
mod entries;
mod filling;
mod free;
mod ring_list;
mod scrubbing;
mod slots;

pub use area::{load, store};
pub use counts::{lower, lower_if_some, put, raise, user_index};
pub use diary::{AnyState, Diary, Next, Turn, diaries, note_at};
pub use entries::owed_buffer;
pub use filling::{filled_up, filling_of};
pub use free::{CACHE_ROOM, Cache, all_free, came_free, free_if, list_if, move_word, pick_spare};
pub use ring_list::{put_back, ring_len, rings, take_front};
pub use scrubbing::take_back;
pub use slots::{NoteSlot, with_room};
