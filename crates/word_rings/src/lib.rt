//! The slots of the rings that the card and the applications share, as words.
#![tactic(auto)]

mod slots;

pub use slots::{
    NOTE_FIELDS, NOTE_WORDS, PAYLOAD_BYTES, PAYLOAD_WORDS, REFILL_WORDS, note_read, note_words,
    payload_read, refill_read, refill_words, slots_come_back,
};
