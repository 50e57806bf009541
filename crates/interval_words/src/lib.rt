//! The words of all states, which many threads tighten at once.
#![tactic(auto)]

mod board;
mod laws;
mod live_index;
mod number;
mod rule;
mod view;
mod words;

pub use board::{Board, BoardSeat};
pub use laws::{
    consistent_lists_enclose, events_keep_the_core, every_event_keeps_the_core,
    kept_words_are_sound, notes_only_tighten, states_are_numbered,
};
pub use live_index::LiveIndex;
pub use words::{Closed, Words, WordsReader};
