//! Plays as texts.
#![tactic(auto)]

mod notation;

pub use notation::{
    print_play, printed_plays_are_read, printed_plays_are_taken, read_play, texts_tell_plays,
};
