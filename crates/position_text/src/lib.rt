//! Places and positions as texts.
#![tactic(auto)]

mod place;
mod text;

pub use place::{place_name, push_word, read_place};
pub use text::{
    BadPosition, MOST_CHECKERS, print_position, printed_positions_are_read, read_position,
};
