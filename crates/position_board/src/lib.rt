//! Positions as boards of text.
#![tactic(auto)]

mod board;
mod laws;

pub use board::{BoardText, board_told, print_board};
pub use laws::boards_are_as_drawn;
