//! Workers that sweep the blocks of a board in rounds.
#![tactic(auto)]

mod blocks;
mod columns;
mod rounds;
mod seat_pairs;
mod sweep;
mod worker;

pub use blocks::blocks_of;
pub use rounds::{Solved, run_rounds, words_after_rounds};
pub use sweep::sweep_block;
pub use worker::Worker;
