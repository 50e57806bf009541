//! The turns of all positions with the same checkers of the other side.
#![tactic(auto)]

mod column_turns;
mod movers;
mod play_worth;
mod rows;
mod sums;
mod turns;

pub use column_turns::ColumnTurns;
