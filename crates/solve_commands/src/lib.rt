//! The commands that solve: a position, a race, a game, the scores of a match.
#![tactic(auto)]

mod bound;
mod checkers;
mod ladder;
mod ladder_keep;
mod race;
mod solve;

pub use bound::run_bound;
pub use ladder::run_ladder;
pub use race::run_race;
pub use solve::run_solve;
