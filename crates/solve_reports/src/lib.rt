//! The exact texts of the reports on what was solved.
#![tactic(auto)]

mod bound;
mod files;
mod ladder;
mod race;

pub use bound::write_bound;
pub use files::{Solved, write_solved};
pub use ladder::{write_ladder_end, write_ladder_score};
pub use race::write_race;
