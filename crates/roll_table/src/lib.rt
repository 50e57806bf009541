//! Rolls of two dice, and how often each comes.
#![tactic(auto)]

mod laws;
mod roll;

pub use laws::printed_rolls_are_read;
pub use roll::{BadRoll, Roll, openings, rolls};
