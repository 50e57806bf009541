//! Exact values and their bounds, rounded to the safe side.
#![tactic(auto)]

mod bounds;
mod fixed;
mod quotient;
mod word;

pub use bounds::{End, Pair};
pub use fixed::{Fixed, ONE};
pub use quotient::{ceil_div, floor_div};
pub use word::{from_word, to_word};
