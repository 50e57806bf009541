//! Studying a recorded game or match: solving what it is played for, and judging its decisions by that.
#![tactic(auto)]

mod match_study;
mod record_keep;
mod studying;

pub use match_study::study_match;
pub use record_keep::RecordKeep;
pub use studying::{stakes_of, study};
