//! So many workers, whose number can't be changed where they are handed on.
#![tactic(auto)]

mod team;

pub use team::Team;
