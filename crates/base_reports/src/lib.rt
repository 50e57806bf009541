//! The exact texts of the reports of commands that look states up in a file of bounds.
#![tactic(auto)]

mod advice;
mod lists;
mod shown;

pub use advice::{write_cube, write_ranking};
pub use lists::{add_best_play, add_refused, add_shown};
pub use shown::{KindRow, write_shown};
