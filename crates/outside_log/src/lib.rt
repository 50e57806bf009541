//! What the solver reaches outside itself, as traits: files, with a log of calls, and the output.
#![tactic(auto)]

mod copying;
mod laws;
mod log;
mod outside;
mod reading;

pub use copying::{copy_front, rest_from};
pub use laws::{files_stay_till_one_takes_a_place, written_files_stand};
pub use log::{Log, Told};
pub use outside::{Files, Sink};
pub use reading::{WholeStop, begins_otherwise, fill, read_whole, size_of};
