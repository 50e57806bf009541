//! The commands over recorded games: they judge, study and make one.
#![tactic(auto)]

mod analyse;
mod analyse_match;
mod by_file;
mod make;
mod record;
mod shown;
mod studying;

pub use analyse::run_analyse;
pub use make::{MadeRecord, run_make};
pub use record::Replayed;
pub use studying::run_study;
