//! The top call: what a run of the program does with its words, and what it ends with; and such a run over real files, real output and notes
//! on standard error.
#![tactic(auto)]

mod board;
mod program;
mod top;

pub use program::{run_real, start};
pub use top::run;
