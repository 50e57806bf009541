//! Records of games that nobody played: every roll, play and turn of the cube is drawn from the words of a generator.
#![tactic(auto)]

mod choice;
mod dice;
mod draw;
mod due;
mod laws;
mod maker;
mod making;
mod size;
mod state;

pub use draw::make_record;
pub use laws::{made_records_break_no_rule, numbers_tell_records};
