//! What the text of a record is read as, with the lines that its lines come from.
#![tactic(auto)]

mod cut;
mod examples;
mod front;
mod laws;
mod play;
mod read;

pub use examples::{line_examples, play_examples, text_examples};
pub use front::{LineFront, line_front};
pub use laws::plain_lines_stay;
pub use read::{PlainRecord, read_plain};
