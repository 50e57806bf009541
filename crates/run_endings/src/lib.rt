//! How a run ends: what a command answers, what is put of it, and what refuses the files that it reads and writes.
#![tactic(auto)]

mod asked;
mod ending;
mod load;
mod note;
mod put;
mod scores;
mod writing;

pub use asked::{AskedKind, asked_kind};
pub use ending::RunStop;
pub use load::{game_told, load_file, look_refusal, open_file, open_keeping};
pub use note::{put_line, put_tally};
pub use put::{DONE, end, refuse_unread};
pub use scores::{ladder_rounds, score_file};
pub use writing::{begin, settle};
