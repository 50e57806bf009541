//! Position IDs of GNU Backgammon.
#![tactic(auto)]

mod laws;
mod print;
mod read;

pub use laws::{ids_are_as_printed, printed_ids_are_read_back};
pub use print::{ID_LENGTH, IdText, id_line, id_told, print_id};
pub use read::{has_id_form, read_id};
