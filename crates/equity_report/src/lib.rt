//! The lines of refusals, and the parts that reports are made of.
#![tactic(auto)]

mod choices;
mod parts;
mod record;
mod refusal;
mod text;
mod unheld;

pub use choices::{answer_text, offer_text};
pub use parts::{add_alone, add_kind, add_position, add_rounds, add_worth, add_written};
pub use refusal::{FileName, Refusal, Wanted, add_refusal, write_refusal};
pub use text::{
    GameName, Report, add_counted, add_game, add_number, add_points, add_stakes, add_units,
};
pub use unheld::Unheld;
