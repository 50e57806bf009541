//! Kinds of state, rules of money and scores as texts.
#![tactic(auto)]

mod kinds;
mod rules;
mod scores;

pub use kinds::{print_kind, printed_kinds_are_read, read_kind, read_kinds_are_printed};
pub use rules::{print_rule, read_rule};
pub use scores::print_score;
