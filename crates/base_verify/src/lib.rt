//! Whether the words of a file of bounds are consistent.
#![tactic(auto)]

mod columns;
mod consistency;
mod finding;
mod laws;
mod states;
mod taking;

pub use consistency::verify;
pub use finding::{Finding, VerifyStop};
pub use laws::{
    answers_agree, findings_tell_inconsistency, first_findings_are_one, words_are_ordered,
};
pub use states::state_holds;
