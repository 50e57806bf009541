//! The commands that look states up in a file of bounds: they show and advise.
#![tactic(auto)]

mod advise;
mod advise_laws;
mod advise_list;
mod list_answers;
mod lists;
mod show;
mod show_list;

pub use advise::{FoundAdvice, FoundRanking, OpenedFile, run_advise};
pub use advise_laws::{looked_up_advice_is_of_the_file, looked_up_rankings_are_of_the_file};
pub use advise_list::run_advise_list;
pub use list_answers::{LineAnswer, LineSought, RankedLine, ShownLine};
pub use lists::{MOST_LIST_BYTES, RolledPosition, words_refusal};
pub use show::{Rows, Shown, run_show};
pub use show_list::run_show_list;
