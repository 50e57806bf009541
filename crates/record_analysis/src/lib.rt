//! What each decision of a recorded game loses, and what the decisions of each player lose together.
#![tactic(auto)]

mod analysis;
mod judging;
mod laws;
mod total;

pub use analysis::{Analysis, Judged};
pub use laws::{
    analyses_enclose_what_is_lost, one_list_gives_the_analysis, right_decisions_can_be_judged,
    sure_sources_judge, tighter_words_give_tighter_analyses,
};
pub use total::Total;
